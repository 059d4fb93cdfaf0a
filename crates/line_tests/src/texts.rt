//! Texts that the tests put together and compare.

use std::alloc::{AllocError, Global};

/// Gives a text of a start, of a part so many times, and of an end.
pub fn text_of(
    alloc: Global,
    start: &[u8],
    part: &[u8],
    count: usize,
    end: &[u8],
) -> Result<Vec<u8>, AllocError> {
    let mut text = Vec::from_slice(alloc, start)?;
    for _ in 0..count {
        text.extend_from_slice(part)?;
    }
    text.extend_from_slice(end)?;
    Ok(text)
}

/// Gives words one by one.
pub fn words_of(alloc: Global, texts: &[&str]) -> Result<Vec<String>, AllocError> {
    let mut words = Vec::new(alloc);
    for text in texts {
        words.push(String::from_str(alloc, text)?)?;
    }
    Ok(words)
}

/// Tells whether two texts are the same.
pub fn is_same(text: &[u8], right: &[u8]) -> bool {
    text == right
}

/// Tells whether a text was made, and is this one.
pub fn is_made(text: Result<Vec<u8>, AllocError>, right: &[u8]) -> bool {
    match text {
        Ok(text) => is_same(&text, right),
        Err(_) => false,
    }
}
