//! The words that a program was given.

use crate::fault::Fault;
use std::io::{self, ErrorKind};
use std::rt::Env;

/// Gives the words behind the program's own name.
fn all_words(rt: &(impl Env + AllocGlobal)) -> io::Result<Vec<String>> {
    let mut words = Vec::new(rt.alloc());
    for word in std::env::args(rt)?.skip(1) {
        words.push(word)?;
    }
    Ok(words)
}

/// Gives the words behind the program's own name. Words that are no text are no written command.
pub fn command_words(rt: &(impl Env + AllocGlobal)) -> Result<Vec<String>, Fault> {
    all_words(rt).map_err(|error| match error.kind() {
        ErrorKind::OutOfMemory => Fault::NoMemory,
        _ => Fault::Usage,
    })
}
