//! The words of a line.

use super::texts::is_made;
use betting_round::Act;
use floor_text::Name;
use line_words::{LineWords, Spelled, Word, push_lines, read_few};
use seat_book::Place;
use std::alloc::{AllocError, Global};

/// Words, and what they say of an act, of a place, and as one to three numbers.
static WORDS: [(&[u8], Option<Act>, Option<Place>, Option<usize>); 21] = [
    (b"fold", Some(Act::Fold), None, None),
    (b"allin", Some(Act::AllIn), None, None),
    (b"bet 0", Some(Act::Bet(0)), None, None),
    (
        b"raise 9007199254740991",
        Some(Act::Raise(9_007_199_254_740_991)),
        None,
        None,
    ),
    (b"", None, None, None),
    (b"bet", None, None, None),
    (b"bet 0400", None, None, None),
    (b"fold ", None, None, None),
    (b"raise 400 1", None, None, None),
    (b"1.1", None, Some(Place { table: 1, seat: 1 }), None),
    (
        b"64.10",
        None,
        Some(Place {
            table: 64,
            seat: 10,
        }),
        None,
    ),
    (b"65.1", None, None, None),
    (b"1.11", None, None, None),
    (b"1.0", None, None, None),
    (b"0.1", None, None, None),
    (b"1.01", None, None, None),
    (b"1.1.1", None, None, None),
    (b"5", None, None, Some(1)),
    (b"5 0 5", None, None, Some(3)),
    (b"5 x", None, None, None),
    (b"5 0 5 0", None, None, None),
];

/// Counts the numbers that words are, where they are one to three.
fn count_of_few(alloc: Global, words: &[u8]) -> Result<Option<usize>, AllocError> {
    match read_few::<u64, 3>(&mut LineWords::of_line(words)) {
        Some(few) => Ok(Some(few.to_list(alloc)?.items().len())),
        None => Ok(None),
    }
}

/// Tells whether words are read as a row says.
fn are_read(
    alloc: Global,
    row: &(&[u8], Option<Act>, Option<Place>, Option<usize>),
) -> Result<bool, AllocError> {
    let few = count_of_few(alloc, row.0)?;
    Ok(LineWords::of_line(row.0).act() == row.1 && Place::read(row.0) == row.2 && few == row.3)
}

#[test]
fn acts_places_and_few_numbers_are_read(rt: HostRuntime) {
    for row in &WORDS {
        assert!(rt; are_read(rt.alloc(), row).unwrap_or(false), "{:?}", row.0);
    }
}

/// Tells whether a name, a number and a switch are taken in turn, and the words are done then alone.
fn are_taken(words: &mut LineWords<'_>) -> Option<bool> {
    let name: Name = words.field()?;
    let done = words.is_done();
    let number: u64 = words.field()?;
    let last: bool = words.last_field()?;
    Some(Name::read(b"ann") == Some(name) && !done && number == 12 && last)
}

#[test]
fn words_are_taken_in_turn(rt: HostRuntime) {
    assert!(rt; are_taken(&mut LineWords::of_line(b"ann 12 on")).unwrap_or(false));
}

/// Writes three lines, of which one has no word.
fn three_lines(alloc: Global) -> Result<Vec<u8>, AllocError> {
    let mut out = Vec::new(alloc);
    let first: &[Word] = &[Word::Text(b"seat"), Word::Number(0)];
    push_lines(&mut out, &[first, &[], &[Word::Text(b"end")]])?;
    Ok(out)
}

#[test]
fn lines_are_written(rt: HostRuntime) {
    assert!(rt; is_made(three_lines(rt.alloc()), b"seat 0\n\nend\n"));
}
