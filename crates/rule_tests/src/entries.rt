//! The names of those who entered.

use entry_list::{EntryFault, EntryList};
use floor_text::Name;

/// Gives the name of a number: a letter, and its digits.
fn name_of(number: u32) -> Option<Name> {
    let mut bytes = [b'p'; 4];
    bytes[1] = b'0' + (number / 100 % 10) as u8;
    bytes[2] = b'0' + (number / 10 % 10) as u8;
    bytes[3] = b'0' + (number % 10) as u8;
    Name::read(&bytes)
}

/// Adds the names of the numbers below 640, and tells whether each got its number.
fn fill(entries: &mut EntryList) -> Option<bool> {
    for number in 0..640 {
        if entries.add(name_of(number)?) != Ok(number) {
            return Some(false);
        }
    }
    Some(entries.len() == 640)
}

/// Tells whether a list of the names of the numbers below 640 is full.
fn is_full(entries: &mut EntryList) -> Option<bool> {
    let next = name_of(640)?;
    let last = name_of(639)?;
    let twelfth = name_of(12)?;
    Some(
        entries.add(next) == Err(EntryFault::Full)
            && entries.add(name_of(7)?) == Err(EntryFault::Known)
            && entries.find(last) == Some(639)
            && entries.find(next) == None
            && entries.len() == 640
            && entries.name(12) == twelfth,
    )
}

#[test]
fn a_list_of_640_names_is_full(rt: HostRuntime) {
    let mut entries = EntryList::new(rt.alloc());
    let filled = fill(&mut entries);
    let full = is_full(&mut entries);
    assert!(rt; filled == Some(true) && full == Some(true));
}
