//! How many members a word may have.

/// The most members of a list, one for each seat of a table.
pub const MOST_MEMBERS: usize = 10;
