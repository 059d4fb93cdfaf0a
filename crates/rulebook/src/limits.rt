//! The greatest sizes of a tournament.

/// The most tables of a tournament.
pub const MOST_TABLES: u64 = 64;

/// The most seats of a table.
pub const MOST_SEATS: u64 = 10;

/// The most entries of a tournament, and so the most players who sit or are out.
pub const MOST_ENTRIES: usize = 640;
