//! The greatest sizes of what a plan file holds.

/// The longest session word, in characters.
pub const LONGEST_SESSION_WORD: usize = 32;

/// How many bytes are asked of a source at once.
pub const BLOCK: usize = 65_536;
