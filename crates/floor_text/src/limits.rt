//! The greatest sizes of what a line holds.

/// The longest line, in bytes without its line feed.
pub const LONGEST_LINE: usize = 400;

/// How many bytes of a line are kept: as many as show that it is too long.
pub const KEPT: usize = LONGEST_LINE + 1;

/// How many bytes are asked of a source at once, and how many a sink holds back at most.
pub const BLOCK: usize = 65_536;

/// The longest name, in characters.
pub const LONGEST_NAME: usize = 16;

/// The greatest number that a line may hold, 2^53 - 1.
pub const GREATEST_NUMBER: u64 = 9_007_199_254_740_991;
