//! How long a reply may be.

/// The most bytes of a reply, with its line feed.
pub const LONGEST_REPLY: usize = 64;
