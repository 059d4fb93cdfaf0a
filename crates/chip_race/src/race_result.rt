//! What a race makes of a table's stacks.

/// The stacks after a race by seat, in chips, index 0 for seat 1, and the value of the chips that it has taken off the
/// table and put on it.
#[derive(Clone, Copy, PartialEq, Eq)]
pub struct RaceResult {
    /// The stack of each seat. An empty seat has 0.
    pub stacks: [u64; 10],
    /// The sum of the odd values, which are taken away.
    pub removed: u64,
    /// The value of all chips of the new unit that are given.
    pub added: u64,
}
