//! Where a simulated tournament stands.

/// Where a simulated tournament stands: which table of which round has its turn.
#[derive(Clone, Copy, PartialEq, Eq)]
pub struct SimPlace {
    /// The round, from 1.
    pub round: u64,
    /// The table, from 1.
    pub table: u8,
    /// Tells whether this table's hand was played in this round.
    pub played: bool,
    /// Tells whether any hand was played in this round.
    pub any_played: bool,
    /// Tells whether the tables of the round are done, and the next level has come.
    pub done: bool,
}
