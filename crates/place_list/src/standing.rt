//! Where a player stands.

/// Where a player stands who is out, or who has won.
#[derive(Clone, Copy, PartialEq, Eq)]
pub struct Standing {
    /// The player's number, by his entry.
    pub player: u32,
    /// His place, from 1.
    pub place: u32,
    /// His prize, in chips of money.
    pub prize: u64,
}
