//! What a player faces.

/// What a player faces on a street, all in chips.
#[derive(Clone, Copy, PartialEq, Eq)]
pub struct Facing {
    /// The bet level: what has to be met on this street.
    pub level: u64,
    /// The full raise: what a raise has to add to the bet level.
    pub full: u64,
    /// What he has put in on this street.
    pub put: u64,
    /// What he has behind.
    pub behind: u64,
    /// What the pot holds: all that was put in on this street, and what was counted beside it at its start.
    pub pot: u64,
    /// Whether he has acted on this street.
    pub acted: bool,
}
