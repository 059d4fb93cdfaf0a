//! What a player does on his turn.

/// An act of a player. Amounts are in chips.
#[derive(Clone, Copy, PartialEq, Eq)]
pub enum Act {
    /// Gives the hand up: he is no longer live.
    Fold,
    /// Puts nothing in, where there is nothing to call.
    Check,
    /// Puts in what is missing to the bet level, or all that he has behind where that is less.
    Call,
    /// Puts in all that he has behind: a call, a bet or a raise.
    AllIn,
    /// Opens the betting of the street with so much.
    Bet(u64),
    /// Raises the bet level to so much.
    Raise(u64),
}

/// What an act came to. Amounts are in chips.
#[derive(Clone, Copy, PartialEq, Eq)]
pub enum Done {
    /// He folded.
    Folded,
    /// He checked.
    Checked,
    /// He called, and put in so much.
    Called(u64),
    /// He bet, and the bet level is so much now.
    BetTo(u64),
    /// He raised, and the bet level is so much now.
    RaisedTo(u64),
}
