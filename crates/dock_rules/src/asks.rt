//! What the floor may ask for, and what it is answered.

use floor_text::{Name, Refusal};

/// What the floor asks for. Decks and draws are filled in as it is carried out.
#[derive(Clone, Copy)]
pub enum Ask {
    /// A player enters.
    Enter { name: Name, table: u64, seat: u64 },
    /// A player who is out enters again.
    Reenter { name: Name, table: u64, seat: u64 },
    /// A player moves from one table to another.
    Balance { from: u64, to: u64 },
    /// A table breaks.
    Break { table: u64 },
    /// The next level begins.
    Level,
    /// The chip race at a table is made.
    Race { table: u64 },
    /// Hand-for-hand is switched on or off.
    Hands(bool),
    /// The round of hand-for-hand ends.
    Round,
    /// The tournament is stopped.
    Stop,
    /// The order that the floor owes, if it owes one, is carried out.
    NextOrder,
}

/// What an ask is answered.
#[derive(Clone, Copy, PartialEq, Eq)]
pub enum AskAnswer {
    /// It was carried out.
    Ok,
    /// It is refused.
    No(Refusal),
    /// No order is owed.
    NoOrder,
    /// Memory ran out.
    NoMemory,
}
