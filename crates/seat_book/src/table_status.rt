//! How a table stands.

ghost use Rattle.std.specs.Prelude.{◌≡◌};
ghost use Rattle.seat_book.specs.Tables.{fresh_status};

use button_blinds::Marks;

/// How a table stands.
#[derive(Clone, Copy, PartialEq, Eq)]
pub struct TableStatus {
    /// The marks of the last hand that began there, if one did.
    pub marks: Option<Marks>,
    /// Whether a hand is played there.
    pub playing: bool,
    /// The new unit of a pending chip race, in chips, if a race is pending.
    pub race: Option<u64>,
    /// The smallest chip in play there.
    pub unit: u64,
    /// Whether the table has begun a hand in the round of hand-for-hand.
    pub begun: bool,
}

impl TableStatus {
    /// Makes a table at which no hand was played: no marks, no hand, no race, the unit 1, and not begun in the round.
    pub fn fresh() -> TableStatus
        ensures { result ≡ fresh_status }
    {
        TableStatus {
            marks: None,
            playing: false,
            race: None,
            unit: 1,
            begun: false,
        }
    }
}
