//! What a line of the list says.

use betting_round::Act;
use card_set::CardRow;
use floor_text::{List, Name};
use level_plan::PlanLine;
use seat_book::Place;

/// An event of the tournament.
#[derive(Drop)]
pub enum Event {
    /// A line of the plan.
    Plan(PlanLine),
    /// The plan is at its end.
    Go,
    /// A player enters.
    Enter {
        /// His name.
        name: Name,
        /// The number of the table where he sits down. Any number of the grammar may stand here.
        table: u64,
        /// The number of the seat. Any number of the grammar may stand here.
        seat: u64,
    },
    /// A player who is out enters again, under his name.
    Reenter {
        /// His name.
        name: Name,
        /// The number of the table where he sits down. Any number of the grammar may stand here.
        table: u64,
        /// The number of the seat. Any number of the grammar may stand here.
        seat: u64,
    },
    /// A hand begins.
    Begin {
        /// The number of the table. Any number of the grammar may stand here.
        table: u64,
        /// The cards in the order of the deck. A card may come twice here.
        row: CardRow,
    },
    /// A player acts in a hand.
    Act {
        /// The number of the table. Any number of the grammar may stand here.
        table: u64,
        /// His name.
        name: Name,
        /// What he does.
        act: Act,
    },
    /// Time is called on the player who is due in a hand.
    Time {
        /// The number of the table. Any number of the grammar may stand here.
        table: u64,
    },
    /// A hand that is over is settled.
    Settle {
        /// The number of the table. Any number of the grammar may stand here.
        table: u64,
    },
    /// Two tables are balanced: the next big blind of the one moves to the other.
    Balance {
        /// The number of the table that he leaves. Any number of the grammar may stand here.
        from: u64,
        /// The number of the table where he sits down. Any number of the grammar may stand here.
        to: u64,
    },
    /// A table breaks: its players take seats at other tables.
    Break {
        /// The number of the table. Any number of the grammar may stand here.
        table: u64,
        /// The seats that are filled, in the order drawn.
        seats: List<Place>,
        /// Who takes them, in turn. There may be more or fewer names than seats here.
        names: List<Name>,
    },
    /// The next level begins.
    Level,
    /// A chip race is made at a table.
    Race {
        /// The number of the table. Any number of the grammar may stand here.
        table: u64,
        /// The cards in the order of the deck. A card may come twice here.
        row: CardRow,
    },
    /// Hand-for-hand is turned on, where this is true, or off.
    Hands(bool),
    /// A round of hand-for-hand ends.
    Round,
    /// The end of the tournament.
    Stop,
}

/// What a line of the grammar holds.
#[derive(Drop)]
pub enum Item {
    /// An event.
    Event(Event),
    /// A note: a line whose first byte is `*`, with any bytes behind it.
    Note,
}
