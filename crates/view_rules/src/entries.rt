//! What is told of the floor and of a table, entry by entry.

use crate::opening::Opening;
use floor_text::{List, Name};
use seat_book::Place;
use table_engine::ActOf;
use tournament_events::Event;

/// A player's stack, as it is told.
#[derive(Clone, Copy)]
pub struct StackLine {
    /// Where he sits, or sat as his hand began.
    pub place: Place,
    /// His name.
    pub name: Name,
    /// His stack, in chips.
    pub stack: u64,
}

/// An accepted event of the floor, with what is told of it besides.
#[derive(Drop)]
pub struct JournalEntry {
    /// The number of whoever brought the event.
    pub caller: u32,
    /// The seed that the decks and the draws come from. No line shows it.
    pub seed: [u8; 32],
    /// The event: one of the plan or of the book, and no act and no called time.
    pub event: Event,
    /// The number of the hand that begins, among all hands of the tournament, and 0 where none does.
    pub serial: u64,
    /// The acts of the hand that is settled, in order.
    pub acts: List<ActOf>,
    /// The stacks after a settle, of the hand's players, and after a race, of the table's, in rising seat.
    pub stacks: List<StackLine>,
}

/// What happened at a table.
#[derive(Drop)]
pub enum TableEntry {
    /// A hand began, with this start.
    Opened(Opening),
    /// A player acted in the hand, or time was called on him.
    Acted {
        /// The number of whoever brought the act.
        caller: u32,
        /// The act.
        act: ActOf,
    },
    /// The hand ended: it was settled, or is void.
    Closed,
}
