//! A player's lines: what the floor and the tables tell a player, or nobody, entry by entry.
//!
//! It stands on view_rules, whose definitions say which lines each entry has and how they are spelled. `floor_lines`
//! writes those of an entry of the floor. A `TableTeller` tells of one table, entry by entry, with a hand of its own;
//! who has the hand at hand writes the same lines by `push_opening` and `push_act`.
#![tactic(auto)]

mod act;
mod clockwise;
mod floor;
mod following;
mod hole_cards;
mod line;
mod opening;
mod streets;
mod tabled;
mod teller;
mod winners;

pub use act::push_act;
pub use floor::{floor_lines, push_floor_lines};
pub use opening::push_opening;
pub use teller::TableTeller;
pub use view_rules::{JournalEntry, Opening, StackLine, TableEntry};
