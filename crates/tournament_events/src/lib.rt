//! What happens in a tournament: its events, what each is answered, and how its state is reported.
//!
//! It stands on floor_text, card_set, level_plan, betting_round and seat_book, and has types alone: the book needs no
//! more of them, and their texts are those of floor_events.
#![tactic(auto)]

mod answer;
mod event;
mod report;

pub use answer::Answer;
pub use event::{Event, Item};
pub use report::{Report, ReportOut, ReportSeat};
