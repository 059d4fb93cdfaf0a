//! Where the button and the blinds are, from hand to hand.
//!
//! It stands on rulebook, for the order of the seats. `SeatSet` is a set of seats of one table, and `next_marks`
//! says by the marks of the last hand and by who sits where now which seats have the button and the blinds
//! and which players wait; `next_big` is its big blind alone.
#![tactic(auto)]

mod marks;
mod seat_set;
mod walks;

pub use marks::{Marks, NextMarks, next_big, next_marks};
pub use seat_set::SeatSet;
