//! Who moves where when tables are balanced, and which tables are halted.
//!
//! It stands on floor_text, rulebook, button_blinds and seat_book. `halted`, `worst_seat` and `balance_order` answer by
//! the kept counts of a `SeatBook` and by one walk round a table, and take no memory. `IsLawfulMove` says what a
//! lawful balance or break is; the laws say what each lawful balance does.
#![tactic(auto)]

mod balance;
mod empty_seats;
mod halting;
mod laws;
mod names;

pub use balance::{Move, balance_order};
pub use empty_seats::{empty_seat_after, worst_seat};
pub use halting::halted;
pub use laws::{
    a_balance_is_never_turned_round, a_balance_narrows_the_gap, a_checked_balance_is_lawful,
    a_lawful_balance_is_checked,
};
pub use names::names_at;
