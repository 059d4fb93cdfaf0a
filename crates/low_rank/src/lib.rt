//! The value of a player's best low hand, eight or better, in Omaha high and low.
//!
//! It stands on card_set, card_choices and rulebook. `best_low` gives the least value over all choices of cards that a
//! player may show and that qualify, and `None` exactly where none does. The lesser `LowValue` is better.
//! `order_does_not_count` and `suits_do_not_count` are laws over all cards.
#![tactic(auto)]

mod best;
mod laws;
mod low_ranks;
mod low_value;

pub use best::best_low;
pub use laws::{order_does_not_count, suits_do_not_count};
pub use low_value::LowValue;
