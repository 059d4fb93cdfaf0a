//! The value of a player's best five cards, in hold'em and in Omaha.
//!
//! It stands on card_set, card_choices and rulebook. `best_holdem` and `best_omaha` give the greatest value over all
//! choices of cards that a player may show, and `five_card_value` the value of five cards. `HighValue` is ordered as
//! the lists are that contracts see. `order_does_not_count` and `suits_break_no_tie` are laws over all cards.
#![tactic(auto)]

mod best;
mod board;
mod category;
mod five_cards;
mod held;
mod high_value;
mod laws;
mod numbers;
mod rank_set;
mod suits;
mod tally;

pub use best::{best_holdem, best_omaha};
pub use category::Category;
pub use five_cards::five_card_value;
pub use high_value::HighValue;
pub use laws::{order_does_not_count, suits_break_no_tie};
pub use numbers::Numbers;
