//! Which card of the deck goes where.
//!
//! It stands on rulebook, for the order of the seats, and on button_blinds, for sets of seats. `hole_place` says
//! which card of the deck is a player's hole card, `board_place` which is a card of the board.
//! `the_deal_takes_the_top_cards` is the law that no card is dealt twice, and
//! `a_player_and_the_board_have_other_cards` the same of one player.
#![tactic(auto)]

mod laws;
mod places;

pub use laws::{a_player_and_the_board_have_other_cards, the_deal_takes_the_top_cards};
pub use places::{board_place, hole_place};
