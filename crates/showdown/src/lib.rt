//! Who wins what at a showdown.
//!
//! It stands on card_set, card_choices, hand_rank and low_rank for the hands, on rulebook and button_blinds for the
//! seats, and on pot_layers for the pots. `award` says what each player is awarded of the pots, in all three games.
//! `laws` has what holds of all awards.
#![tactic(auto)]

mod awarding;
mod hand;
mod in_turn;
pub mod laws;
mod live;
mod winning;

pub use awarding::award;
pub use live::Live;
