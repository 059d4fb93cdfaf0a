//! Laws of what a player is told, over every list of events, lawful or not.
//!
//! It stands on `view_rules` and what that stands on, and has no code but the laws' functions: each law is the contract
//! of a function that does nothing. Nothing that runs stands on it.
#![tactic(auto)]

mod laws;

pub use laws::{
    a_card_that_is_not_shown_could_be_any_other, a_player_is_told_what_all_are_told,
    agreeing_lists_are_told_alike, lines_tell_cards_that_are_shown, what_is_shown_stays_shown,
    who_folds_shows_no_card,
};
