//! The chip race: odd chips are changed for chips of a greater unit.
//!
//! It stands on card_set and rulebook. `race` says what a race makes of the stacks at a table, and `laws` what holds of
//! every race.
#![tactic(auto)]

mod best_cards;
pub mod laws;
mod race_result;
mod racing;
mod winners;

pub use race_result::RaceResult;
pub use racing::race;
