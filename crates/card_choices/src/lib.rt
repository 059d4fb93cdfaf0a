//! Which cards a player may show of those dealt.
//!
//! It stands on card_set, and the crates of high and low values stand on it. `pairs`, `threes` and `fives` give all
//! choices of so many cards, in the order of the definition `choices`. The definitions `holdem_choices` and
//! `omaha_choices` say which five cards a player may show. `are_distinct` tests that no card comes twice.
#![tactic(auto)]

mod choices;
mod distinct;

pub use choices::{Five, Pair, Three, fives, pairs, threes};
pub use distinct::are_distinct;
