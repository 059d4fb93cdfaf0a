//! The pots of a hand, and how a pot is split.
//!
//! It stands on rulebook and button_blinds, for the seats and the sets of them. `pots` cuts what the players have put
//! in into pots by heights, and `PotTally` gives the same pots while chips come in and players fold. `share` is what
//! each of several winners gets of a pot, and `halves` what high and low get. `laws` has what holds of all pots and
//! shares.
#![tactic(auto)]

mod cutting;
pub mod laws;
mod pot_list;
mod pot_tally;
mod put;
mod reach;
mod shares;

pub use cutting::pots;
pub use pot_list::{Pot, Pots};
pub use pot_tally::PotTally;
pub use put::Put;
pub use shares::{halves, share};
