//! Betting by fixed limit.
//!
//! It stands on betting_round. `FixedLimit` is the third `Bounds`: the bet of a street, the most wagers that it may
//! have, and those that it has had. `bet_of` gives the bet of a street. By `the_level_is_bounded` nobody puts in more
//! on a street than the cap and five bets.
#![tactic(auto)]

mod fixed_limit;
mod laws;

pub use fixed_limit::{FixedLimit, bet_of, wagers_of};
pub use laws::the_level_is_bounded;
