//! The pots of what the players have put in.

ghost use Rattle.std.specs.Prelude.{◌≡◌, ◌+◌, ◌%◌, ◌<◌, ◌^◌, ℕ, true};
ghost use Rattle.pot_layers.specs.Layers.{layers, is_contested};
ghost use Rattle.pot_layers.specs.PotTests.{total_of, live_seats, are_for, have_somebody, are_whole_pots, are_whole_puts};
ghost use Rattle.pot_layers.specs.Tallies.{total_put};

use crate::{PotTally, Pots, Put};

/// Gives the pots of what the players have put in during the whole hand, the main pot first: index 0 is seat 1. A live
/// player has put in chips. The dead chips, which no player put in for himself, are in the main pot.
pub fn pots(puts: &[Put; 10], dead: u64) -> Pots
    requires contested { is_contested puts.now ≡ true }
    requires fits { total_put puts.now + dead < 2 ^ 53 }
    ensures pots { result ≡ layers puts.now dead }
    ensures sum { total_of result ≡ total_put puts.now + dead }
    ensures live { are_for (live_seats puts.now) result ≡ true }
    ensures somebody { have_somebody result ≡ true }
    ensures units { (unit : ℕ) → are_whole_puts unit puts.now ≡ true → dead % unit ≡ 0
        → are_whole_pots unit result ≡ true }
{
    let mut tally = PotTally::of(puts);
    tally.add_dead(dead);
    tally.pots()
}
