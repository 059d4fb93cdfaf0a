//! The chip race.

ghost use Rattle.std.specs.Prelude.{◌≡◌, ◌+◌, ◌<◌, ◌≤◌, ◌*◌, ◌%◌, ◌^◌, sum, true};
ghost use Rattle.chip_race.specs.Races.{are_whole, removed_value, given_value, race_result};

use crate::RaceResult;
use crate::winners::winners;
use card_set::Deck;

/// Gives the sum of what the stacks have above whole chips of the new unit.
fn removed_value(stacks: &[u64; 10], new: u64) -> u64
    requires unit { 1 ≤ new }
    requires fits { sum stacks.now < 2 ^ 53 }
    ensures { result ≡ removed_value new stacks.now }
{
    let mut removed = 0;
    for stack in stacks {
        removed += *stack % new;
    }
    removed
}

/// Gives the value that a player is given: the chip of the new unit that he has won, or the one that protects him.
fn given_value(new: u64, has_won: bool, stack: u64) -> u64
    requires unit { 1 ≤ new }
    ensures { result ≡ given_value new has_won stack }
{
    if has_won || (stack > 0 && stack < new) {
        new
    } else {
        0
    }
}

/// Races the odd chips of a table off, from its old unit to a new one. `stacks` has the stack of each seat, index 0
/// for seat 1, and 0 where nobody sits.
pub fn race(stacks: &[u64; 10], old: u64, new: u64, deck: &Deck) -> RaceResult
    requires unit { 1 ≤ old }
    requires multiple { new % old ≡ 0 }
    requires least { 2 * old ≤ new }
    requires most { new ≤ 6 * old }
    requires whole { are_whole old stacks.now ≡ true }
    requires fits { sum stacks.now < 2 ^ 53 }
    ensures { result ≡ race_result stacks.now old new deck.now }
{
    let removed = removed_value(stacks, new);
    let has_won = winners(stacks, old, new, removed / new, deck);
    let mut after = [0; 10];
    let mut added = 0;
    for index in 0..stacks.len() {
        let stack = stacks[index];
        let given = given_value(new, has_won[index], stack);
        after[index] = stack - stack % new + given;
        added += given;
    }
    RaceResult {
        stacks: after,
        removed,
        added,
    }
}
