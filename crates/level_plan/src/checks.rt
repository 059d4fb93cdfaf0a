//! What is lawful of each item of a plan, alone.

ghost use Rattle.std.specs.Prelude.{◌≡◌, ◌<◌, ◌≤◌, ◌^◌, sum, nat_le};
ghost use Rattle.std.specs.List.{list_all};
ghost use Rattle.level_plan.specs.Items.{is_between, is_next_unit, is_blind, may_follow, is_falling, are_shares};
ghost use Rattle.level_plan.specs.Limits.{whole_pool};
ghost use Rattle.level_plan.specs.Plans.{unit_of_level};

use crate::bounds::{GREATEST_AMOUNT, MOST_SHARES, WHOLE_POOL};
use crate::plan::Blind;

/// Tells whether a number is from `low` to `high`, both included.
pub fn is_between(low: u64, high: u64, n: u64) -> bool
    ensures { result ≡ is_between low high n }
{
    low <= n && n <= high
}

/// Tells whether a new unit is the one before times one of the whole numbers 1 to 6.
pub fn is_next_unit(before: u64, unit: u64) -> bool
    ensures { result ≡ is_next_unit before unit }
{
    [1, 2, 3, 4, 5, 6]
        .iter()
        .any(|times| before.checked_mul(*times) == Some(unit))
}

/// Tells whether the blinds, the ante and the unit of a level are lawful, whatever the levels before it.
pub fn is_blind(blind: Blind) -> bool
    ensures { result ≡ is_blind blind }
{
    1 <= blind.unit
        && 1 <= blind.small
        && blind.small <= blind.big
        && blind.big <= GREATEST_AMOUNT
        && blind.small % blind.unit == 0
        && blind.big % blind.unit == 0
        && blind.ante <= GREATEST_AMOUNT
        && blind.ante % blind.unit == 0
}

/// Tells whether a level's unit may follow that of the last of the levels before it.
pub fn may_follow(blinds: &[Blind], blind: Blind) -> bool
    ensures { result ≡ may_follow blinds.now blind }
{
    match blinds.last() {
        Some(before) => is_next_unit(before.unit, blind.unit),
        None => true,
    }
}

/// Gives the unit of a level, from level 1 on; 1 where there is no such level.
pub fn unit_of_level(blinds: &[Blind], level: u64) -> u64
    requires { 1 ≤ level }
    ensures { result ≡ unit_of_level blinds.now level }
{
    blinds.get(level as usize - 1).map_or(1, |blind| blind.unit)
}

/// Tells whether no number is greater than the one before it.
fn is_falling(numbers: &[u64]) -> bool
    ensures { result ≡ is_falling numbers.now }
{
    numbers
        .iter()
        .zip(numbers.iter().skip(1))
        .all(|(before, next)| next <= before)
}

/// Tells whether each share is 1 to 1000 thousandths.
fn are_thousandths(shares: &[u64]) -> bool
    ensures { result ≡ list_all (is_between 1 whole_pool) shares.now }
{
    shares.iter().all(|share| is_between(1, WHOLE_POOL, *share))
}

/// Tells whether the shares are together at most the whole pool, 1000.
fn is_within_pool(shares: &[u64]) -> bool
    requires { sum shares.now < 2 ^ 64 }
    ensures { result ≡ nat_le (sum shares.now) whole_pool }
{
    shares.iter().sum::<u64>() <= WHOLE_POOL
}

/// Tells whether the shares are lawful: 1 to 64 of them, each 1 to 1000, none greater than the one before,
/// and together at most 1000.
pub fn are_shares(shares: &[u64]) -> bool
    ensures { result ≡ are_shares shares.now }
{
    is_between(1, MOST_SHARES as u64, shares.len() as u64)
        && are_thousandths(shares)
        && is_falling(shares)
        && is_within_pool(shares)
}
