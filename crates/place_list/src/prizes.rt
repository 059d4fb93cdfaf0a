//! The prizes of the places.

ghost use Rattle.std.specs.Prelude.{◌≡◌, ◌+◌, ◌*◌, ◌<◌, ◌≤◌, ◌^◌, IfOk, sum, take, drop};
ghost use Rattle.place_list.specs.Prizes.{part_of, first_gets, prizes_of, equal_share};

use std::alloc::{AllocError, Global};

/// Gives the share in chips of money, rounded down, where `share` is in thousandths of the pool.
fn part_of(pool: u64, share: u64) -> u64
    requires pool { pool ≤ 640000000000 }
    requires share { share ≤ 1000 }
    ensures { result ≡ part_of pool share }
{
    pool * share / 1000
}

/// Gives the first place what is left, in chips of money.
fn first_gets(prizes: &mut Vec<u64>, left: u64)
    requires { sum prizes.old.items + left < 2 ^ 64 }
    ensures { prizes.new.items ≡ first_gets left prizes.old.items }
{
    if !prizes.is_empty() {
        prizes[0] += left;
    }
}

/// Gives the prizes of the places of a pool, from the first on, in chips of money.
pub(crate) fn prizes_of(
    alloc: Global,
    entries: u32,
    pool: u64,
    shares: &[u64],
) -> Result<Vec<u64>, AllocError>
    requires pool { pool ≤ 640000000000 }
    requires shares { sum shares.now ≤ 1000 }
    ensures prizes { IfOk result (λ prizes. prizes.items ≡ prizes_of entries pool shares.now) }
    ensures pool { IfOk result (λ prizes. sum prizes.items ≤ pool) }
{
    let paid = &shares[..shares.len().min(entries as usize)];
    let mut prizes = Vec::with_capacity(alloc, paid.len())?;
    let mut left = pool;
    for share in paid {
        let part = part_of(pool, *share);
        prizes.push(part)?;
        left -= part;
    }
    first_gets(&mut prizes, left);
    Ok(prizes)
}

/// Gives the sum of some prizes.
fn total(prizes: &[u64]) -> u64
    requires { sum prizes.now < 2 ^ 64 }
    ensures { result ≡ sum prizes.now }
{
    prizes.iter().sum()
}

/// Gives the prizes of so many places together, behind so many places.
pub(crate) fn prizes_together(prizes: &[u64], before: usize, count: usize) -> u64
    requires { sum prizes.now < 2 ^ 64 }
    ensures { result ≡ sum (take count (drop before prizes.now)) }
{
    let behind = &prizes[before.min(prizes.len())..];
    total(&behind[..count.min(behind.len())])
}

/// Tells what one of several players who tie gets of the prizes of their places, where so many of them entered before
/// him.
pub(crate) fn equal_share(together: u64, players: usize, before: usize) -> u64
    requires some { 1 ≤ players }
    requires fits { together < 2 ^ 63 }
    ensures { result ≡ equal_share together players before }
{
    let players = players as u64;
    let further = if (before as u64) < together % players {
        1
    } else {
        0
    };
    together / players + further
}
