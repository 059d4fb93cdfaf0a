//! The order in which players who are out are placed.

ghost use Rattle.std.specs.Prelude.{◌≡◌, ◌==◌, true, map, IfOk};
ghost use Rattle.std.specs.Ordering.{is_lt};
ghost use Rattle.std.specs.List.Sorted.{IsPermutation};
ghost use Rattle.rulebook.specs.Pairs.{are_distinct};
ghost use Rattle.place_list.specs.Places.{ties};
ghost use Rattle.place_list.specs.Orders.{is_placed_before, Placed};

use crate::Bust;
use std::alloc::{AllocError, Global};
use std::cmp::Ordering;

/// Tells whether two players tie: they are in the same group with equal stacks.
pub(crate) fn ties(one: &Bust, other: &Bust) -> bool
    ensures { result ≡ ties one.now other.now }
{
    one.group == other.group && one.stack == other.stack
}

/// Compares by place, and of the same place by entry: the later group, the greater stack and the earlier entry come
/// first.
fn compare(one: &Bust, other: &Bust) -> Ordering
    ensures { is_lt result ≡ is_placed_before one.now other.now }
{
    other
        .group
        .cmp(&one.group)
        .then(other.stack.cmp(&one.stack))
        .then(one.player.cmp(&other.player))
}

/// Gives the players in the order of their places, and of the same place in that of their entries.
pub(crate) fn in_order(alloc: Global, busts: &[Bust]) -> Result<Vec<Bust>, AllocError>
    requires { are_distinct (λ one other. one == other) (map (λ bust. bust.player) busts.now) ≡ true }
    ensures same { IfOk result (λ sorted. IsPermutation busts.now sorted.items) }
    ensures order { IfOk result (λ sorted. Placed sorted.items) }
{
    let mut sorted = Vec::from_slice(alloc, busts)?;
    sorted.sort_by(compare)?;
    Ok(sorted)
}
