//! Chip races.

ghost use Rattle.std.specs.Prelude.{◌≡◌, ◌<◌, ◌≤◌, ◌^◌, sum, true};
ghost use Rattle.chip_race.specs.Races.{are_whole};

use crate::rows::are_right;
use card_set::{Deck, read_row};
use chip_race::{RaceResult, race};

/// The cards in order, from the twos to the aces.
const IN_ORDER: &[u8; 104] =
    b"2c2d2h2s3c3d3h3s4c4d4h4s5c5d5h5s6c6d6h6s7c7d7h7s8c8d8h8s9c9d9h9sTcTdThTsJcJdJhJsQcQdQhQsKcKdKhKsAcAdAhAs";

/// The same with the aces in front, from spades to clubs.
const ACES_FIRST: &[u8; 104] =
    b"AsAhAdAc2c2d2h2s3c3d3h3s4c4d4h4s5c5d5h5s6c6d6h6s7c7d7h7s8c8d8h8s9c9d9h9sTcTdThTsJcJdJhJsQcQdQhQsKcKdKhKs";

/// A race: the deck, the old unit and the new one, the stacks by seat, what they are afterwards, and the value of the
/// chips that are taken off the table and put on it.
type RaceRow = (&'static [u8; 104], u8, u16, [u32; 10], [u64; 10], u64, u64);

static RACES: [RaceRow; 9] = [
    // the highest card wins, and nobody is raced out
    (
        IN_ORDER,
        25,
        100,
        [1025, 50, 3075, 0, 0, 0, 0, 0, 0, 0],
        [1000, 100, 3100, 0, 0, 0, 0, 0, 0, 0],
        150,
        200,
    ),
    // of the same rank spades win
    (
        IN_ORDER,
        25,
        100,
        [1025, 1025, 1025, 0, 0, 0, 0, 0, 0, 1025],
        [1000, 1000, 1000, 0, 0, 0, 0, 0, 0, 1100],
        100,
        100,
    ),
    (
        ACES_FIRST,
        25,
        100,
        [1025, 1025, 1025, 0, 0, 0, 0, 0, 0, 1025],
        [1100, 1000, 1000, 0, 0, 0, 0, 0, 0, 1000],
        100,
        100,
    ),
    // who has nothing but odd chips wins one chip
    (
        ACES_FIRST,
        25,
        100,
        [75, 1025, 0, 0, 0, 0, 0, 0, 0, 0],
        [100, 1000, 0, 0, 0, 0, 0, 0, 0, 0],
        100,
        100,
    ),
    // nobody has an odd chip
    (
        IN_ORDER,
        25,
        100,
        [1000, 100, 0, 0, 0, 0, 0, 0, 0, 2000],
        [1000, 100, 0, 0, 0, 0, 0, 0, 0, 2000],
        0,
        0,
    ),
    // all chips go to the protected
    (
        IN_ORDER,
        25,
        100,
        [25, 0, 50, 0, 0, 0, 0, 0, 0, 0],
        [100, 0, 100, 0, 0, 0, 0, 0, 0, 0],
        75,
        200,
    ),
    // each player wins one chip at most
    (
        ACES_FIRST,
        25,
        100,
        [1075, 1075, 1050, 0, 0, 0, 0, 0, 0, 0],
        [1100, 1100, 1000, 0, 0, 0, 0, 0, 0, 0],
        200,
        200,
    ),
    // what is left over wins no chip
    (
        IN_ORDER,
        25,
        100,
        [1075, 1075, 0, 0, 0, 0, 0, 0, 0, 1025],
        [1000, 1000, 0, 0, 0, 0, 0, 0, 0, 1100],
        175,
        100,
    ),
    // ten players with five odd chips each
    (
        IN_ORDER,
        100,
        600,
        [1100; 10],
        [600, 600, 1200, 1200, 1200, 1200, 1200, 1200, 1200, 1200],
        5000,
        4800,
    ),
];

/// Tells whether stacks are whole chips of a unit.
fn are_whole(unit: u64, stacks: &[u64; 10]) -> bool
    requires { 1 ≤ unit }
    ensures { result ≡ are_whole unit stacks.now }
{
    stacks.iter().all(|stack| *stack % unit == 0)
}

/// Gives the stacks of a row.
fn stacks_of(row: &[u32; 10]) -> [u64; 10]
    ensures { sum result < 2 ^ 53 }
{
    let [a, b, c, d, e, f, g, h, i, j] = *row;
    [
        u64::from(a),
        u64::from(b),
        u64::from(c),
        u64::from(d),
        u64::from(e),
        u64::from(f),
        u64::from(g),
        u64::from(h),
        u64::from(i),
        u64::from(j),
    ]
}

fn is_raced(row: &RaceRow) -> bool {
    let (cards, old, new, stacks, after, removed, added) = *row;
    let (old, new) = (u64::from(old), u64::from(new));
    let stacks = stacks_of(&stacks);
    let Some(row) = read_row(cards) else {
        return false;
    };
    let Some(deck) = Deck::of_row(&row) else {
        return false;
    };
    if old == 0 || new % old != 0 || new < 2 * old || 6 * old < new || !are_whole(old, &stacks) {
        return false;
    }
    let raced = RaceResult {
        stacks: after,
        removed,
        added,
    };
    race(&stacks, old, new, &deck) == raced
}

#[test]
fn odd_chips_are_raced_off(rt: HostRuntime) {
    are_right(&rt, &RACES, is_raced);
}
