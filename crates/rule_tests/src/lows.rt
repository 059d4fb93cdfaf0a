//! The best low hands.

use crate::rows::are_right;
use card_choices::are_distinct;
use card_set::read_cards;
use low_rank::{LowValue, best_low};
use std::cmp::Ordering;

/// Gives the best low of the cards that two texts spell, if they have one. `None` where a card comes twice.
fn low(hole: &[u8], board: &[u8]) -> Option<Option<LowValue>> {
    let hole = read_cards::<4>(hole)?;
    let board = read_cards::<5>(board)?;
    if are_distinct(&hole, &board) {
        Some(best_low(hole, board))
    } else {
        None
    }
}

/// The hole cards, the board and the ranks of the best low, none where there is none.
type LowRow = (&'static [u8], &'static [u8], &'static [u8]);

static LOWS: [LowRow; 13] = [
    (b"As2dKcKd", b"3h4s8cKhQd", &[8, 4, 3, 2, 1]),
    (b"As2sKcQc", b"3c4d5s9h9d", &[5, 4, 3, 2, 1]),
    (b"Ah2hJdTd", b"3c4d5s9h9d", &[5, 4, 3, 2, 1]),
    // counterfeited: the ace and the two lie on the board, and two hole cards are shown all the same
    (b"As2sKcQc", b"Ah2d5s6h7d", &[7, 6, 5, 2, 1]),
    // a flush and a straight do not count against it
    (b"5h6hKcQc", b"4h7h8h9h2h", &[7, 6, 5, 4, 2]),
    // the lesser of several lows
    (b"Ah3d7s8s", b"2c5d6hKhKs", &[6, 5, 3, 2, 1]),
    // the ace is low, and the best three of the board's four
    (b"AsKsQs8h", b"7c6d5h4c2d", &[8, 5, 4, 2, 1]),
    // two low cards on the board are not enough
    (b"As2dKcKd", b"3h4sTcKhQd", &[]),
    // one low hole card is not enough
    (b"AsJdKcKd", b"3h4s5c6hQd", &[]),
    // a pair, a nine
    (b"AsAdKcKd", b"3h4s5cKhQd", &[]),
    (b"As2dKcKd", b"3h4s9cKhQd", &[]),
    (b"As2dKcKd", b"3h4s4cKhQd", &[]),
    (b"As2dKcKd", b"Ah2s4cKhQd", &[]),
];

fn has_this_low(row: &LowRow) -> bool {
    match low(row.0, row.1) {
        Some(Some(low)) => low.ranks() == row.2,
        Some(None) => row.2.is_empty(),
        None => false,
    }
}

#[test]
fn lows_of_hands(rt: HostRuntime) {
    are_right(&rt, &LOWS, has_this_low);
}

/// The hole cards and the board of one hand and of another, and how the low of the first compares with the second's.
type OrderRow = (
    &'static [u8],
    &'static [u8],
    &'static [u8],
    &'static [u8],
    Ordering,
);

static ORDERS: [OrderRow; 3] = [
    // two wheels, a wheel and a seven, a seven and an eight
    (
        b"As2sKcQc",
        b"3c4d5s9h9d",
        b"Ah2hJdTd",
        b"3c4d5s9h9d",
        Ordering::Equal,
    ),
    (
        b"As2sKcQc",
        b"3c4d5s9h9d",
        b"5h6hKcQc",
        b"4h7h8h9h2h",
        Ordering::Less,
    ),
    (
        b"5h6hKcQc",
        b"4h7h8h9h2h",
        b"As2dKcKd",
        b"3h4s8cKhQd",
        Ordering::Less,
    ),
];

/// Tells whether the lows of two hands compare so.
fn are_so_ordered(row: &OrderRow) -> bool {
    match (low(row.0, row.1), low(row.2, row.3)) {
        (Some(Some(low)), Some(Some(other))) => {
            (low < other) == row.4.is_lt() && (low == other) == row.4.is_eq()
        }
        _ => false,
    }
}

#[test]
fn the_lesser_low_is_better(rt: HostRuntime) {
    are_right(&rt, &ORDERS, are_so_ordered);
}
