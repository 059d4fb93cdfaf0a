//! The best high hands: their values, which of two is the better, and what a plain walk finds.

use crate::rows::are_right;
use card_choices::are_distinct;
use card_set::read_cards;
use hand_rank::{Category, HighValue, best_holdem, best_omaha};
use std::cmp::Ordering;

/// Gives the best value in hold'em of the cards that two texts spell. `None` where a card comes twice.
fn holdem(hole: &[u8], board: &[u8]) -> Option<HighValue> {
    let hole = read_cards::<2>(hole)?;
    let board = read_cards::<5>(board)?;
    if are_distinct(&hole, &board) {
        Some(best_holdem(hole, board))
    } else {
        None
    }
}

/// Gives the best value in Omaha of the cards that two texts spell. `None` where a card comes twice.
fn omaha(hole: &[u8], board: &[u8]) -> Option<HighValue> {
    let hole = read_cards::<4>(hole)?;
    let board = read_cards::<5>(board)?;
    if are_distinct(&hole, &board) {
        Some(best_omaha(hole, board))
    } else {
        None
    }
}

/// The hole cards, two in hold'em and four in Omaha, the board, the category of their value, and the ranks behind it.
type ValueRow = (&'static [u8], &'static [u8], Category, &'static [u8]);

static VALUES: [ValueRow; 27] = [
    (b"AhKh", b"QhJhTh2c3d", Category::StraightFlush, &[14]),
    (b"2c3d", b"AhKhQhJhTh", Category::StraightFlush, &[14]),
    (b"Ah2h", b"3h4h5hKcKd", Category::StraightFlush, &[5]),
    (b"9c9d", b"9h9sKcQdJh", Category::FourOfAKind, &[9, 13]),
    (b"AcKd", b"9c9d9h9sQc", Category::FourOfAKind, &[9, 14]),
    (b"9c9d", b"9hKcKd3h2s", Category::FullHouse, &[9, 13]),
    (b"9c9d", b"9hKcKdKh2s", Category::FullHouse, &[13, 9]),
    (b"9c9d", b"9hKcKdQhQs", Category::FullHouse, &[9, 13]),
    (b"Ah9h", b"7h5h3hKcKd", Category::Flush, &[14, 9, 7, 5, 3]),
    (b"AhKh", b"9h7h5h3h2c", Category::Flush, &[14, 13, 9, 7, 5]),
    (b"AcTd", b"KcQdJh3h2s", Category::Straight, &[14]),
    (b"Ah2d", b"3c4s5hKdKc", Category::Straight, &[5]),
    (b"6h2c", b"3c4s5hKdKc", Category::Straight, &[6]),
    (b"9c9d", b"9hKcQd3h2s", Category::ThreeOfAKind, &[9, 13, 12]),
    (b"9c9d", b"KcKd3h3sQs", Category::TwoPair, &[13, 9, 12]),
    (b"9c9d", b"KcQd5h3h2s", Category::OnePair, &[9, 13, 12, 5]),
    (b"2c2d", b"AhKhQh9h3s", Category::OnePair, &[2, 14, 13, 12]),
    (
        b"Ac9d",
        b"KcQd5h3h2s",
        Category::HighCard,
        &[14, 13, 12, 9, 5],
    ),
    (
        b"AcKd",
        b"QcJd2h3s4h",
        Category::HighCard,
        &[14, 13, 12, 11, 4],
    ),
    // one heart in the hand is no flush
    (
        b"AhKsQc2d",
        b"3h7h9hJh4c",
        Category::HighCard,
        &[14, 13, 11, 9, 7],
    ),
    // two are
    (
        b"AhKs2h2d",
        b"3h7h9hJh4c",
        Category::Flush,
        &[14, 11, 9, 7, 2],
    ),
    // four of the board are not shown together
    (
        b"AcKdQd2s",
        b"9c9d9h9sQc",
        Category::ThreeOfAKind,
        &[9, 14, 13],
    ),
    // neither are three of the hand
    (
        b"9c9dKhKs",
        b"9hKc2d3s4h",
        Category::ThreeOfAKind,
        &[13, 9, 4],
    ),
    (b"9c9dKhKs", b"9h9sKc2d3s", Category::FourOfAKind, &[9, 13]),
    (b"AcAd8h7s", b"6c5d9hAsAh", Category::FourOfAKind, &[14, 9]),
    (b"Ah2d8c8s", b"3c4s5hKdKc", Category::Straight, &[5]),
    (b"8h8s2c3d", b"8cKdKhQsJs", Category::FullHouse, &[8, 13]),
];

fn is_of_value(row: &ValueRow) -> bool {
    let (hole, board, category, ranks) = *row;
    let value = if hole.len() == 4 {
        holdem(hole, board)
    } else {
        omaha(hole, board)
    };
    let Some(value) = value else {
        return false;
    };
    match value.numbers().as_slice() {
        [first, behind @ ..] => *first == category.number() && behind == ranks,
        [] => false,
    }
}

#[test]
fn hands_have_these_values(rt: HostRuntime) {
    are_right(&rt, &VALUES, is_of_value);
}

/// The hole cards and the board of one hand and of another, and how the first compares with the second.
type OrderRow = (
    &'static [u8],
    &'static [u8],
    &'static [u8],
    &'static [u8],
    Ordering,
);

/// From a straight flush down to a high card: the best of a category, its least, and so on.
static CATEGORIES: [OrderRow; 17] = [
    (
        b"AhKh",
        b"QhJhTh2c3d",
        b"Ah2h",
        b"3h4h5hKcKd",
        Ordering::Greater,
    ),
    (
        b"Ah2h",
        b"3h4h5hKcKd",
        b"AcAd",
        b"AhAsKcQdJh",
        Ordering::Greater,
    ),
    (
        b"AcAd",
        b"AhAsKcQdJh",
        b"2c2d",
        b"2h2s3c4d6h",
        Ordering::Greater,
    ),
    (
        b"2c2d",
        b"2h2s3c4d6h",
        b"AcAd",
        b"AhKcKd3h2s",
        Ordering::Greater,
    ),
    (
        b"AcAd",
        b"AhKcKd3h2s",
        b"2c2d",
        b"2h3c3d9hKs",
        Ordering::Greater,
    ),
    (
        b"2c2d",
        b"2h3c3d9hKs",
        b"AhKh",
        b"QhJh9h3c2c",
        Ordering::Greater,
    ),
    (
        b"AhKh",
        b"QhJh9h3c2c",
        b"2h3h",
        b"4h5h7hKcKd",
        Ordering::Greater,
    ),
    (
        b"2h3h",
        b"4h5h7hKcKd",
        b"AcTd",
        b"KcQdJh3h2s",
        Ordering::Greater,
    ),
    (
        b"AcTd",
        b"KcQdJh3h2s",
        b"Ac2d",
        b"3c4s5hKdKc",
        Ordering::Greater,
    ),
    (
        b"Ac2d",
        b"3c4s5hKdKc",
        b"AcAd",
        b"AhKcQd3h2s",
        Ordering::Greater,
    ),
    (
        b"AcAd",
        b"AhKcQd3h2s",
        b"2c2d",
        b"2h3c5d7h8s",
        Ordering::Greater,
    ),
    (
        b"2c2d",
        b"2h3c5d7h8s",
        b"AcAd",
        b"KcKd3h2sQs",
        Ordering::Greater,
    ),
    (
        b"AcAd",
        b"KcKd3h2sQs",
        b"2c2d",
        b"3h3s4h6s8d",
        Ordering::Greater,
    ),
    (
        b"2c2d",
        b"3h3s4h6s8d",
        b"AcAd",
        b"KcQd5h3h2s",
        Ordering::Greater,
    ),
    (
        b"AcAd",
        b"KcQd5h3h2s",
        b"2c2d",
        b"3h4s6d7h9s",
        Ordering::Greater,
    ),
    (
        b"2c2d",
        b"3h4s6d7h9s",
        b"AcKd",
        b"QcJd9h3s2h",
        Ordering::Greater,
    ),
    (
        b"AcKd",
        b"QcJd9h3s2h",
        b"2c3d",
        b"4h5s7d8h9s",
        Ordering::Greater,
    ),
];

static KICKERS: [OrderRow; 8] = [
    (
        b"AcKd",
        b"As9c7d5h2h",
        b"AhQd",
        b"As9c7d5h2h",
        Ordering::Greater,
    ),
    (
        b"Kc9d",
        b"KsKd7c5h2h",
        b"Kh8d",
        b"KsKd7c5h2h",
        Ordering::Greater,
    ),
    (
        b"Ac2d",
        b"QcQd9h9s3h",
        b"Kc2s",
        b"QcQd9h9s3h",
        Ordering::Greater,
    ),
    (
        b"Ah2c",
        b"Qh9h7h5h2s",
        b"Kh3c",
        b"Qh9h7h5h2s",
        Ordering::Greater,
    ),
    (
        b"Ac3d",
        b"AsKcQdJh9h",
        b"Ah4d",
        b"AsKcQdJh9h",
        Ordering::Equal,
    ),
    (
        b"2c3d",
        b"AhKhQhJhTh",
        b"4c5d",
        b"AhKhQhJhTh",
        Ordering::Equal,
    ),
    (
        b"3c3d",
        b"KsKdQcQhAh",
        b"4c4d",
        b"KsKdQcQhAh",
        Ordering::Equal,
    ),
    (
        b"Ac2d",
        b"9h7s6c4h3s",
        b"Ad2c",
        b"9h7s6c4h3s",
        Ordering::Equal,
    ),
];

/// Tells whether two hands of hold'em compare so.
fn is_so_ordered(row: &OrderRow) -> bool {
    let (hole, board, other_hole, other_board, wanted) = *row;
    match (holdem(hole, board), holdem(other_hole, other_board)) {
        (Some(value), Some(other)) => {
            (value > other) == wanted.is_gt() && (value == other) == wanted.is_eq()
        }
        _ => false,
    }
}

#[test]
fn each_category_beats_the_next_lower_one(rt: HostRuntime) {
    are_right(&rt, &CATEGORIES, is_so_ordered);
}

#[test]
fn kickers_count_and_suits_do_not(rt: HostRuntime) {
    are_right(&rt, &KICKERS, is_so_ordered);
}
