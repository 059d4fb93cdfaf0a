//! The order of the deal.

use crate::rows::are_right;
use crate::seat_sets::set_of;
use deal_order::{board_place, hole_place};

const TWO: &[u8] = &[1, 4];

const THREE: &[u8] = &[2, 3, 9];

const TEN: &[u8] = &[1, 2, 3, 4, 5, 6, 7, 8, 9, 10];

/// Who is dealt in, the button, the seats, the hole cards of each player, a seat, one of its hole cards, and its place.
type HoleRow = (&'static [u8], u8, u8, u8, u8, u8, usize);

static HOLE_CARDS: [HoleRow; 11] = [
    // two players of hold'em
    (TWO, 1, 6, 2, 4, 0, 0),
    (TWO, 1, 6, 2, 1, 0, 1),
    (TWO, 1, 6, 2, 4, 1, 2),
    (TWO, 1, 6, 2, 1, 1, 3),
    // a dead button and four cards
    (THREE, 5, 9, 4, 9, 0, 0),
    (THREE, 5, 9, 4, 2, 0, 1),
    (THREE, 5, 9, 4, 3, 0, 2),
    (THREE, 5, 9, 4, 9, 3, 9),
    (THREE, 5, 9, 4, 3, 3, 11),
    // a table of ten takes 48 cards
    (TEN, 10, 10, 4, 1, 0, 0),
    (TEN, 10, 10, 4, 10, 3, 39),
];

fn is_dealt(row: &HoleRow) -> bool {
    let (dealt, button, seats, holes, seat, k, place) = *row;
    1 <= seats
        && seats <= 10
        && k < holes
        && hole_place(set_of(10, dealt), button, seats, holes, seat, k) == place
}

#[test]
fn hole_cards_in_turn(rt: HostRuntime) {
    are_right(&rt, &HOLE_CARDS, is_dealt);
}

/// How many players are dealt in, the hole cards of each, a card of the board, and its place.
static BOARD_CARDS: [(u8, u8, u8, usize); 8] = [
    // two players of hold'em
    (2, 2, 0, 5),
    (2, 2, 1, 6),
    (2, 2, 2, 7),
    (2, 2, 3, 9),
    (2, 2, 4, 11),
    // a dead button and four cards
    (3, 4, 0, 13),
    (3, 4, 4, 19),
    // a table of ten takes 48 cards
    (10, 4, 4, 47),
];

#[test]
fn the_board_behind_burned_cards(rt: HostRuntime) {
    are_right(&rt, &BOARD_CARDS, |(dealt, holes, i, place)| {
        board_place(*dealt, *holes, *i) == *place
    });
}
