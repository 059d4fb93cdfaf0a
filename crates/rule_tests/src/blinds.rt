//! The button, the blinds and who waits at a table of six.

use crate::rows::are_right;
use crate::seat_sets::set_of;
use crate::seating::are_marks;
use button_blinds::{Marks, NextMarks, SeatSet, next_big, next_marks};

/// The marks of the hand before, if there was one, the seats that are taken, the next marks and who waits.
type MarkRow = (Option<Marks>, &'static [u8], Marks, &'static [u8]);

/// Seats 1, 3 and 5, as at a first hand of three.
const FIRST: Marks = Marks {
    button: 1,
    small: 3,
    big: 5,
};

/// Two players at a first hand: seat 1 has the button and is small.
const FIRST_OF_TWO: Marks = Marks {
    button: 1,
    small: 1,
    big: 4,
};

/// The marks of three seats behind a small blind that was dead.
const DEAD_SMALL: Marks = Marks {
    button: 3,
    small: 5,
    big: 6,
};

static ROWS: [MarkRow; 9] = [
    // first hands
    (
        None,
        &[1, 3, 5],
        Marks {
            button: 1,
            small: 3,
            big: 5,
        },
        &[],
    ),
    (
        None,
        &[2, 6],
        Marks {
            button: 2,
            small: 2,
            big: 6,
        },
        &[],
    ),
    // a dead button, and a dead small blind
    (
        Some(FIRST),
        &[1, 5, 6],
        Marks {
            button: 3,
            small: 5,
            big: 6,
        },
        &[],
    ),
    (Some(FIRST), &[1, 3, 6], DEAD_SMALL, &[]),
    // after the dead small blind
    (
        Some(DEAD_SMALL),
        &[1, 3, 6],
        Marks {
            button: 5,
            small: 6,
            big: 1,
        },
        &[],
    ),
    // seat 4 waits, and two players are left
    (
        Some(FIRST),
        &[1, 3, 4, 5, 6],
        Marks {
            button: 3,
            small: 5,
            big: 6,
        },
        &[4],
    ),
    (
        Some(FIRST),
        &[3, 5],
        Marks {
            button: 5,
            small: 5,
            big: 3,
        },
        &[],
    ),
    // after a start of two
    (
        Some(FIRST_OF_TWO),
        &[1, 2, 4],
        Marks {
            button: 2,
            small: 4,
            big: 1,
        },
        &[],
    ),
    (
        Some(FIRST_OF_TWO),
        &[1, 4, 5],
        Marks {
            button: 1,
            small: 4,
            big: 5,
        },
        &[],
    ),
];

fn are_next(row: &MarkRow) -> bool {
    let (old, taken, marks, waiting) = *row;
    let occupied = set_of(6, taken);
    if occupied.count() < 2 || !are_marks(6, old) {
        return false;
    }
    let waiting = set_of(6, waiting);
    next_big(old, occupied, 6) == marks.big
        && next_marks(old, occupied, 6) == NextMarks { marks, waiting }
}

#[test]
fn the_next_marks_and_who_waits(rt: HostRuntime) {
    are_right(&rt, &ROWS, are_next);
}

#[test]
fn a_seat_is_put_in_a_set_and_taken_out(rt: HostRuntime) {
    let set = SeatSet::empty()
        .with(1)
        .with(10)
        .with(10)
        .without(1)
        .without(2);
    assert!(rt; set.count() == 1 && set.has(10) && !set.has(1));
}
