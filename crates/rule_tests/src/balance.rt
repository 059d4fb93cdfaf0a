//! Halted tables, worst seats, and moves that balance tables.

use crate::rows::are_right_in;
use crate::seating::{RESTS, Table, book_of, has_table};
use balance_rule::{Move, balance_order, halted, worst_seat};
use button_blinds::Marks;
use floor_text::Refusal;
use seat_book::{Place, SeatBook, TableStatus};
use std::alloc::Global;

/// A button, a small blind and a big blind.
type MarkRow = (u8, u8, u8);

/// Gives how a table stands that has had a hand with these marks, if any.
fn after(marks: Option<MarkRow>) -> TableStatus {
    let marks = match marks {
        Some((button, small, big)) => Some(Marks { button, small, big }),
        None => None,
    };
    TableStatus { marks, ..RESTS }
}

/// How many seats a table has, which of them are taken, the marks of its last hand, if it had one, and the worst seat.
type WorstRow = (u8, &'static [u8], Option<MarkRow>, u8);

static WORST_SEATS: [WorstRow; 10] = [
    // the big mark's own is left out
    (9, &[1, 2, 3, 4, 6, 7, 9], Some((3, 4, 5)), 8),
    // the next after the big mark
    (9, &[1, 2, 3, 4, 6, 7, 9], Some((5, 6, 7)), 8),
    // seat 1 follows the last
    (9, &[1, 2, 3, 4, 6, 7, 9], Some((6, 7, 9)), 5),
    // no hand yet: the lowest
    (9, &[1, 2, 3, 4, 6, 7, 9], None, 5),
    // an empty big mark
    (9, &[1, 2, 3, 4, 5, 6, 7], Some((5, 7, 8)), 9),
    // an empty big mark at the end
    (9, &[1, 2, 3, 4, 5, 6, 7], Some((7, 8, 9)), 8),
    // ten seats
    (10, &[2, 3, 4, 5, 6, 7, 8], Some((6, 7, 8)), 9),
    // ten seats, round the end
    (10, &[2, 3, 4, 5, 6, 7, 8], Some((7, 8, 10)), 1),
    // two seats and no hand
    (2, &[], None, 1),
    // two seats after a hand
    (2, &[], Some((2, 2, 1)), 2),
];

fn is_worst(alloc: Global, row: &WorstRow) -> bool {
    let (seats, taken, marks, seat) = *row;
    match book_of(alloc, seats, &[(taken, after(marks))]) {
        Some(book) => worst_of(&book) == Some(seat),
        None => false,
    }
}

/// Gives the worst seat of the first table.
fn worst_of(book: &SeatBook) -> Option<u8> {
    let seats = book.seat_count();
    if has_table(book, 1) && book.count(1) + 2 <= seats {
        Some(worst_seat(book, 1))
    } else {
        None
    }
}

#[test]
fn the_worst_seat_is_the_first_empty_one_after_the_big_mark(rt: HostRuntime) {
    are_right_in(&rt, rt.alloc(), &WORST_SEATS, is_worst);
}

/// How many seats each of two tables has, how many players sit at the first and at the second, and whether the second
/// is halted.
static GAPS: [(u8, u8, u8, bool); 8] = [
    (10, 10, 7, true),
    (10, 10, 8, false),
    (9, 5, 2, true),
    (7, 7, 4, true),
    (7, 7, 5, false),
    (6, 6, 4, true),
    (6, 6, 5, false),
    (2, 2, 1, false),
];

/// Gives so many of the lowest seats.
fn lowest(count: u8) -> &'static [u8] {
    let seats: &'static [u8] = &[1, 2, 3, 4, 5, 6, 7, 8, 9, 10];
    &seats[..usize::from(count.min(10))]
}

/// Tells whether the first of two tables is not halted, and the second is or is not.
fn is_second_halted(book: &SeatBook, is: bool) -> bool {
    has_table(book, 1) && has_table(book, 2) && !halted(book, 1) && halted(book, 2) == is
}

fn is_halted(alloc: Global, row: &(u8, u8, u8, bool)) -> bool {
    let (seats, first, second, is) = *row;
    match book_of(
        alloc,
        seats,
        &[(lowest(first), RESTS), (lowest(second), RESTS)],
    ) {
        Some(book) => is_second_halted(&book, is),
        None => false,
    }
}

#[test]
fn a_table_is_halted_by_the_gap(rt: HostRuntime) {
    are_right_in(&rt, rt.alloc(), &GAPS, is_halted);
}

/// Tables of so many seats, two of them, and the move that balances these: the table and the seat that it is from, and
/// those that it is to.
type MoveRow = (
    u8,
    &'static [Table],
    u8,
    u8,
    Result<(u8, u8, u8, u8), Refusal>,
);

/// A table after a hand with these marks.
const AFTER: TableStatus = TableStatus {
    marks: Some(Marks {
        button: 7,
        small: 8,
        big: 9,
    }),
    ..RESTS
};

/// A table after a hand with other marks.
const AFTER_ANOTHER: TableStatus = TableStatus {
    marks: Some(Marks {
        button: 3,
        small: 4,
        big: 5,
    }),
    ..RESTS
};

/// Four tables, of which the last is not open.
const FOUR: &[Table] = &[
    (&[1, 2, 3, 4, 5], RESTS),
    (&[1, 2, 3], RESTS),
    (&[7, 9], RESTS),
    (&[], RESTS),
];

static MOVES: [MoveRow; 8] = [
    // the next big blind moves to the worst seat
    (
        9,
        &[
            (&[1, 2, 3, 4, 5, 6, 7, 8, 9], AFTER),
            (&[1, 2, 3, 4, 6, 7, 9], AFTER_ANOTHER),
        ],
        1,
        2,
        Ok((1, 1, 2, 8)),
    ),
    (
        9,
        &[
            (&[1, 2, 3, 4, 5, 6, 7, 8, 9], AFTER),
            (&[1, 2, 3, 4, 6, 7, 9, 8], AFTER_ANOTHER),
        ],
        1,
        2,
        Err(Refusal::EvenEnough),
    ),
    // tables that had no hand
    (
        6,
        &[(&[2, 4, 5], RESTS), (&[], RESTS), (&[1], RESTS)],
        1,
        3,
        Ok((1, 5, 3, 2)),
    ),
    // the first check that holds
    (10, FOUR, 2, 3, Err(Refusal::NotFullest)),
    (10, FOUR, 3, 2, Err(Refusal::NotFullest)),
    (10, FOUR, 1, 2, Err(Refusal::NotShortest)),
    (10, FOUR, 1, 1, Err(Refusal::NotShortest)),
    (10, FOUR, 1, 3, Ok((1, 3, 3, 1))),
];

/// Gives the move of the player in one place to another.
fn from_to(table: u8, seat: u8, to_table: u8, to_seat: u8) -> Move {
    Move {
        player: u32::from(table) * 10 + u32::from(seat),
        from: Place { table, seat },
        to: Place {
            table: to_table,
            seat: to_seat,
        },
    }
}

/// Gives the move of a balance of two tables, if they are open.
fn move_of(book: &SeatBook, from: u8, to: u8) -> Option<Result<Move, Refusal>> {
    if has_table(book, from) && has_table(book, to) && book.count(from) > 0 && book.count(to) > 0 {
        Some(balance_order(book, from, to))
    } else {
        None
    }
}

/// Tells whether a move is as wanted: from a table and a seat to others.
fn is_move(
    found: Option<Result<Move, Refusal>>,
    wanted: Result<(u8, u8, u8, u8), Refusal>,
) -> bool {
    match (found, wanted) {
        (Some(Ok(found)), Ok((table, seat, to_table, to_seat))) => {
            found == from_to(table, seat, to_table, to_seat)
        }
        (Some(Err(found)), Err(wanted)) => found == wanted,
        _ => false,
    }
}

fn is_moved(alloc: Global, row: &MoveRow) -> bool {
    let (seats, tables, from, to, wanted) = *row;
    match book_of(alloc, seats, tables) {
        Some(book) => is_move(move_of(&book, from, to), wanted),
        None => false,
    }
}

#[test]
fn moves_that_balance_tables(rt: HostRuntime) {
    are_right_in(&rt, rt.alloc(), &MOVES, is_moved);
}
