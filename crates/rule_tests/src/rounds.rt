//! Rounds of hand-for-hand at three tables of nine.

use crate::rows::are_right_in;
use crate::seating::{BEGUN, PLAYS, RESTS, Table, book_of, has_table, set_status};
use floor_text::Refusal;
use hand_rounds::{close_round, may_begin, switch};
use seat_book::{SeatBook, TableStatus};
use std::alloc::Global;

/// What comes next in a round.
#[derive(Clone, Copy)]
enum Step {
    /// Hand-for-hand is switched on or off, and this is answered.
    Switch(bool, Result<(), Refusal>),
    /// The round is closed, and this is answered.
    Close(Result<(), Refusal>),
    /// A table stands so from now on.
    Set(u8, TableStatus),
    /// A table stands so.
    Stands(u8, TableStatus),
    /// This is answered to whether a table may begin.
    Begins(u8, Result<(), Refusal>),
    /// Hand-for-hand is on or off.
    Hands(bool),
}

/// A table that plays a hand which it has begun in the round.
const PLAYS_BEGUN: TableStatus = TableStatus {
    playing: true,
    ..BEGUN
};

/// Takes a step, and tells whether it is as it says.
fn is_so(book: &mut SeatBook, step: Step) -> bool {
    match step {
        Step::Switch(on, wanted) => switch(book, on) == wanted,
        Step::Close(wanted) => close_round(book) == wanted,
        Step::Set(table, status) => set_status(book, table, status),
        Step::Stands(table, status) => has_table(book, table) && book.status(table) == status,
        Step::Begins(table, wanted) => has_table(book, table) && may_begin(book, table) == wanted,
        Step::Hands(on) => book.hands() == on,
    }
}

/// Takes steps one after another, and tells whether each is as it says.
fn are_so(book: &mut SeatBook, steps: &[Step]) -> bool {
    for step in steps {
        if !is_so(book, *step) {
            return false;
        }
    }
    true
}

const TWO: &[u8] = &[1, 2];

const THREE: &[u8] = &[1, 2, 3];

const FIVE: &[u8] = &[1, 2, 3, 4, 5];

/// Tables, and what comes one after another.
static ROUNDS: [(&[Table], &[Step]); 2] = [
    // a round of two tables
    (
        &[(TWO, RESTS), (TWO, RESTS), (&[], RESTS)],
        &[
            Step::Switch(true, Ok(())),
            Step::Begins(1, Ok(())),
            Step::Set(1, BEGUN),
            Step::Begins(1, Err(Refusal::RoundDone)),
            Step::Begins(2, Ok(())),
            Step::Close(Err(Refusal::RoundOpen)),
            Step::Set(2, PLAYS_BEGUN),
            Step::Close(Err(Refusal::RoundOpen)),
            Step::Set(2, BEGUN),
            Step::Close(Ok(())),
            Step::Hands(true),
            Step::Stands(1, RESTS),
            Step::Begins(1, Ok(())),
            Step::Switch(true, Err(Refusal::SwitchWrong)),
        ],
    ),
    // a switch takes the tables that play
    (
        &[(TWO, RESTS), (TWO, RESTS), (TWO, RESTS)],
        &[
            Step::Switch(false, Err(Refusal::SwitchWrong)),
            Step::Close(Err(Refusal::SwitchWrong)),
            Step::Set(2, PLAYS),
            Step::Close(Err(Refusal::SwitchWrong)),
            Step::Switch(true, Ok(())),
            Step::Stands(1, RESTS),
            Step::Stands(2, PLAYS_BEGUN),
            Step::Switch(false, Err(Refusal::RoundOpen)),
            Step::Set(2, BEGUN),
            Step::Switch(false, Ok(())),
            Step::Stands(2, RESTS),
            Step::Hands(false),
            Step::Begins(2, Ok(())),
        ],
    ),
];

fn goes_so(alloc: Global, row: &(&[Table], &[Step])) -> bool {
    match book_of(alloc, 9, row.0) {
        Some(mut book) => are_so(&mut book, row.1),
        None => false,
    }
}

#[test]
fn rounds_step_by_step(rt: HostRuntime) {
    are_right_in(&rt, rt.alloc(), &ROUNDS, goes_so);
}

/// Three tables in a round, and what is answered to its close.
static ENDS: [(&[Table], Result<(), Refusal>); 7] = [
    // all have begun
    (&[(THREE, BEGUN), (THREE, BEGUN), (THREE, BEGUN)], Ok(())),
    // the last is still to play
    (
        &[(THREE, BEGUN), (THREE, BEGUN), (THREE, RESTS)],
        Err(Refusal::RoundOpen),
    ),
    // a table that is not open
    (&[(THREE, BEGUN), (THREE, BEGUN), (&[], RESTS)], Ok(())),
    // a lone player
    (&[(THREE, BEGUN), (THREE, BEGUN), (&[1], RESTS)], Ok(())),
    // a halted table
    (&[(FIVE, BEGUN), (FIVE, BEGUN), (TWO, RESTS)], Ok(())),
    // a table that is short, and not halted
    (
        &[(FIVE, BEGUN), (FIVE, BEGUN), (THREE, RESTS)],
        Err(Refusal::RoundOpen),
    ),
    // no table is open
    (&[(&[], RESTS), (&[], RESTS), (&[], RESTS)], Ok(())),
];

fn ends_so(alloc: Global, row: &(&[Table], Result<(), Refusal>)) -> bool {
    match book_of(alloc, 9, row.0) {
        Some(mut book) => {
            book.set_hands(true);
            close_round(&mut book) == row.1
        }
        None => false,
    }
}

#[test]
fn a_round_waits_for_each_table_that_may_play(rt: HostRuntime) {
    are_right_in(&rt, rt.alloc(), &ENDS, ends_so);
}
