//! Walks over the seats of a table.

ghost use Rattle.std.specs.Prelude.{◌≡◌, ◌≤◌};
ghost use Rattle.rulebook.specs.Seats.{next_occupied_after, nearest_occupied_before};
ghost use Rattle.button_blinds.specs.SeatSets.{has_seat};
ghost use Rattle.button_blinds.specs.Marks.{waiting_between};

use crate::SeatSet;
use rulebook::{seat_after, seat_before};

/// Gives the next occupied seat after this one.
pub(crate) fn next_occupied_after(occupied: SeatSet, seats: u8, seat: u8) -> u8
    requires some { 1 ≤ seats }
    requires most { seats ≤ 10 }
    ensures next { result ≡ next_occupied_after seats (has_seat occupied) seat }
    ensures first { 1 ≤ seat → 1 ≤ result }
    ensures last { seat ≤ seats → result ≤ seats }
{
    let mut next = seat;
    for _step in 0..seats {
        next = seat_after(seats, next);
        if occupied.has(next) {
            return next;
        }
    }
    seat
}

/// Gives the nearest occupied seat before this one.
pub(crate) fn nearest_occupied_before(occupied: SeatSet, seats: u8, seat: u8) -> u8
    requires some { 1 ≤ seats }
    requires most { seats ≤ 10 }
    requires first { 1 ≤ seat }
    requires last { seat ≤ seats }
    ensures next { result ≡ nearest_occupied_before seats (has_seat occupied) seat }
    ensures first { 1 ≤ result }
    ensures last { result ≤ seats }
{
    let mut next = seat;
    for _step in 0..seats {
        next = seat_before(seats, next);
        if occupied.has(next) {
            return next;
        }
    }
    seat
}

/// Gives those who sit strictly between button and small, clockwise.
pub(crate) fn waiting_between(occupied: SeatSet, seats: u8, button: u8, small: u8) -> SeatSet
    requires some { 1 ≤ seats }
    requires most { seats ≤ 10 }
    ensures { result ≡ waiting_between occupied seats button small }
{
    let mut waiting = SeatSet::empty();
    let mut seat = button;
    for _step in 0..seats {
        seat = seat_after(seats, seat);
        if seat == small {
            return waiting;
        }
        if occupied.has(seat) {
            waiting = waiting.with(seat);
        }
    }
    waiting
}
