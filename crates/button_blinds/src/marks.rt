//! The button and the blinds of the next hand.

ghost use Rattle.std.specs.Prelude.{◌≡◌, ◌≢◌, ◌≤◌, ◌+◌, ℕ, false, IsTrue};
ghost use Rattle.std.specs.Option.{ForSome};
ghost use Rattle.button_blinds.specs.SeatSets.{no_seats, seat_count, has_seat, AreSeatsOf};
ghost use Rattle.button_blinds.specs.Marks.{AreMarksOf, first_marks, big_after, heads_up_marks, moved_marks, marks_after};

use crate::SeatSet;
use crate::walks::{nearest_occupied_before, next_occupied_after, waiting_between};

/// The seats that have the button, the small and the big blind.
#[derive(Clone, Copy, PartialEq, Eq)]
pub struct Marks {
    pub button: u8,
    pub small: u8,
    pub big: u8,
}

/// The marks of the next hand, and the players who sit there and wait.
#[derive(Clone, Copy, PartialEq, Eq)]
pub struct NextMarks {
    pub marks: Marks,
    pub waiting: SeatSet,
}

fn first_marks(occupied: SeatSet, seats: u8) -> Marks
    requires some { 1 ≤ seats }
    requires most { seats ≤ 10 }
    ensures marks { result ≡ first_marks occupied seats }
    ensures within { AreMarksOf seats result }
{
    let button = next_occupied_after(occupied, seats, seats);
    let small = if occupied.count() == 2 {
        button
    } else {
        next_occupied_after(occupied, seats, button)
    };
    Marks {
        button,
        small,
        big: next_occupied_after(occupied, seats, small),
    }
}

fn heads_up_marks(occupied: SeatSet, seats: u8, big: u8) -> Marks
    requires some { 1 ≤ seats }
    requires most { seats ≤ 10 }
    requires first { 1 ≤ big }
    requires last { big ≤ seats }
    ensures marks { result ≡ heads_up_marks occupied seats big }
    ensures within { AreMarksOf seats result }
{
    let small = next_occupied_after(occupied, seats, big);
    Marks {
        button: small,
        small,
        big,
    }
}

fn moved_marks(old: Marks, occupied: SeatSet, seats: u8, big: u8) -> NextMarks
    requires some { 1 ≤ seats }
    requires most { seats ≤ 10 }
    requires old { AreMarksOf seats old }
    requires first { 1 ≤ big }
    requires last { big ≤ seats }
    ensures marks { result ≡ moved_marks old occupied seats big }
    ensures within { AreMarksOf seats result.marks }
    ensures big { result.marks.big ≡ big }
    ensures waiting_sit { (seat : ℕ) → IsTrue (has_seat result.waiting seat) → IsTrue (has_seat occupied seat) }
{
    let small = old.big;
    let waiting = waiting_between(occupied, seats, old.small, small);
    if occupied.count() < waiting.count() + 3 {
        let button = nearest_occupied_before(occupied, seats, small);
        return NextMarks {
            marks: Marks { button, small, big },
            waiting: SeatSet::empty(),
        };
    }
    let button = old.small;
    NextMarks {
        marks: Marks { button, small, big },
        waiting,
    }
}

/// Gives the big blind of the next hand: that of `next_marks`.
pub fn next_big(old: Option<Marks>, occupied: SeatSet, seats: u8) -> u8
    requires players { 2 ≤ seat_count occupied }
    requires table { AreSeatsOf seats occupied }
    requires some { 2 ≤ seats }
    requires most { seats ≤ 10 }
    requires old { ForSome old (AreMarksOf seats) }
    ensures same { result ≡ (marks_after old occupied seats).marks.big }
    ensures big { result ≡ big_after old occupied seats }
    ensures sits { IsTrue (has_seat occupied result) }
    ensures first { 1 ≤ result }
    ensures last { result ≤ seats }
{
    match old {
        None => first_marks(occupied, seats).big,
        Some(old) => next_occupied_after(occupied, seats, old.big),
    }
}

/// Gives the marks of the next hand and who waits, by the marks of the hand before, if there was one, by the seats
/// where somebody sits, and by the number of seats.
pub fn next_marks(old: Option<Marks>, occupied: SeatSet, seats: u8) -> NextMarks
    requires players { 2 ≤ seat_count occupied }
    requires table { AreSeatsOf seats occupied }
    requires some { 2 ≤ seats }
    requires most { seats ≤ 10 }
    requires old { ForSome old (AreMarksOf seats) }
    ensures marks { result ≡ marks_after old occupied seats }
    ensures within { AreMarksOf seats result.marks }
    ensures big_sits { IsTrue (has_seat occupied result.marks.big) }
    ensures waiting_sit { (seat : ℕ) → IsTrue (has_seat result.waiting seat) → IsTrue (has_seat occupied seat) }
    ensures two_play { seat_count result.waiting + 2 ≤ seat_count occupied }
    ensures big_plays { has_seat result.waiting result.marks.big ≡ false }
    ensures apart { result.marks.small ≢ result.marks.big }
{
    let Some(old) = old else {
        return NextMarks {
            marks: first_marks(occupied, seats),
            waiting: SeatSet::empty(),
        };
    };
    let big = next_occupied_after(occupied, seats, old.big);
    if occupied.count() == 2 {
        return NextMarks {
            marks: heads_up_marks(occupied, seats, big),
            waiting: SeatSet::empty(),
        };
    }
    moved_marks(old, occupied, seats, big)
}
