//! Sets of seats of one table.

ghost use Rattle.std.specs.Prelude.{◌≡◌, ◌≤◌, ℕ, false, IsTrue};
ghost use Rattle.button_blinds.specs.SeatSets.{no_seats, has_seat, with_seat, without_seat, seat_count, AreSeatsOf};

use std::marker::Model;

/// The most seats that a table has.
const MOST_SEATS: usize = 10;

/// A set of seats of one table, of the seats 1 to 10. Contracts see it as ten tests: whether seat 1 is in it,
/// seat 2, and so on.
#[derive(Clone, Copy, PartialEq, Eq)]
pub struct SeatSet {
    is_in: [bool; 10],
}

impl Model for SeatSet {
    ghost use Rattle.std.specs.Prelude.{List, Bool};

    ghost Value = { List Bool };

    ghost view = { λ set. set.is_in };

    ghost inverse = { λ tests. record { is_in = tests } };
}

impl SeatSet {
    /// Makes the set with no seat.
    pub fn empty() -> SeatSet
        ensures same { result ≡ no_seats }
        ensures table { (seats : ℕ) → AreSeatsOf seats result }
    {
        SeatSet {
            is_in: [false; MOST_SEATS],
        }
    }

    /// Gives the set with this seat in it.
    pub fn with(self, seat: u8) -> SeatSet
        requires first { 1 ≤ seat }
        requires last { seat ≤ 10 }
        ensures same { result ≡ with_seat self seat }
        ensures there { IsTrue (has_seat result seat) }
        ensures table { (seats : ℕ) → AreSeatsOf seats self → seat ≤ seats → AreSeatsOf seats result }
    {
        let mut is_in = self.is_in;
        is_in[seat as usize - 1] = true;
        SeatSet { is_in }
    }

    /// Gives the set without this seat.
    pub fn without(self, seat: u8) -> SeatSet
        requires first { 1 ≤ seat }
        requires last { seat ≤ 10 }
        ensures same { result ≡ without_seat self seat }
        ensures gone { has_seat result seat ≡ false }
        ensures table { (seats : ℕ) → AreSeatsOf seats self → AreSeatsOf seats result }
    {
        let mut is_in = self.is_in;
        is_in[seat as usize - 1] = false;
        SeatSet { is_in }
    }

    /// Tells whether this seat is in the set.
    pub fn has(self, seat: u8) -> bool
        requires first { 1 ≤ seat }
        requires last { seat ≤ 10 }
        ensures { result ≡ has_seat self seat }
    {
        self.is_in[seat as usize - 1]
    }

    /// Tells how many seats are in the set.
    pub fn count(self) -> u8
        ensures count { result ≡ seat_count self }
        ensures most { result ≤ 10 }
    {
        let mut count = 0;
        for is_in in self.is_in {
            if is_in {
                count += 1;
            }
        }
        count
    }
}
