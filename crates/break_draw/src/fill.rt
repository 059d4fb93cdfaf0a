//! Seats to fill, without memory of the heap.

ghost use Rattle.std.specs.Prelude.{◌≡◌, ◌<◌, [], ◌∷◌, ◌++◌, length};

use seat_book::Place;
use std::marker::Model;

/// The most seats of a table.
const MOST_SEATS: usize = 10;

/// The seats that a broken table's players take, at most as many as a table has. Contracts see them as the list of
/// their places.
#[derive(Drop)]
pub struct FillSeats {
    places: [Place; MOST_SEATS],
    count: usize,
}

impl Model for FillSeats {
    ghost use Rattle.std.specs.Prelude.{◌≤◌, List, take};
    ghost use Rattle.seat_book.specs.declared.place.Place.{Place};

    ghost Value = { List Place };

    ghost view = { λ fill. take fill.count fill.places };

    ghost invariant = { λ fill. fill.count ≤ 10 };
}

impl FillSeats {
    /// Makes a list of no seats.
    pub(crate) fn new() -> FillSeats
        ensures { result ≡ [] }
    {
        FillSeats {
            places: [Place { table: 0, seat: 0 }; MOST_SEATS],
            count: 0,
        }
    }

    /// Adds a seat.
    pub(crate) fn push(&mut self, place: Place)
        requires { length self.old < 10 }
        ensures { self.new ≡ self.old ++ place ∷ [] }
    {
        self.places[self.count] = place;
        self.count += 1;
    }

    /// Gives the places of the seats, in turn.
    pub fn places(&self) -> &[Place]
        ensures { result.now ≡ self.now }
    {
        &self.places[..self.count]
    }
}
