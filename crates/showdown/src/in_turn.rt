//! The winners in turn.

ghost use Rattle.std.specs.Prelude.{◌≡◌, ◌≤◌, ◌<◌, ◌∷◌, ◌++◌, [], true, length};
ghost use Rattle.std.specs.List.{list_all};
ghost use Rattle.showdown.specs.Awards.{in_turn, is_seat};

use button_blinds::SeatSet;
use rulebook::seat_after;
use std::marker::Model;

/// Seats in an order. Contracts see the list of them.
#[derive(Drop)]
pub(crate) struct InTurn {
    seats: [u8; 10],
    count: usize,
}

impl Model for InTurn {
    ghost use Rattle.std.specs.Prelude.{◌≡◌, ◌≤◌, ℕ, List, length, take};

    ghost Value = { List ℕ };

    ghost view = { λ order. take order.count order.seats };

    ghost invariant = { λ order. (order.count ≤ 10) × (length order.seats ≡ 10) };
}

impl InTurn {
    /// Makes a list with no seat yet.
    fn empty() -> InTurn
        ensures { result ≡ [] }
    {
        InTurn {
            seats: [0; 10],
            count: 0,
        }
    }

    /// Adds a seat at the end.
    fn push(&mut self, seat: u8)
        requires { length self.old < 10 }
        ensures { self.new ≡ self.old ++ seat ∷ [] }
    {
        self.seats[self.count] = seat;
        self.count += 1;
    }

    /// Gives the seats of a set clockwise, from the seat after the button.
    pub(crate) fn of(set: SeatSet, button: u8, seats: u8) -> InTurn
        requires some { 1 ≤ seats }
        requires most { seats ≤ 10 }
        ensures seats { result ≡ in_turn seats button set }
        ensures within { list_all is_seat result ≡ true }
    {
        let mut order = InTurn::empty();
        let mut seat = button;
        for _step in 0..seats {
            seat = seat_after(seats, seat);
            if set.has(seat) {
                order.push(seat);
            }
        }
        order
    }

    /// Gives the seats as a slice.
    pub(crate) fn as_slice(&self) -> &[u8]
        ensures { result.now ≡ self.now }
    {
        &self.seats[..self.count]
    }
}
