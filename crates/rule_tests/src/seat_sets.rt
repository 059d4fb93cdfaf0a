//! Sets of seats.

ghost use Rattle.std.specs.Prelude.{◌≤◌};
ghost use Rattle.button_blinds.specs.SeatSets.{AreSeatsOf};

use button_blinds::SeatSet;

/// Gives the set with this seat in it, if a table of so many seats has it.
fn with(set: SeatSet, seats: u8, seat: u8) -> SeatSet
    requires ten { seats ≤ 10 }
    requires within { AreSeatsOf seats set }
    ensures { AreSeatsOf seats result }
{
    if seat == 0 || seat > seats {
        return set;
    }
    set.with(seat)
}

/// Gives the seats of a list that a table of so many seats has.
pub fn set_of(seats: u8, list: &[u8]) -> SeatSet
    requires { seats ≤ 10 }
    ensures { AreSeatsOf seats result }
{
    let mut set = SeatSet::empty();
    for seat in list {
        set = with(set, seats, *seat);
    }
    set
}
