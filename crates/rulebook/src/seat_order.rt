//! The order of the seats at a table.

ghost use Rattle.std.specs.Prelude.{◌≡◌, ◌≤◌};
ghost use Rattle.rulebook.specs.Seats.{seat_after, seat_before};

/// Gives the next seat clockwise, at a table of so many seats: 1 follows the last.
pub fn seat_after(seats: u8, seat: u8) -> u8
    requires { 1 ≤ seats }
    ensures next { result ≡ seat_after seats seat }
    ensures first { 1 ≤ result }
    ensures last { result ≤ seats }
{
    if seat < seats { seat + 1 } else { 1 }
}

/// Gives the next seat counter-clockwise, at a table of so many seats: the last comes before 1.
pub fn seat_before(seats: u8, seat: u8) -> u8
    requires some { 1 ≤ seats }
    requires within { seat ≤ seats }
    ensures next { result ≡ seat_before seats seat }
    ensures first { 1 ≤ result }
    ensures last { result ≤ seats }
{
    if seat > 1 { seat - 1 } else { seats }
}
