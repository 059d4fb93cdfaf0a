//! Empty seats of a table.

ghost use Rattle.std.specs.Prelude.{◌≡◌, ◌≤◌, ◌<◌, ◌+◌, not, Some, None};
ghost use Rattle.button_blinds.specs.SeatSets.{has_seat, seat_count, AreSeatsOf};
ghost use Rattle.seat_book.specs.Places.{IsTableOf, IsPlaceOf};
ghost use Rattle.seat_book.specs.Players.{player_at};
ghost use Rattle.seat_book.specs.Counts.{count_at};
ghost use Rattle.balance_rule.specs.EmptySeats.{first_after, worst_empty_seat};

use button_blinds::SeatSet;
use rulebook::seat_after;
use seat_book::SeatBook;

/// Gives the first seat clockwise that is not taken, from the seat after this one, at a table of so many seats of which
/// one is not taken.
pub fn empty_seat_after(taken: SeatSet, seats: u8, seat: u8) -> u8
    requires some { 1 ≤ seats }
    requires most { seats ≤ 10 }
    requires within { seat ≤ seats }
    requires room { seat_count taken < seats }
    ensures next { first_after seats (λ other. not (has_seat taken other)) seat ≡ Some result }
    ensures first { 1 ≤ result }
    ensures last { result ≤ seats }
{
    let mut next = seat;
    for _step in 0..seats {
        next = seat_after(seats, next);
        if !taken.has(next) {
            return next;
        }
    }
    seat
}

/// Gives the worst empty seat of a table that has two empty seats: the first clockwise after the big mark, leaving out
/// the big mark's own; the lowest where the table has had no hand.
pub fn worst_seat(book: &SeatBook, table: u8) -> u8
    requires table { IsTableOf book.now.table_count table }
    requires two_empty { count_at book.now.players table + 2 ≤ book.now.seat_count }
    ensures worst { worst_empty_seat book.now table ≡ Some result }
    ensures place { IsPlaceOf book.now.table_count book.now.seat_count (record { table = table; seat = result }) }
    ensures empty { player_at book.now.players (record { table = table; seat = result }) ≡ None }
{
    let seats = book.seat_count();
    let taken = book.occupied(table);
    match book.status(table).marks {
        None => empty_seat_after(taken, seats, seats),
        Some(marks) => empty_seat_after(taken.with(marks.big), seats, marks.big),
    }
}
