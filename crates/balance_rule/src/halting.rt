//! Tables that are too short to play.

ghost use Rattle.std.specs.Prelude.{◌≡◌};
ghost use Rattle.seat_book.specs.Places.{IsTableOf};
ghost use Rattle.balance_rule.specs.Halting.{halting_gap, is_halted};

use seat_book::SeatBook;

/// Tells how many players a table may lack against a fullest one before it is halted.
fn halting_gap(seats: u8) -> u8
    ensures gap { result ≡ halting_gap seats }
{
    if seats >= 7 { 3 } else { 2 }
}

/// Tells whether a table is halted: it is short of a fullest open table by the gap or more.
pub fn halted(book: &SeatBook, table: u8) -> bool
    requires { IsTableOf book.now.table_count table }
    ensures { result ≡ is_halted book.now table }
{
    book.count(table) + halting_gap(book.seat_count()) <= book.fullest()
}
