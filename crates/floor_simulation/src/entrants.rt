//! Who enters a simulated tournament, and where.

ghost use Rattle.std.specs.Prelude.{◌≡◌, ◌<◌, ◌+◌, ◌*◌, ℕ, length, IfOk, IfSome};
ghost use Rattle.rulebook.specs.Limits.{most_entries};
ghost use Rattle.seat_book.specs.Places.{IsTableOf};
ghost use Rattle.seat_book.specs.Counts.{count_at};
ghost use Rattle.simulation_rules.specs.Entrants.{entrant_name, next_entry, seat_to_take, table_to_enter};

use balance_rule::empty_seat_after;
use floor_book::Book;
use floor_text::Name;
use line_words::WriteText;
use seat_book::SeatBook;
use std::alloc::{AllocError, Global};
use tournament_events::Event;

/// Names the player who enters after so many others: `p1`, `p2`, and so on.
fn entrant_name(alloc: Global, before: u32) -> Result<Name, AllocError>
    requires { before < most_entries }
    ensures { IfOk result (λ name. name ≡ entrant_name before) }
{
    let mut bytes = Vec::new(alloc);
    bytes.push(b'p')?;
    (u64::from(before) + 1).push_text(&mut bytes)?;
    Ok(Name::read(&bytes).unwrap())
}

/// Gives the table that is entered next: the one with the lowest count, and of more such tables the one with the lowest
/// number.
fn table_to_enter(seats: &SeatBook) -> u8
    ensures table { result ≡ table_to_enter seats.now }
    ensures within { IsTableOf seats.now.table_count result }
{
    let mut lowest = 1;
    for below in 1..seats.table_count() {
        if seats.count(below + 1) < seats.count(lowest) {
            lowest = below + 1;
        }
    }
    lowest
}

/// Gives the seat that is taken at a table that is not full: the lowest empty one.
fn seat_to_take(seats: &SeatBook, table: u8) -> u8
    requires within { IsTableOf seats.now.table_count table }
    requires room { count_at seats.now.players table < seats.now.seat_count }
    ensures seat { result ≡ seat_to_take seats.now table }
{
    let last = seats.seat_count();
    empty_seat_after(seats.occupied(table), last, last)
}

/// Gives the entry that comes next, while there are seats to take.
pub(crate) fn next_entry(alloc: Global, book: &Book) -> Result<Event, AllocError>
    requires few { length book.now.entries < most_entries }
    requires room { count_at book.now.seating.players (table_to_enter book.now.seating) < book.now.seating.seat_count }
    ensures { IfOk result (λ event. event ≡ next_entry book.now) }
{
    let table = table_to_enter(book.seats());
    Ok(Event::Enter {
        name: entrant_name(alloc, book.entered())?,
        table: u64::from(table),
        seat: u64::from(seat_to_take(book.seats(), table)),
    })
}
