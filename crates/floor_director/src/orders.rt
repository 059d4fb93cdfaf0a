//! The order that the floor owes.

ghost use Rattle.std.specs.Prelude.{◌≡◌, ℕ, IfOk, Some};
ghost use Rattle.std.specs.Option.{ForSome};
ghost use Rattle.seat_book.specs.Places.{IsTableOf};
ghost use Rattle.seat_book.specs.Counts.{greatest_count, least_count};
ghost use Rattle.seat_book.specs.Seatings.{IsSeating};
ghost use Rattle.balance_rule.specs.declared.balance.Move.{Move};
ghost use Rattle.balance_rule.specs.Balance.{balance_move};
ghost use Rattle.tournament_events.specs.declared.event.Event.TheVariants.{Balance};
ghost use Rattle.floor_director.specs.Orders.{giver, is_last_open, last_open, may_give, may_take, next_order, owed_balance, owed_break, taker};
ghost use Rattle.floor_director.specs.Owed.{IsNextOrder};

use balance_rule::{balance_order, names_at};
use break_draw::{draw, fill_seats};
use floor_text::List;
use seat_book::SeatBook;
use std::alloc::{AllocError, Global};
use tournament_events::Event;

/// Tells whether a table is open, and none with a higher number is.
fn is_last_open(book: &SeatBook, table: u8) -> bool
    requires { IsTableOf book.now.table_count table }
    ensures { result ≡ is_last_open book.now table }
{
    book.count(table) > 0 && !book.is_not_last(table)
}

/// Gives the open table with the highest number, if a table is open.
fn last_open(book: &SeatBook) -> Option<u8>
    ensures last { result ≡ last_open book.now }
    ensures table { ForSome result (IsTableOf book.now.table_count) }
    ensures lawful { IsSeating book.now }
{
    for below in 0..book.table_count() {
        if is_last_open(book, below + 1) {
            return Some(below + 1);
        }
    }
    None
}

/// Tells whether a table may give a player: it is not playing, and open with this many players, the most of a table.
fn may_give(book: &SeatBook, table: u8, fullest: u8) -> bool
    requires table { IsTableOf book.now.table_count table }
    requires fullest { fullest ≡ greatest_count book.now.table_count book.now.players }
    ensures { result ≡ may_give book.now table }
{
    book.count(table) > 0 && !book.status(table).playing && book.count(table) >= fullest
}

/// Gives the first table that may give a player, if one may.
fn giver(book: &SeatBook) -> Option<u8>
    ensures giver { result ≡ giver book.now }
    ensures table { ForSome result (IsTableOf book.now.table_count) }
{
    let fullest = book.fullest();
    for below in 0..book.table_count() {
        if may_give(book, below + 1, fullest) {
            return Some(below + 1);
        }
    }
    None
}

/// Tells whether a table may take a player: it is open with this many players, the fewest of an open table.
fn may_take(book: &SeatBook, table: u8, fewest: u8) -> bool
    requires table { IsTableOf book.now.table_count table }
    requires fewest { fewest ≡ least_count book.now.table_count book.now.players }
    ensures { result ≡ may_take book.now table }
{
    book.count(table) > 0 && book.count(table) <= fewest
}

/// Gives the first table that may take a player, if one may.
fn taker(book: &SeatBook) -> Option<u8>
    ensures taker { result ≡ taker book.now }
    ensures table { ForSome result (IsTableOf book.now.table_count) }
{
    let fewest = book.fewest();
    for below in 0..book.table_count() {
        if may_take(book, below + 1, fewest) {
            return Some(below + 1);
        }
    }
    None
}

/// Gives the balance that is owed where no break is, if one is.
fn owed_balance(book: &SeatBook) -> Option<Event>
    ensures order { result ≡ owed_balance book.now }
    ensures moved { (from to : ℕ) → result ≡ Some (Balance from to)
        → (move_ : Move) × (balance_move book.now from to ≡ Some move_) }
{
    let from = giver(book)?;
    let to = taker(book)?;
    let Ok(_move) = balance_order(book, from, to) else {
        return None;
    };
    Some(Event::Balance {
        from: u64::from(from),
        to: u64::from(to),
    })
}

/// Gives the break that is owed, if one is, with its draw.
fn owed_break(
    alloc: Global,
    book: &SeatBook,
    seed: [u8; 32],
    k: u64,
) -> Result<Option<Event>, AllocError>
    ensures { IfOk result (λ order. order ≡ owed_break book.now seed k) }
{
    let Some(table) = last_open(book) else {
        return Ok(None);
    };
    if book.status(table).playing {
        return Ok(None);
    }
    let Some(fill) = fill_seats(book, table) else {
        return Ok(None);
    };
    let fill = Vec::from_slice(alloc, fill.places())?;
    let names = names_at(alloc, book, table)?;
    let (seats, names) = draw(alloc, seed, k, &fill, &names)?;
    Ok(Some(Event::Break {
        table: u64::from(table),
        seats: List::from_vec(seats),
        names: List::from_vec(names),
    }))
}

/// Gives the order that the floor owes: the lawful break where one is, with its draw by the seed and the number of the
/// draw; else of the lawful balances the one from the table with the lowest number, and of these the one to the table
/// with the lowest number. `None` exactly where neither a break nor a balance is lawful. It speaks of a tournament that
/// is neither over nor stopped. Want of memory is the only error.
pub fn next_order(
    alloc: Global,
    book: &SeatBook,
    seed: [u8; 32],
    k: u64,
) -> Result<Option<Event>, AllocError>
    ensures order { IfOk result (λ order. order ≡ next_order book.now seed k) }
    ensures rule { IfOk result (λ order. IsNextOrder book.now seed k order) }
{
    if book.is_race_pending() || book.is_round_open() {
        return Ok(None);
    }
    if let Some(order) = owed_break(alloc, book, seed, k)? {
        return Ok(Some(order));
    }
    Ok(owed_balance(book))
}
