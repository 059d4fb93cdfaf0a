//! The seats that a broken table's players take.

ghost use Rattle.std.specs.Prelude.{◌≡◌, ◌<◌, ◌≤◌, ◌+◌, ◌↔◌, ◌||◌, if◌then◌else◌, ℕ, IsTrue, true, length, None, Some, Err, IfSome, IfOk};
ghost use Rattle.std.specs.List.{list_all};
ghost use Rattle.std.specs.Option.{ForSome};
ghost use Rattle.button_blinds.specs.SeatSets.{has_seat, seat_count};
ghost use Rattle.seat_book.specs.Places.{IsTableOf, is_place_of};
ghost use Rattle.seat_book.specs.Counts.{count_at};
ghost use Rattle.seat_book.specs.Seatings.{IsSeating};
ghost use Rattle.balance_rule.specs.EmptySeats.{lowest_seat};
ghost use Rattle.balance_rule.specs.Filling.{is_other_open, other_open_tables, empty_elsewhere, lacks_room, is_at, is_same_place, count_with, lower_of, lowest_table, is_free, next_to_fill, filled, fill_seats};
ghost use Rattle.break_draw.specs.declared.faults.DrawFault.TheVariants.{NoRoom};
ghost use Rattle.break_draw.specs.Counting.{HasCounts};

use crate::{DrawFault, FillSeats};
use balance_rule::empty_seat_after;
use button_blinds::SeatSet;
use seat_book::{Place, SeatBook};
use std::alloc::Global;

/// The most tables of a tournament.
const MOST_TABLES: usize = 64;

/// Tells whether a table is open and another than this one.
fn is_other_open(book: &SeatBook, table: u8, other: u8) -> bool
    requires { IsTableOf book.now.table_count other }
    ensures { result ≡ is_other_open book.now table other }
{
    book.count(other) > 0 && other != table
}

/// Tells how many empty seats the other open tables have.
fn empty_elsewhere(book: &SeatBook, table: u8) -> u16
    ensures { result ≡ empty_elsewhere book.now table }
{
    let seats = book.seat_count();
    let mut empty: u16 = 0;
    for below in 0..book.table_count() {
        let other = below + 1;
        if is_other_open(book, table, other) {
            empty += u16::from(seats - book.count(other));
        }
    }
    empty
}

/// Gives the counts of the tables, each by its number less one.
fn counts_of(book: &SeatBook) -> [u8; MOST_TABLES]
    ensures each { HasCounts book.now.table_count (count_at book.now.players) result }
    ensures lawful { IsSeating book.now }
{
    let mut counts = [0; MOST_TABLES];
    for below in 0..book.table_count() {
        counts[usize::from(below)] = book.count(below + 1);
    }
    counts
}

/// Gives the one of two tables with the lower count, and the first where they have the same.
fn lower_of(counts: &[u8; MOST_TABLES], table: Option<u8>, other: u8) -> u8
    requires table { ForSome table (IsTableOf 64) }
    requires other { IsTableOf 64 other }
    ensures lower { (tables : ℕ) (count : ℕ → ℕ) → HasCounts tables count counts.now
        → ForSome table (IsTableOf tables) → IsTableOf tables other → lower_of count table other ≡ Some result }
    ensures one { (tables : ℕ) → ForSome table (IsTableOf tables) → IsTableOf tables other → IsTableOf tables result }
{
    match table {
        None => other,
        Some(table) => {
            if counts[usize::from(other - 1)] < counts[usize::from(table - 1)] {
                other
            } else {
                table
            }
        }
    }
}

/// Gives the other open table with the lowest of these counts, the first such, if there is one.
fn lowest_table(book: &SeatBook, table: u8, counts: &[u8; MOST_TABLES]) -> Option<u8>
    ensures lowest { (count : ℕ → ℕ) → HasCounts book.now.table_count count counts.now
        → result ≡ lowest_table count (other_open_tables book.now table) }
    ensures within { ForSome result (IsTableOf book.now.table_count) }
{
    let mut lowest = None;
    for below in 0..book.table_count() {
        let other = below + 1;
        if is_other_open(book, table, other) {
            lowest = Some(lower_of(counts, lowest, other));
        }
    }
    lowest
}

/// Gives the seats of a table that are taken or chosen, once this place is chosen.
fn with_chosen(taken: SeatSet, table: u8, place: Place) -> SeatSet
    requires first { 1 ≤ place.seat }
    requires last { place.seat ≤ 10 }
    requires size { length taken ≡ 10 }
    ensures taken { (seat : ℕ) → 1 ≤ seat → seat ≤ 10 → has_seat result seat
        ≡ (has_seat taken seat || is_same_place (record { table = table; seat = seat }) place) }
    ensures few { seat_count result ≤ seat_count taken + (if is_at table place then 1 else 0) }
    ensures size { length result ≡ 10 }
{
    if place.table == table {
        taken.with(place.seat)
    } else {
        taken
    }
}

/// Gives the lowest seat of a table that is empty and not chosen, where it has one.
fn free_seat(book: &SeatBook, table: u8, chosen: &[Place]) -> u8
    requires table { IsTableOf book.now.table_count table }
    requires places { list_all (is_place_of book.now.table_count book.now.seat_count) chosen.now ≡ true }
    requires room { count_with book.now.players chosen.now table < book.now.seat_count }
    ensures { lowest_seat book.now.seat_count (is_free book.now.players chosen.now table) ≡ Some result }
{
    let seats = book.seat_count();
    let mut taken = book.occupied(table);
    for place in chosen {
        taken = with_chosen(taken, table, *place);
    }
    empty_seat_after(taken, seats, seats)
}

/// Gives the next seat to fill, where there is room for one more.
fn next_to_fill(book: &SeatBook, table: u8, counts: &[u8; MOST_TABLES], chosen: &[Place]) -> Place
    requires filled { filled book.now table (length chosen.now) ≡ Some chosen.now }
    requires room { length chosen.now < empty_elsewhere book.now table }
    requires counts { HasCounts book.now.table_count (count_with book.now.players chosen.now) counts.now }
    ensures next { next_to_fill book.now table chosen.now ≡ Some result }
    ensures table { IsTableOf book.now.table_count result.table }
    ensures room { count_with book.now.players chosen.now result.table < book.now.seat_count }
{
    let other = lowest_table(book, table, counts).unwrap();
    Place {
        table: other,
        seat: free_seat(book, other, chosen),
    }
}

/// Chooses the seats that a table's players take when it breaks, as many as it has players, one at a time: at the other
/// open table with the fewest players, of more such at that with the lowest number, its lowest empty seat. `None` comes
/// exactly where the other open tables have fewer empty seats than the table has players. It takes no memory.
pub fn fill_seats(book: &SeatBook, table: u8) -> Option<FillSeats>
    requires { IsTableOf book.now.table_count table }
    ensures fill { IfSome result (λ fill. fill_seats book.now table ≡ Some fill) }
    ensures no_room { (result ≡ None) ↔ IsTrue (lacks_room book.now table) }
{
    let players = book.count(table);
    if empty_elsewhere(book, table) < u16::from(players) {
        return None;
    }
    let mut counts = counts_of(book);
    let mut fill = FillSeats::new();
    for _chosen in 0..players {
        let place = next_to_fill(book, table, &counts, fill.places());
        counts[usize::from(place.table - 1)] += 1;
        fill.push(place);
    }
    Some(fill)
}

/// Lists the seats that a table's players take when it breaks, in turn. `NoRoom` comes exactly where the other open
/// tables have fewer empty seats than the table has players.
pub fn fill_list(alloc: Global, book: &SeatBook, table: u8) -> Result<Vec<Place>, DrawFault>
    requires { IsTableOf book.now.table_count table }
    ensures fill { IfOk result (λ fill. fill_seats book.now table ≡ Some fill.items) }
    ensures no_room { (result ≡ Err NoRoom) ↔ IsTrue (lacks_room book.now table) }
{
    match fill_seats(book, table) {
        Some(fill) => Ok(Vec::from_slice(alloc, fill.places())?),
        None => Err(DrawFault::NoRoom),
    }
}
