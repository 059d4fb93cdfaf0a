//! Tables with players.

ghost use Rattle.std.specs.Prelude.{◌≡◌, ◌≤◌, true};
ghost use Rattle.std.specs.Option.{ForSome};
ghost use Rattle.button_blinds.specs.Marks.{AreMarksOf};
ghost use Rattle.seat_book.specs.Places.{IsTableOf, IsPlaceOf};

use button_blinds::Marks;
use floor_text::Name;
use seat_book::{Place, SeatBook, TableStatus};
use std::alloc::Global;

/// The names of the players of a table, in turn.
const NAMES: [&[u8]; 10] = [
    b"ann", b"bob", b"cat", b"dan", b"eve", b"fay", b"gus", b"hal", b"ida", b"jon",
];

/// A table: its seats that are taken, and how it stands.
pub type Table = (&'static [u8], TableStatus);

/// A table where no hand is played.
pub const RESTS: TableStatus = TableStatus {
    marks: None,
    playing: false,
    race: None,
    unit: 1,
    begun: false,
};

/// A table that plays a hand.
pub const PLAYS: TableStatus = TableStatus {
    playing: true,
    ..RESTS
};

/// A table where a chip race is pending.
pub const RACES: TableStatus = TableStatus {
    race: Some(25),
    ..RESTS
};

/// A table that has begun in the round of hand-for-hand.
pub const BEGUN: TableStatus = TableStatus {
    begun: true,
    ..RESTS
};

/// Tells whether a table of so many seats has this seat.
fn has_seat(seats: u8, seat: u8) -> bool
    ensures { result ≡ true → (1 ≤ seat) × (seat ≤ seats) }
{
    1 <= seat && seat <= seats
}

/// Tells whether these marks, if any, are at seats that a table of so many has.
pub fn are_marks(seats: u8, marks: Option<Marks>) -> bool
    ensures { result ≡ true → ForSome marks (AreMarksOf seats) }
{
    match marks {
        Some(marks) => {
            has_seat(seats, marks.button)
                && has_seat(seats, marks.small)
                && has_seat(seats, marks.big)
        }
        None => true,
    }
}

/// Tells whether there is a table of this number.
pub fn has_table(book: &SeatBook, table: u8) -> bool
    ensures { result ≡ true → IsTableOf book.now.table_count table }
{
    1 <= table && table <= book.table_count()
}

/// Tells whether there is this place.
pub fn has_place(book: &SeatBook, place: Place) -> bool
    ensures { result ≡ true → IsPlaceOf book.now.table_count book.now.seat_count place }
{
    has_table(book, place.table) && 1 <= place.seat && place.seat <= book.seat_count()
}

/// Seats a player in a place, and tells whether he may sit there.
pub fn sit(book: &mut SeatBook, player: u32, name: &[u8], place: Place, stack: u64) -> bool {
    let Some(name) = Name::read(name) else {
        return false;
    };
    if player >= 640
        || !has_place(book, place)
        || book.at(place).is_some()
        || book.find(player).is_some()
    {
        return false;
    }
    book.seat(player, name, place, stack);
    true
}

/// Tells whether a unit, if any, is at least one chip.
fn is_unit(unit: Option<u64>) -> bool
    ensures { result ≡ true → ForSome unit (λ unit. 1 ≤ unit) }
{
    match unit {
        Some(unit) => unit >= 1,
        None => true,
    }
}

/// Sets how a table stands, and tells whether it may.
pub fn set_status(book: &mut SeatBook, table: u8, status: TableStatus) -> bool {
    if !has_table(book, table) || status.unit == 0 || !is_unit(status.race) {
        return false;
    }
    if !are_marks(book.seat_count(), status.marks) {
        return false;
    }
    book.set_status(table, status);
    true
}

/// Seats players in these seats of a table, with names in turn: the player in seat 7 of table 2 has the number 27.
fn sit_at(book: &mut SeatBook, table: u8, seats: &[u8]) -> bool {
    for (seat, name) in seats.iter().zip(&NAMES) {
        let player = u32::from(table) * 10 + u32::from(*seat);
        let place = Place { table, seat: *seat };
        if !sit(book, player, name, place, 1000) {
            return false;
        }
    }
    true
}

/// Sets up tables.
fn set_up(book: &mut SeatBook, tables: &[Table]) -> bool {
    let mut number = 0u8;
    for (taken, status) in tables {
        number = number.wrapping_add(1);
        if !sit_at(book, number, taken) || !set_status(book, number, *status) {
            return false;
        }
    }
    true
}

/// Makes the book of these tables of so many seats.
pub fn book_of(alloc: Global, seats: u8, tables: &[Table]) -> Option<SeatBook> {
    if seats < 2 || seats > 10 || tables.len() < 1 || tables.len() > 64 {
        return None;
    }
    let mut book = SeatBook::new(alloc, tables.len() as u8, seats).ok()?;
    if set_up(&mut book, tables) {
        Some(book)
    } else {
        None
    }
}
