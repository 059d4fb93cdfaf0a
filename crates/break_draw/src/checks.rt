//! Whether an order is one of a broken table's seats and players.

ghost use Rattle.std.specs.Prelude.{◌≡◌, ◌↔◌, IsTrue, count_by};
ghost use Rattle.std.specs.Str.{bytes_eq};
ghost use Rattle.seat_book.specs.Places.{IsTableOf};
ghost use Rattle.balance_rule.specs.Filling.{is_same_place, names_at};
ghost use Rattle.break_draw.specs.Draws.{IsDraw, is_draw, is_named, come_as_often, is_reordered};

use floor_text::Name;
use seat_book::{Place, SeatBook, Seated};

fn count_of_place(places: &[Place], place: Place) -> usize
    ensures { result ≡ count_by (is_same_place place) places.now }
{
    places.iter().filter(|other| place == **other).count()
}

fn count_of_name(names: &[Name], name: Name) -> usize
    ensures { result ≡ count_by (bytes_eq name) names.now }
{
    names.iter().filter(|other| name == **other).count()
}

/// Tells whether a player with this name sits in a slot.
fn is_named(slot: &Option<Seated>, name: Name) -> bool
    ensures { result ≡ is_named name slot.now }
{
    match slot {
        Some(seated) => name == seated.name,
        None => false,
    }
}

fn count_in_slots(slots: &[Option<Seated>], name: Name) -> usize
    ensures { result ≡ count_by (is_named name) slots.now }
{
    slots.iter().filter(|slot| is_named(slot, name)).count()
}

/// Tells how many players of a table have this name.
fn count_at_table(book: &SeatBook, table: u8, name: Name) -> usize
    requires { IsTableOf book.now.table_count table }
    ensures { result ≡ count_by (bytes_eq name) (names_at book.now table) }
{
    count_in_slots(book.table_slots(table), name)
}

/// Tells whether each place comes as often among others.
fn places_come_as_often(places: &[Place], others: &[Place]) -> bool
    ensures { result ≡ come_as_often is_same_place places.now others.now }
{
    places.iter().all(|place| count_of_place(places, *place) == count_of_place(others, *place))
}

/// Tells whether places are the same as others in some order.
fn are_same_places(places: &[Place], others: &[Place]) -> bool
    ensures { result ≡ is_reordered is_same_place places.now others.now }
{
    places.len() == others.len() && places_come_as_often(places, others)
}

/// Tells whether each name comes as often among a table's players.
fn names_come_as_often(book: &SeatBook, table: u8, names: &[Name]) -> bool
    requires { IsTableOf book.now.table_count table }
    ensures { result ≡ come_as_often bytes_eq names.now (names_at book.now table) }
{
    names.iter().all(|name| count_of_name(names, *name) == count_at_table(book, table, *name))
}

/// Tells whether names are those of a table's players in some order.
fn are_players(book: &SeatBook, table: u8, names: &[Name]) -> bool
    requires { IsTableOf book.now.table_count table }
    ensures { result ≡ is_reordered bytes_eq names.now (names_at book.now table) }
{
    names.len() == usize::from(book.count(table)) && names_come_as_often(book, table, names)
}

/// Tells whether a draw of a broken table is right: the seats are those of its fill list in some order, and the names
/// those of its players in some order.
pub fn check_draw(
    book: &SeatBook,
    table: u8,
    fill: &[Place],
    seats: &[Place],
    names: &[Name],
) -> bool
    requires { IsTableOf book.now.table_count table }
    ensures same { result ≡ is_draw book.now table fill.now seats.now names.now }
    ensures exact { IsTrue result ↔ IsDraw book.now table fill.now seats.now names.now }
{
    are_same_places(fill, seats) && are_players(book, table, names)
}
