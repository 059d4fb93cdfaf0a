//! Who sits where, and how the tables stand.
//!
//! It stands on floor_text, rulebook and button_blinds. `SeatBook` is seen as a `Seating`: the list of the players
//! who sit, by table and then by seat, and how each table stands. Each call changes just what it names, and only
//! `new` takes memory. A place has its slot, a number its place and a table its count, so nothing is searched.
#![tactic(auto)]

mod place;
mod seat_book;
mod seated;
mod table_status;

pub use place::Place;
pub use seat_book::SeatBook;
pub use seated::Seated;
pub use table_status::TableStatus;
