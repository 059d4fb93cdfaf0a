//! The names of a table's players.

ghost use Rattle.std.specs.Prelude.{◌≡◌, map, IfOk};
ghost use Rattle.seat_book.specs.Places.{IsTableOf};
ghost use Rattle.seat_book.specs.Players.{players_in};
ghost use Rattle.balance_rule.specs.Filling.{names_at};

use floor_text::Name;
use seat_book::{SeatBook, Seated};
use std::alloc::{AllocError, Global};

/// Gives the names of the players in slots, in turn.
fn names_in(alloc: Global, slots: &[Option<Seated>]) -> Result<Vec<Name>, AllocError>
    ensures { IfOk result (λ names. names.items ≡ map (λ seated. seated.name) (players_in slots.now)) }
{
    let mut names = Vec::new(alloc);
    for slot in slots {
        if let Some(seated) = slot {
            names.push(seated.name)?;
        }
    }
    Ok(names)
}

/// Gives the names of a table's players, in rising seat. Want of memory is the only error.
pub fn names_at(alloc: Global, book: &SeatBook, table: u8) -> Result<Vec<Name>, AllocError>
    requires { IsTableOf book.now.table_count table }
    ensures { IfOk result (λ names. names.items ≡ names_at book.now table) }
{
    names_in(alloc, book.table_slots(table))
}
