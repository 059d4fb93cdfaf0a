//! Passes are dealt to those who work, and collected from them.

ghost use Rattle.std.specs.Prelude.{◌≡◌, ◌+◌, ◌++◌, ◌<◌, ◌≤◌, ◌∷◌, [], ℕ, All, IfOk, OnOk, length, option_to_list, vec_len};
ghost use Rattle.std.specs.List.{AllZip};
ghost use Rattle.history_lock.specs.Passes.{IsFresh, lock_of, own};
ghost use Rattle.table_dock.specs.Docks.{dock_id};
ghost use Rattle.book_dock.specs.Docks.{book_id};
ghost use Rattle.session_desk.specs.Desks.{AreLater, IsDeskOf, Sights, of_table, sights};
ghost use Rattle.floor_crew.specs.declared.floor.Floor.{Floor};
ghost use Rattle.floor_crew.specs.AtHand.{AreCollected, AreSeen, HasRoom, IsPack};
ghost use Rattle.floor_crew.specs.Rows.{HaveGrown};
ghost use Rattle.floor_crew.specs.Working.{IsIdleAt, IsIdleDesk};

use crate::jobs::Work;
use crate::rows::{spread, take_last};
use book_dock::BookPass;
use session_desk::Desk;
use std::alloc::{AllocError, Global};
use table_dock::TablePass;

/// A pack of passes, to be dealt: those of the book, and rows of passes of the tables. A row has a pass of each table's
/// dock, the first table's first, and they all have the row's number.
#[derive(Drop)]
pub(crate) struct Pack {
    pub(crate) books: Vec<BookPass>,
    pub(crate) rows: Vec<Vec<TablePass>>,
}

impl Pack {
    /// Deals a pass of the book and the last row to a desk, and so on for so many desks.
    pub(crate) fn deal_desks(&mut self, alloc: Global, count: u32) -> Result<Vec<Desk>, AllocError>
        requires { (count ≤ vec_len self.old.books) × (count ≤ vec_len self.old.rows) }
        ensures count { IfOk result (λ desks. length desks.items ≡ count) }
        ensures left { OnOk result ((vec_len self.new.books + count ≡ vec_len self.old.books)
            × (vec_len self.new.rows + count ≡ vec_len self.old.rows)) }
        ensures short { (most : ℕ) → All (λ row. vec_len row ≤ most) self.old.rows.items
            → OnOk result (All (λ row. vec_len row ≤ most) self.new.rows.items) }
        ensures dealt { (floor : Floor) → IsPack floor self.old
            → IfOk result (λ desks. All (IsIdleDesk floor) desks.items)
            × OnOk result (IsPack floor self.new) }
    {
        let mut desks = Vec::with_capacity(alloc, count as usize)?;
        for _ in 0..count {
            let book = take_last(&mut self.books);
            let row = take_last(&mut self.rows);
            desks.push_reserved(Desk::new(alloc, book, row));
        }
        Ok(desks)
    }
}

/// Deals a pass of the book to the worker of each table, beside its pass of the table's dock, which the row has.
pub(crate) fn deal_works(
    alloc: Global,
    books: Vec<BookPass>,
    row: Vec<TablePass>,
) -> Result<Vec<Work>, AllocError>
    requires enough { vec_len row ≤ vec_len books }
    requires few { vec_len row < 256 }
    ensures { (floor : Floor) → All (λ pass. (lock_of pass ≡ book_id floor.book) × (own pass ≡ [])) books.items
        → AllZip (λ dock pass. IsFresh (dock_id dock) 0 [] pass) floor.docks.items row.items
        → IfOk result (λ works. AllZip (IsIdleAt floor) floor.docks.items works.items) }
{
    let mut books = books;
    let mut works = Vec::with_capacity(alloc, row.len())?;
    for dock in row {
        let table = works.len() as u8 + 1;
        let book = take_last(&mut books);
        works.push_reserved(Work { table, book, dock });
    }
    Ok(works)
}

/// The passes that are collected: those of the book, and those of each table's dock, the first table's first.
#[derive(Drop)]
pub(crate) struct Passes {
    pub(crate) books: Vec<BookPass>,
    pub(crate) tables: Vec<Vec<TablePass>>,
}

impl Passes {
    /// Collects the passes of a desk.
    pub(crate) fn collect_desk(&mut self, desk: Desk)
        requires count { length desk.tables.items ≡ vec_len self.old.tables }
        requires room { HasRoom 1 1 self.old }
        ensures count { vec_len self.new.tables ≡ vec_len self.old.tables }
        ensures books { self.new.books.items ≡ self.old.books.items ++ desk.book ∷ [] }
        ensures rows { HaveGrown self.old.tables.items self.new.tables.items
            (λ table. option_to_list (of_table desk.tables.items table)) }
        ensures room { (books each : ℕ) → HasRoom (books + 1) (each + 1) self.old → HasRoom books each self.new }
        ensures collected { (floor : Floor) (books each : ℕ) → IsDeskOf floor.book floor.docks.items desk
            → AreCollected floor books each self.old → AreCollected floor (books + 1) (each + 1) self.new }
        ensures seen { (end : Sights) → AreSeen end self.new → AreLater (sights desk) end × AreSeen end self.old }
    {
        let (book, row, _asked) = desk.parts();
        self.books.push_reserved(book);
        spread(&mut self.tables, row);
    }
}
