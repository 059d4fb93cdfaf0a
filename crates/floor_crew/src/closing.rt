//! Everybody is back: passes are collected, and the locks are opened for good.

ghost use Rattle.std.specs.Prelude.{◌≡◌, ◌+◌, ◌++◌, ◌<◌, ◌≤◌, ℕ, List, [], All, Any, IfSome, None, length, map, option_to_list, vec_capacity, vec_len};
ghost use Rattle.std.specs.List.{AllZip, filter_map};
ghost use mathlib.Core.List.{IsPrefix};
ghost use Rattle.history_lock.specs.Entries.{IsGrownByPasses, entries_by};
ghost use Rattle.history_lock.specs.Passes.{own, pass_number, seen};
ghost use Rattle.view_rules.specs.declared.entries.TableEntry.{TableEntry};
ghost use Rattle.dock_rules.specs.Journals.{IsLegalJournal, journal_caller};
ghost use Rattle.dock_rules.specs.Tables.{IsLegalTableHistory, table_caller};
ghost use Rattle.table_dock.specs.Docks.{dock_id, dock_passes};
ghost use Rattle.book_dock.specs.Docks.{book_id, book_opening, book_passes};
ghost use Rattle.book_dock.specs.Ends.{journal_of};
ghost use Rattle.session_desk.specs.Desks.{AreLater, IsDeskOf, Sights, of_table, sights};
ghost use Rattle.floor_crew.specs.declared.floor.Floor.{Floor};
ghost use Rattle.floor_crew.specs.AtHand.{AreCollected, AreMakers, AreOf, AreSeen, HasRoom, IsWorkSeen};
ghost use Rattle.floor_crew.specs.Closed.{HasClosed};
ghost use Rattle.floor_crew.specs.Rows.{HaveGrown, IsEmptyFor};
ghost use Rattle.floor_crew.specs.Working.{IsWorkAt};

use crate::floor::Floor;
use crate::jobs::{Attended, Work};
use crate::passes::Passes;
use crate::rows::{spread, take_last};
use book_dock::{BookDock, BookEnd, BookPass};
use table_dock::{TableDock, TableEnd, TablePass};

/// The doors as they come back, and of each whether it failed.
#[derive(Drop)]
pub struct Doors<D> {
    pub doors: Vec<D>,
    pub failed: Vec<bool>,
}

/// Takes what came back from the desks apart: collects their passes, and gives their doors in order, with whether each
/// failed. There is room for all.
pub(crate) fn take_doors<D: Drop>(
    attended: Vec<Attended<D>>,
    room: Doors<D>,
    passes: &mut Passes,
) -> Doors<D>
    requires doors { IsEmptyFor (vec_len attended) room.doors }
    requires failed { IsEmptyFor (vec_len attended) room.failed }
    requires count { All (λ one. length one.desk.tables.items ≡ vec_len passes.old.tables) attended.items }
    requires room { HasRoom (vec_len attended) (vec_len attended) passes.old }
    ensures doors { result.doors.items ≡ map (λ one. one.door) attended.items }
    ensures failed { result.failed.items ≡ map (λ one. one.failed) attended.items }
    ensures count { vec_len passes.new.tables ≡ vec_len passes.old.tables }
    ensures books { passes.new.books.items
        ≡ passes.old.books.items ++ map (λ one. one.desk.book) attended.items }
    ensures rows { HaveGrown passes.old.tables.items passes.new.tables.items
        (λ table. filter_map (λ one. of_table one.desk.tables.items table) attended.items) }
    ensures room { (books each : ℕ) → HasRoom (books + vec_len attended) (each + vec_len attended) passes.old
        → HasRoom books each passes.new }
    ensures collected { (floor : Floor) (books each : ℕ)
        → All (λ one. IsDeskOf floor.book floor.docks.items one.desk) attended.items
        → AreCollected floor books each passes.old
        → AreCollected floor (books + vec_len attended) (each + vec_len attended) passes.new }
    ensures seen { (end : Sights) → AreSeen end passes.new
        → All (λ one. AreLater (sights one.desk) end) attended.items × AreSeen end passes.old }
{
    let mut back = room;
    for one in attended {
        let Attended { desk, door, failed } = one;
        back.doors.push_reserved(door);
        back.failed.push_reserved(failed);
        passes.collect_desk(desk);
    }
    back
}

/// Collects the passes of the workers, who come in the order of their tables.
pub(crate) fn collect_works(works: Vec<Work>, row: Vec<TablePass>, passes: &mut Passes)
    requires row { IsEmptyFor (vec_len works) row }
    requires count { vec_len works ≡ vec_len passes.old.tables }
    requires room { HasRoom (vec_len works) 1 passes.old }
    ensures books { passes.new.books.items ≡ passes.old.books.items ++ map (λ work. work.book) works.items }
    ensures count { vec_len passes.new.tables ≡ vec_len passes.old.tables }
    ensures rows { HaveGrown passes.old.tables.items passes.new.tables.items
        (λ table. option_to_list (of_table (map (λ work. work.dock) works.items) table)) }
    ensures collected { (floor : Floor) (books each : ℕ) → AllZip (IsWorkAt floor) floor.docks.items works.items
        → AreCollected floor books each passes.old
        → AreCollected floor (books + vec_len works) (each + 1) passes.new }
    ensures seen { (end : Sights) → AreSeen end passes.new
        → All (IsWorkSeen end) works.items × AreSeen end passes.old }
{
    let mut row = row;
    for work in works {
        let Work {
            table: _,
            book,
            dock,
        } = work;
        passes.books.push_reserved(book);
        row.push_reserved(dock);
    }
    spread(&mut passes.tables, row);
}

/// Opens the book's lock, of which all passes are there.
fn close_book(book: BookDock, passes: Vec<BookPass>) -> BookEnd
    requires { AreOf (book_id book) (book_passes book) passes }
    ensures seen { All (λ pass. IsPrefix (seen pass) (journal_of result)) passes.items }
    ensures own { All (λ pass. entries_by journal_caller (pass_number pass) (journal_of result) ≡ own pass)
        passes.items }
    ensures numbers { (k : ℕ) → k < book_passes book → Any (λ pass. pass_number pass ≡ k) passes.items }
    ensures grown { IsGrownByPasses journal_caller (book_passes book) (book_opening book) (journal_of result) }
    ensures legal { IsLegalJournal (journal_of result) }
{
    match book.close(passes) {
        Ok(end) => end,
        Err(_) => unreachable!(),
    }
}

/// Opens a table's lock, of which all passes are there.
fn close_table(dock: TableDock, passes: Vec<TablePass>) -> TableEnd
    requires { AreOf (dock_id dock) (dock_passes dock) passes }
    ensures seen { All (λ pass. IsPrefix (seen pass) result.entries) passes.items }
    ensures own { All (λ pass. entries_by table_caller (pass_number pass) result.entries ≡ own pass) passes.items }
    ensures numbers { (k : ℕ) → k < dock_passes dock → Any (λ pass. pass_number pass ≡ k) passes.items }
    ensures others { All (λ entry. table_caller entry < dock_passes dock) result.entries }
    ensures legal { IsLegalTableHistory result.entries }
{
    match dock.close(passes) {
        Ok(end) => end,
        Err(_) => unreachable!(),
    }
}

/// Opens the lock of each table, of which all passes are there. A number that no table has has no history.
fn close_tables(docks: Vec<TableDock>, tables: Vec<Vec<TablePass>>)
    requires { AllZip (λ dock row. AreOf (dock_id dock) (dock_passes dock) row) docks.items tables.items }
    ensures { (histories : ℕ → List TableEntry) × ((table : ℕ) → IsLegalTableHistory (histories table))
        × ((table : ℕ) → IfSome (of_table tables.items table)
        (λ row. All (λ pass. IsPrefix (seen pass) (histories table)) row.items))
        × ((table : ℕ) → IfSome (of_table tables.items table)
        (λ row. AreMakers table_caller row (histories table)))
        × ((table : ℕ) → of_table tables.items table ≡ None → histories table ≡ []) }
{
    let mut docks = docks;
    let mut tables = tables;
    'each: while let Some(dock) = docks.pop() {
        drop(close_table(dock, take_last(&mut tables)));
    }
}

/// Opens all locks, of which all passes are there, and gives the journal with its book.
pub(crate) fn close_locks(floor: Floor, passes: Passes) -> BookEnd
    requires books { AreOf (book_id floor.book) (book_passes floor.book) passes.books }
    requires tables { AllZip (λ dock row. AreOf (dock_id dock) (dock_passes dock) row) floor.docks.items
        passes.tables.items }
    ensures { HasClosed floor passes (journal_of result) }
{
    let Floor { book, docks } = floor;
    let Passes { books, tables } = passes;
    close_tables(docks, tables);
    close_book(book, books)
}
