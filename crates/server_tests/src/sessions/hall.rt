//! Halls: the book and the docks of a plan, with the passes of their workers and of two desks.

ghost use Rattle.std.specs.Prelude.{◌≡◌, ◌<◌, ◌≤◌, [], All, IfSome, List, slice_get, vec_len};
ghost use Rattle.std.specs.List.{AllZip};
ghost use Rattle.history_lock.specs.Limits.{most_passes};
ghost use Rattle.history_lock.specs.Passes.{AreFresh, IsFresh, LockId, lock_of, own};
ghost use Rattle.book_dock.specs.Docks.{book_id};
ghost use Rattle.table_dock.specs.Docks.{dock_id, table_of};
ghost use Rattle.table_worker.specs.Workers.{IsWorkerOf};
ghost use Rattle.session_desk.specs.Desks.{AreInOrder, IsDeskOf};

use book_dock::{BookDock, BookPass, make_book};
use history_lock::{Grows, Pass};
use level_plan::Plan;
use plan_files::{Words, served_from_toml};
use session_desk::Desk;
use std::alloc::{AllocError, Global};
use std::process::Abort;
use table_dock::{Gate, TableDock, TablePass, make_dock};
use table_worker::Worker;

/// The seed of all decks and draws.
pub const SEED: [u8; 32] = [7; 32];

/// A gate that nobody watches.
#[derive(Drop)]
pub struct Open;

impl Gate for Open {
    fn held(&self, _table: u8) {}
}

/// What differs among the plans. All stacks are of 1,000 chips, and players may enter at level 1 alone.
#[derive(Clone, Copy)]
pub struct Shape {
    pub game: &'static str,
    pub tables: u8,
    pub seats: u8,
    /// The levels as a plan file has them.
    pub levels: &'static str,
    /// The levels as the journal's lines have them.
    pub told: &'static str,
}

impl Shape {
    /// Writes the plan file, with the words of the floor and of four players.
    fn file(&self, alloc: Global) -> Result<String, AllocError> {
        let Shape {
            game,
            tables,
            seats,
            levels,
            told: _,
        } = *self;
        format!(in alloc;
            "game = \"{game}\"\ntables = {tables}\nseats = {seats}\nstack = 1000\nbuyin = 100\nlate = 1\n\
            blinds = {levels}\nshares = [700, 300]\nfloor_word = \"f\"\n\
            words = {{ ann = \"a\", bob = \"b\", cat = \"c\", eve = \"e\" }}\n"
        )
    }

    /// Writes the lines that are told of the plan.
    fn lines(&self, alloc: Global) -> Result<String, AllocError> {
        let Shape {
            game,
            tables,
            seats,
            levels: _,
            told,
        } = *self;
        format!(in alloc;
            "# game {game}\n# tables {tables}\n# seats {seats}\n# stack 1000\n# buyin 100\n# late 1\n\
            {told}# shares 700 300\n# go\n"
        )
    }
}

/// The book of a plan, the docks of its first two tables, the words of its clients and what is told of it.
#[derive(Drop)]
pub struct Hall {
    pub alloc: Global,
    pub told: String,
    pub words: Words,
    pub book: BookDock,
    pub docks: Vec<TableDock>,
}

/// Who has the passes of a hall: the workers of its tables, and two desks.
pub struct Staff {
    pub first: Worker,
    pub second: Option<Worker>,
    pub desk: Desk,
    pub other: Desk,
}

/// Takes the three passes of a dock out of their list: the worker's, and those of the desks.
fn three<V: Grows>(passes: Vec<Pass<V>>) -> (Pass<V>, Pass<V>, Pass<V>)
    requires { vec_len passes ≡ 3 }
    ensures { (lock : LockId) (history : List V.Entry) → AreFresh lock history passes.items
        → IsFresh lock 0 history result.0 × (IsFresh lock 1 history result.1 × IsFresh lock 2 history result.2) }
{
    let mut passes = passes;
    let third = passes.pop().unwrap();
    let second = passes.pop().unwrap();
    let first = passes.pop().unwrap();
    (first, second, third)
}

/// Opens the book of a plan, with so many passes.
fn open_book(rt: &impl Abort, alloc: Global, plan: Plan, count: u32) -> (BookDock, Vec<BookPass>)
    requires { (0 < count) × (count ≤ most_passes) }
    ensures { All (λ p. (lock_of p ≡ book_id result.0) × (own p ≡ [])) result.1.items }
{
    make_book(alloc, plan, SEED, count).expect(rt, "memory")
}

/// Takes a pass of the book.
fn take_book(rt: &impl Abort, passes: &mut Vec<BookPass>, book: &BookDock) -> BookPass
    requires { All (λ p. (lock_of p ≡ book_id book.now) × (own p ≡ [])) passes.old.items }
    ensures pass { (lock_of result ≡ book_id book.now) × (own result ≡ []) }
    ensures others { All (λ p. (lock_of p ≡ book_id book.now) × (own p ≡ [])) passes.new.items }
{
    passes.pop().expect(rt, "a pass")
}

/// The dock of a table, with its worker and the passes of two desks.
struct Table {
    dock: TableDock,
    worker: Worker,
    desk: TablePass,
    other: TablePass,
}

/// Makes the dock of a table.
fn make_table(
    rt: &impl Abort,
    alloc: Global,
    book: &BookDock,
    books: &mut Vec<BookPass>,
    table: u8,
) -> Table
    requires { All (λ p. (lock_of p ≡ book_id book.now) × (own p ≡ [])) books.old.items }
    ensures table { table_of result.dock ≡ table }
    ensures worker { IsWorkerOf book.now result.dock result.worker }
    ensures desks { (lock_of result.desk ≡ dock_id result.dock) × (lock_of result.other ≡ dock_id result.dock) }
    ensures books { All (λ p. (lock_of p ≡ book_id book.now) × (own p ≡ [])) books.new.items }
{
    let (dock, passes) = make_dock(alloc, table, 2).expect(rt, "memory");
    let (carrier, desk, other) = three(passes);
    let brings = take_book(rt, books, book);
    Table {
        dock,
        worker: Worker::new(table, brings, carrier),
        desk,
        other,
    }
}

/// The docks of one table or two, with their workers and the passes of the desks, the first table's first.
struct Tables {
    docks: Vec<TableDock>,
    first: Worker,
    second: Option<Worker>,
    desk: Vec<TablePass>,
    other: Vec<TablePass>,
}

/// Makes the dock of the only table.
fn one_table(rt: &impl Abort, alloc: Global, book: &BookDock, books: &mut Vec<BookPass>) -> Tables
    requires { All (λ p. (lock_of p ≡ book_id book.now) × (own p ≡ [])) books.old.items }
    ensures order { AreInOrder result.docks.items }
    ensures first { IfSome (slice_get result.docks.items 0) (λ dock. IsWorkerOf book.now dock result.first) }
    ensures second { IfSome result.second (λ worker. IfSome (slice_get result.docks.items 1)
        (λ dock. IsWorkerOf book.now dock worker)) }
    ensures desk { AllZip (λ pass dock. lock_of pass ≡ dock_id dock) result.desk.items result.docks.items }
    ensures other { AllZip (λ pass dock. lock_of pass ≡ dock_id dock) result.other.items result.docks.items }
    ensures books { All (λ p. (lock_of p ≡ book_id book.now) × (own p ≡ [])) books.new.items }
{
    let Table {
        dock,
        worker,
        desk,
        other,
    } = make_table(rt, alloc, book, books, 1);
    let docks = Vec::from_array(alloc, [dock]).expect(rt, "memory");
    let desk = Vec::from_array(alloc, [desk]).expect(rt, "memory");
    let other = Vec::from_array(alloc, [other]).expect(rt, "memory");
    Tables {
        docks,
        first: worker,
        second: None,
        desk,
        other,
    }
}

/// Makes the docks of two tables.
fn two_tables(rt: &impl Abort, alloc: Global, book: &BookDock, books: &mut Vec<BookPass>) -> Tables
    requires { All (λ p. (lock_of p ≡ book_id book.now) × (own p ≡ [])) books.old.items }
    ensures order { AreInOrder result.docks.items }
    ensures first { IfSome (slice_get result.docks.items 0) (λ dock. IsWorkerOf book.now dock result.first) }
    ensures second { IfSome result.second (λ worker. IfSome (slice_get result.docks.items 1)
        (λ dock. IsWorkerOf book.now dock worker)) }
    ensures desk { AllZip (λ pass dock. lock_of pass ≡ dock_id dock) result.desk.items result.docks.items }
    ensures other { AllZip (λ pass dock. lock_of pass ≡ dock_id dock) result.other.items result.docks.items }
    ensures books { All (λ p. (lock_of p ≡ book_id book.now) × (own p ≡ [])) books.new.items }
{
    let Table {
        dock,
        worker,
        desk,
        other,
    } = make_table(rt, alloc, book, books, 1);
    let Table {
        dock: next_dock,
        worker: next_worker,
        desk: next_desk,
        other: next_other,
    } = make_table(rt, alloc, book, books, 2);
    let docks = Vec::from_array(alloc, [dock, next_dock]).expect(rt, "memory");
    let desk = Vec::from_array(alloc, [desk, next_desk]).expect(rt, "memory");
    let other = Vec::from_array(alloc, [other, next_other]).expect(rt, "memory");
    Tables {
        docks,
        first: worker,
        second: Some(next_worker),
        desk,
        other,
    }
}

/// Makes the docks of a hall, with a worker for each, and two desks.
fn make_tables(
    rt: &impl Abort,
    alloc: Global,
    book: &BookDock,
    books: &mut Vec<BookPass>,
    tables: u8,
) -> Tables
    requires { All (λ p. (lock_of p ≡ book_id book.now) × (own p ≡ [])) books.old.items }
    ensures order { AreInOrder result.docks.items }
    ensures first { IfSome (slice_get result.docks.items 0) (λ dock. IsWorkerOf book.now dock result.first) }
    ensures second { IfSome result.second (λ worker. IfSome (slice_get result.docks.items 1)
        (λ dock. IsWorkerOf book.now dock worker)) }
    ensures desk { AllZip (λ pass dock. lock_of pass ≡ dock_id dock) result.desk.items result.docks.items }
    ensures other { AllZip (λ pass dock. lock_of pass ≡ dock_id dock) result.other.items result.docks.items }
    ensures books { All (λ p. (lock_of p ≡ book_id book.now) × (own p ≡ [])) books.new.items }
{
    if tables == 1 {
        one_table(rt, alloc, book, books)
    } else {
        two_tables(rt, alloc, book, books)
    }
}

/// Makes a hall, with the passes of its staff.
pub fn make_hall(rt: &impl Abort, alloc: Global, shape: &Shape) -> (Hall, Staff)
    ensures order { AreInOrder result.0.docks.items }
    ensures first { IfSome (slice_get result.0.docks.items 0)
        (λ dock. IsWorkerOf result.0.book dock result.1.first) }
    ensures second { IfSome result.1.second (λ worker. IfSome (slice_get result.0.docks.items 1)
        (λ dock. IsWorkerOf result.0.book dock worker)) }
    ensures desk { IsDeskOf result.0.book result.0.docks.items result.1.desk }
    ensures other { IsDeskOf result.0.book result.0.docks.items result.1.other }
{
    let file = shape.file(alloc).expect(rt, "memory");
    let Ok((plan, words)) = served_from_toml(alloc, file.as_bytes()) else {
        panic!(rt; "a plan")
    };
    let count = if shape.tables == 1 { 3 } else { 4 };
    let (book, mut books) = open_book(rt, alloc, plan, count);
    let Tables {
        docks,
        first,
        second,
        desk,
        other,
    } = make_tables(rt, alloc, &book, &mut books, shape.tables);
    let desk = Desk::new(alloc, take_book(rt, &mut books, &book), desk);
    let other = Desk::new(alloc, take_book(rt, &mut books, &book), other);
    let hall = Hall {
        alloc,
        told: shape.lines(alloc).expect(rt, "memory"),
        words,
        book,
        docks,
    };
    let staff = Staff {
        first,
        second,
        desk,
        other,
    };
    (hall, staff)
}
