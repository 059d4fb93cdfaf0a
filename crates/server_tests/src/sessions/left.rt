//! What is written of a table's acts, and of what is left of a hall of one table once its locks are opened for good.

ghost use Rattle.std.specs.Prelude.{◌≡◌, ◌∷◌, [], IfSome, slice_get, vec_len};
ghost use Rattle.std.specs.List.{AllZip};
ghost use Rattle.history_lock.specs.Passes.{lock_of};
ghost use Rattle.book_dock.specs.Docks.{book_id};
ghost use Rattle.table_dock.specs.Docks.{dock_id};
ghost use Rattle.session_desk.specs.Desks.{IsDeskOf};

use super::hall::Hall;
use crate::client::add;
use book_dock::{BookEnd, BookPass};
use floor_events::{write_event, write_report};
use session_desk::{Asked, Desk};
use std::alloc::Global;
use std::process::Abort;
use table_dock::{TableDock, TableEnd, TablePass};
use table_engine::ActOf;
use tournament_events::Event;
use view_rules::TableEntry;

/// Writes an act at a table as a line, and behind it whether it was made by a called time.
fn write_act(rt: &impl Abort, table: u64, act: &ActOf, out: &mut Vec<u8>) {
    let event = Event::Act {
        table,
        name: act.name,
        act: act.act,
    };
    write_event(&event, out).expect(rt, "memory");
    let end: &[u8] = if act.by_time { b" by time\n" } else { b"\n" };
    add(rt, out, end);
}

/// Tells whether just these acts were asked for: each is a line, behind the name of who asked.
pub fn lists(rt: &impl Abort, alloc: Global, asked: &[Asked], acts: &str) -> bool {
    let mut out = Vec::new(alloc);
    for one in asked {
        let who = match &one.who {
            Some(name) => name.bytes(),
            None => b"the floor",
        };
        add(rt, &mut out, who);
        add(rt, &mut out, b": ");
        write_act(rt, u64::from(one.table), &one.act, &mut out);
    }
    out.as_slice() == acts.as_bytes()
}

/// Writes what is left: the table's history, a hand that still lies there, and the report.
fn write_left(rt: &impl Abort, alloc: Global, book: &BookEnd, table: &TableEnd) -> Vec<u8> {
    let mut out = Vec::new(alloc);
    for entry in table.entries.items() {
        match entry {
            TableEntry::Opened(_) => add(rt, &mut out, b"opened\n"),
            TableEntry::Acted { caller, act } => {
                let caller = caller.to_string(alloc).expect(rt, "memory");
                add(rt, &mut out, caller.as_bytes());
                add(rt, &mut out, b": ");
                write_act(rt, 1, act, &mut out);
            }
            TableEntry::Closed => add(rt, &mut out, b"closed\n"),
        }
    }
    if table.hand.is_some() {
        add(rt, &mut out, b"a hand\n");
    }
    let report = book.report().expect(rt, "memory");
    write_report(&report, &mut out).expect(rt, "memory");
    out
}

/// Takes a desk of a hall of one table apart: its pass of the book, and that of the table.
fn passes_of(hall: &Hall, desk: Desk) -> (BookPass, TablePass)
    requires desk { IsDeskOf hall.now.book hall.now.docks.items desk }
    requires count { vec_len hall.now.docks ≡ 1 }
    ensures book { lock_of result.0 ≡ book_id hall.now.book }
    ensures table { AllZip (λ pass dock. lock_of pass ≡ dock_id dock) (result.1 ∷ []) hall.now.docks.items }
{
    let (pass, mut tables, _) = desk.parts();
    (pass, tables.remove(0))
}

/// Opens the lock of the only table for good.
fn close_table(
    rt: &impl Abort,
    alloc: Global,
    docks: Vec<TableDock>,
    worker: TablePass,
    desk: TablePass,
    other: TablePass,
) -> TableEnd
    requires worker { AllZip (λ pass dock. lock_of pass ≡ dock_id dock) (worker ∷ []) docks.items }
    requires desk { AllZip (λ pass dock. lock_of pass ≡ dock_id dock) (desk ∷ []) docks.items }
    requires other { AllZip (λ pass dock. lock_of pass ≡ dock_id dock) (other ∷ []) docks.items }
{
    let passes = Vec::from_array(alloc, [worker, desk, other]).expect(rt, "memory");
    let mut docks = docks;
    let Ok(end) = docks.remove(0).close(passes) else {
        panic!(rt; "three passes are all")
    };
    end
}

/// Says that a hall has one table.
fn check_one(rt: &impl Abort, docks: &Vec<TableDock>)
    ensures { vec_len docks.now ≡ 1 }
{
    assert!(rt; docks.len() == 1);
}

/// Opens the locks of a hall of one table for good, whose worker had these passes. Tells whether this is left.
pub fn is_left(
    rt: &impl Abort,
    hall: Hall,
    worker: (BookPass, TablePass),
    desk: Desk,
    other: Desk,
    left: &str,
) -> bool
    requires worker { IfSome (slice_get hall.docks.items 0) (λ dock.
        (lock_of worker.0 ≡ book_id hall.book) × (lock_of worker.1 ≡ dock_id dock)) }
    requires desk { IsDeskOf hall.book hall.docks.items desk }
    requires other { IsDeskOf hall.book hall.docks.items other }
{
    check_one(rt, &hall.docks);
    let (first, one) = worker;
    let (second, two) = passes_of(&hall, desk);
    let (third, three) = passes_of(&hall, other);
    let Hall {
        alloc,
        book,
        docks,
        ..
    } = hall;
    let passes = Vec::from_array(alloc, [first, second, third]).expect(rt, "memory");
    let Ok(book) = book.close(passes) else {
        panic!(rt; "three passes are all")
    };
    let table = close_table(rt, alloc, docks, one, two, three);
    write_left(rt, alloc, &book, &table).as_slice() == left.as_bytes()
}
