//! How a worker works until the tournament is stopped.

ghost use Rattle.std.specs.Prelude.{◌≡◌, []};
ghost use Rattle.history_lock.specs.Passes.{lock_of, own, pass_number, seen};
ghost use Rattle.table_dock.specs.Docks.{dock_id, table_of};
ghost use Rattle.book_dock.specs.Docks.{book_id};
ghost use Rattle.table_worker.specs.Ties.{IsBrought};

use crate::turn::Turn;
use crate::waiting::{lasts, pause, rest};
use crate::watch::Watch;
use crate::worker::Worker;
use book_dock::{BookDock, BookPass};
use std::sync::Wait;
use table_dock::{TableDock, TablePass};

/// Makes turns of the worker of a table until the tournament is stopped. A worker without a hand waits for news of the
/// journal, and rests behind them where its table is closed, halted or has one player alone; while its hand lies at the
/// dock it looks for news of both locks, and after want of memory it pauses.
pub fn work_table<R: Wait>(
    rt: &R,
    book: &BookDock,
    dock: &TableDock,
    book_pass: BookPass,
    table_pass: TablePass,
    table: u8,
) -> (BookPass, TablePass)
    requires locks { (lock_of book_pass ≡ book_id book.now) × (lock_of table_pass ≡ dock_id dock.now) }
    requires none { (own book_pass ≡ []) × (own table_pass ≡ []) }
    requires first { pass_number table_pass ≡ 0 }
    requires table { table ≡ table_of dock.now }
    ensures passes { (lock_of result.0 ≡ lock_of book_pass) × (lock_of result.1 ≡ lock_of table_pass)
        × (pass_number result.0 ≡ pass_number book_pass) × (pass_number result.1 ≡ 0) }
    ensures brought { IsBrought (pass_number book_pass) table (seen result.0) (seen result.1) }
{
    let mut watch = Watch::new();
    let mut worker = Worker::new(table, book_pass, table_pass);
    for _ in rt.forever() {
        let (next, turn) = worker.turn(rt, book, dock);
        match turn {
            Turn::Ended => return next.parts(),
            Turn::NotNow(refusal) => {
                worker = next.await_book(rt, book);
                if lasts(refusal) {
                    rest(rt);
                }
            }
            Turn::Lying => worker = next.await_either(rt, book, dock, &mut watch),
            Turn::NoMemory => {
                pause(rt);
                worker = next;
            }
            _ => worker = next,
        }
    }
    unreachable!()
}
