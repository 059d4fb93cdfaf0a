//! How a worker waits between two turns.

ghost use Rattle.std.specs.Prelude.{◌≡◌};
ghost use Rattle.history_lock.specs.Passes.{lock_of};
ghost use Rattle.book_dock.specs.Docks.{book_id};
ghost use Rattle.table_dock.specs.Docks.{dock_id};
ghost use Rattle.table_worker.specs.Workers.{IsSameWorker, IsWorkerOf, has_ended};

use crate::watch::Watch;
use crate::worker::Worker;
use book_dock::BookDock;
use floor_text::Refusal;
use std::sync::Wait;
use std::thread::Parker;
use std::time::Duration;
use table_dock::TableDock;

/// How many milliseconds a worker waits between two looks at most. So late it may learn of the stop while its hand lies
/// at the table.
const LONGEST_WAIT: u64 = 500;

/// How many milliseconds a worker pauses after want of memory.
const PAUSE: u64 = 20;

/// How many milliseconds a worker rests before it looks again at a table where no hand may begin for a while.
const REST: u64 = 10;

/// Tells whether a table where a hand is refused so may stay as it is for long: it is closed, has one player alone, or
/// is halted.
pub(crate) fn lasts(refusal: Refusal) -> bool {
    matches!(refusal, Refusal::NoTable | Refusal::Lone | Refusal::Halted)
}

impl Worker {
    /// Waits until the journal has news, and may go on earlier.
    pub(crate) fn await_book<R: Wait>(self, rt: &R, book: &BookDock) -> Worker
        requires { lock_of self.book ≡ book_id book.now }
        ensures same { IsSameWorker self result }
        ensures ended { has_ended result ≡ has_ended self }
    {
        let Worker {
            table,
            book: pass,
            dock,
            stage,
        } = self;
        let pass = book.await_news(rt, pass);
        Worker {
            table,
            book: pass,
            dock,
            stage,
        }
    }

    /// Looks how many entries the journal and the table's history have, and tells whether that is news.
    fn is_news(self, book: &BookDock, dock: &TableDock, watch: &mut Watch) -> (Worker, bool)
        requires { IsWorkerOf book.now dock.now self }
        ensures same { IsSameWorker self result.0 }
        ensures ended { has_ended result.0 ≡ has_ended self }
    {
        let Worker {
            table,
            book: mut book_pass,
            dock: mut table_pass,
            stage,
        } = self;
        let journal = book.news(&mut book_pass);
        let history = dock.news(&mut table_pass);
        let worker = Worker {
            table,
            book: book_pass,
            dock: table_pass,
            stage,
        };
        (worker, watch.is_new(journal, history))
    }

    /// Waits until the hand at the table is over, for half a second at most, and may go on earlier.
    fn await_table<R: Wait>(self, rt: &R, dock: &TableDock) -> Worker
        requires { lock_of self.dock ≡ dock_id dock.now }
        ensures same { IsSameWorker self result }
        ensures ended { has_ended result ≡ has_ended self }
    {
        let Worker {
            table,
            book,
            dock: pass,
            stage,
        } = self;
        let pass = dock.await_news(rt, pass, Duration::from_millis(LONGEST_WAIT));
        Worker {
            table,
            book,
            dock: pass,
            stage,
        }
    }

    /// Waits until the journal or the table's history has grown since the last look.
    pub(crate) fn await_either<R: Wait>(
        self,
        rt: &R,
        book: &BookDock,
        dock: &TableDock,
        watch: &mut Watch,
    ) -> Worker
        requires { IsWorkerOf book.now dock.now self }
        ensures same { IsSameWorker self result }
        ensures ended { has_ended result ≡ has_ended self }
    {
        let mut worker = self;
        for _ in rt.forever() {
            let (looked, is_news) = worker.is_news(book, dock, watch);
            if is_news {
                return looked;
            }
            worker = looked.await_table(rt, dock);
        }
        unreachable!()
    }
}

/// Waits for a moment, after which memory may be there again.
pub(crate) fn pause<R: Wait>(rt: &R) {
    wait_for(rt, PAUSE);
}

/// Waits before it looks again at a table where no hand may begin for a while.
pub(crate) fn rest<R: Wait>(rt: &R) {
    wait_for(rt, REST);
}

/// Waits for so many milliseconds.
fn wait_for<R: Wait>(rt: &R, milliseconds: u64) {
    Parker::new().park_timeout(rt, Duration::from_millis(milliseconds));
}
