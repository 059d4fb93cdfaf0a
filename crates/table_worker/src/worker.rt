//! The worker of a table, and its turns.

ghost use Rattle.std.specs.Prelude.{◌≡◌, [], false, true};
ghost use Rattle.std.proofs.Props.{props};
ghost use Rattle.history_lock.specs.Passes.{pass_number, seen};
ghost use Rattle.table_worker.specs.Kept.{BroughtAtEnd, TiedUntilDone};

use crate::stage::Stage;
use crate::turn::Turn;
use book_dock::{BookDock, BookPass};
use std::sync::Wait;
use table_dock::{TableDock, TablePass};

/// The worker of a table, with its pass of the book and its pass of the table's dock. It begins hands in the book,
/// brings them to the dock, and settles them once they are over.
pub struct Worker {
    pub(crate) table: u8,
    pub(crate) book: BookPass,
    pub(crate) dock: TablePass,
    pub(crate) stage: Stage,
    /// The worker's pass of a dock is its first.
    pub ghost first: { pass_number dock ≡ 0 },
    /// Until it is done, what it brought to the book is what happened at the table.
    pub ghost tied: { TiedUntilDone (pass_number book) table stage (seen book) (seen dock) } by { Prim.hlevel props },
    /// Once it is done, the tournament was stopped.
    pub ghost brought: { BroughtAtEnd (pass_number book) table stage (seen book) (seen dock) } by { Prim.hlevel props },
}

impl Worker {
    ghost use Rattle.std.specs.Prelude.{◌+◌};
    ghost use Rattle.history_lock.specs.Holds.{Stands};
    ghost use Rattle.history_lock.specs.Passes.{lock_of, own};
    ghost use Rattle.dock_rules.specs.Journals.{tale_of};
    ghost use Rattle.book_dock.specs.Docks.{book_id};
    ghost use Rattle.table_worker.specs.Stages.{looks_first};
    ghost use Rattle.table_worker.specs.Ties.{IsBrought, hands_closed, hands_settled};
    ghost use Rattle.table_worker.specs.Turns.{IsTurn, is_ended};
    ghost use Rattle.table_worker.specs.Workers.{IsSameWorker, IsWorkerOf, carried, has_ended, is_asking, is_lying, journal_of};

    /// Makes the worker of a table, of passes that have done nothing.
    pub fn new(table: u8, book: BookPass, dock: TablePass) -> Worker
        requires none { (own book ≡ []) × (own dock ≡ []) }
        requires first { pass_number dock ≡ 0 }
        ensures same { (result.table ≡ table) × (result.book ≡ book) × (result.dock ≡ dock) }
        ensures idle { (is_lying result ≡ false) × (carried result ≡ None) × (is_asking result ≡ false) }
        ensures going { has_ended result ≡ false }
    {
        Worker {
            table,
            book,
            dock,
            stage: Stage::Free,
        }
    }

    /// Looks whether the tournament was stopped.
    fn look<R: Wait>(self, rt: &R, book: &BookDock) -> (Worker, bool)
        requires { lock_of self.book ≡ book_id book.now }
        ensures looked { Stands self.book result.0.book
            (λ at added. (result.1 ≡ (tale_of at).ended) × (added ≡ [])) }
        ensures rest { (result.0.table ≡ self.table) × (result.0.dock ≡ self.dock) × (result.0.stage ≡ self.stage) }
    {
        let Worker {
            table,
            book: pass,
            dock,
            stage,
        } = self;
        let (pass, stopped) = book.stopped(rt, pass);
        let worker = Worker {
            table,
            book: pass,
            dock,
            stage,
        };
        (worker, stopped)
    }

    /// Goes on with the hand that is out: brings it to the dock, or closes and settles it once it is over. It looks
    /// first whether the tournament was stopped.
    fn go_on<R: Wait>(self, rt: &R, book: &BookDock, dock: &TableDock) -> (Worker, Turn)
        requires docks { IsWorkerOf book.now dock.now self }
        requires out { looks_first self.stage ≡ true }
        ensures same { IsSameWorker self result.0 }
        ensures turn { IsTurn 1 self result.0 result.1 }
        ensures ended { (has_ended result.0 ≡ is_ended result.1)
            × (is_ended result.1 ≡ (journal_of result.0).ended) }
    {
        let (worker, stopped) = self.look(rt, book);
        if stopped {
            return (worker.end(rt, dock), Turn::Ended);
        }
        match worker.stage {
            Stage::Carrying(_) => worker.open(rt, dock),
            Stage::Lying => worker.bring_back(rt, book, dock),
            Stage::Free | Stage::Asking | Stage::Ended => unreachable!(),
        }
    }

    /// Makes one turn: closes and settles the hand where it lies at the dock and is over; else asks for the order that
    /// is owed, where a hand was settled since; else begins a hand and brings it to the dock.
    pub fn turn<R: Wait>(self, rt: &R, book: &BookDock, dock: &TableDock) -> (Worker, Turn)
        requires { IsWorkerOf book.now dock.now self }
        ensures same { IsSameWorker self result.0 }

        // What the turn did, and at which journal and history.
        ensures turn { IsTurn 1 self result.0 result.1 }

        // It tells that the tournament was stopped exactly where the journal that the worker has seen ends with that.
        ensures ended { is_ended result.1 ≡ (journal_of result.0).ended }
        ensures done { has_ended result.0 ≡ is_ended result.1 }

        // The hands that were closed at the table are settled, or the tournament was stopped.
        ensures settled { (journal_of result.0).ended ≡ false
            → hands_settled (pass_number result.0.book) (journal_of result.0) ≡ hands_closed (seen result.0.dock) }
    {
        match self.stage {
            Stage::Free => self.begin_next(rt, book, dock),
            Stage::Asking => self.ask_first(rt, book, dock),
            Stage::Carrying(_) | Stage::Lying | Stage::Ended => self.go_on(rt, book, dock),
        }
    }

    /// Gives the passes back, once a turn has told that the tournament was stopped.
    pub fn parts(self) -> (BookPass, TablePass)
        requires { has_ended self ≡ true }
        ensures same { (result.0 ≡ self.book) × (result.1 ≡ self.dock) }
        ensures brought { IsBrought (pass_number self.book) self.table (seen result.0) (seen result.1) }
    {
        let Worker {
            table: _,
            book,
            dock,
            stage: _,
        } = self;
        (book, dock)
    }
}
