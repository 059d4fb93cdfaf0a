//! A hand is begun, and brought to the dock.

ghost use Rattle.std.specs.Prelude.{◌≡◌, [], false, is_ok, IsSome, if◌then◌else◌};
ghost use Rattle.history_lock.specs.Holds.{Stands};
ghost use Rattle.history_lock.specs.Passes.{lock_of, pass_number, seen};
ghost use Rattle.table_engine.specs.Acts.{IsAnswer};
ghost use Rattle.dock_rules.specs.Added.{only_if};
ghost use Rattle.dock_rules.specs.Journals.{IsLegalJournal, entry_told, tale_of};
ghost use Rattle.dock_rules.specs.Points.{hand_begun, next_begin, refusal_at};
ghost use Rattle.table_dock.specs.Docks.{dock_id, table_of};
ghost use Rattle.book_dock.specs.Docks.{book_id};
ghost use Rattle.table_worker.specs.Turns.{IsTurn, is_ended, is_stopping, turn_given_up, turn_refused};
ghost use Rattle.table_worker.specs.Visits.{Visits};
ghost use Rattle.table_worker.specs.Workers.{IsSameWorker, IsWorkerOf, carried, has_ended, is_asking, is_lying, journal_of};

use crate::stage::Stage;
use crate::turn::Turn;
use crate::worker::Worker;
use book_dock::BookDock;
use floor_book::BookFault;
use floor_text::Refusal;
use std::sync::Wait;
use table_dock::TableDock;

/// Tells whether a refusal says that the tournament was stopped.
fn stops(refusal: Refusal) -> bool
    ensures { result ≡ is_stopping refusal }
{
    matches!(refusal, Refusal::Stopped)
}

impl Worker {
    /// Begins a hand at the table.
    fn begin<R: Wait>(self, rt: &R, book: &BookDock) -> (Worker, Result<(), BookFault>)
        requires book { lock_of self.book ≡ book_id book.now }
        requires free { (is_lying self ≡ false) × (carried self ≡ None) × (has_ended self ≡ false) }
        ensures begun { Stands self.book result.0.book
            (λ at added. IsAnswer (refusal_at (tale_of at) (next_begin (tale_of at) self.table)) result.1
            × (carried result.0 ≡ (if is_ok result.1 then Some (hand_begun (tale_of at) self.table) else None))
            × (added ≡ only_if (is_ok result.1)
            (entry_told (tale_of at) (pass_number self.book) (next_begin (tale_of at) self.table) []))) }
        ensures legal { IsLegalJournal (seen result.0.book) }
        ensures stage { (is_lying result.0 ≡ false) × (has_ended result.0 ≡ false) × (is_asking result.0 ≡ false) }
        ensures rest { (result.0.table ≡ self.table) × (result.0.dock ≡ self.dock) }
    {
        let Worker {
            table,
            book: pass,
            dock,
            stage: _,
        } = self;
        let (pass, begun) = book.begin(rt, pass, table);
        match begun {
            Ok(hand) => {
                let loaded = Worker {
                    table,
                    book: pass,
                    dock,
                    stage: Stage::Carrying(hand),
                };
                (loaded, Ok(()))
            }
            Err(fault) => {
                let free = Worker {
                    table,
                    book: pass,
                    dock,
                    stage: Stage::Free,
                };
                (free, Err(fault))
            }
        }
    }

    /// Brings the hand that was begun to the dock.
    pub(crate) fn open<R: Wait>(self, rt: &R, dock: &TableDock) -> (Worker, Turn)
        requires dock { (lock_of self.dock ≡ dock_id dock.now) × (self.table ≡ table_of dock.now) }
        requires carries { IsSome (carried self) }
        requires going { (journal_of self).ended ≡ false }
        ensures turn { IsTurn 0 self result.0 result.1 }
        ensures book { (result.0.book ≡ self.book) × (result.0.table ≡ self.table) }
        ensures ended { (has_ended result.0 ≡ false) × (is_ended result.1 ≡ false) }
    {
        let Worker {
            table,
            book,
            dock: pass,
            stage,
        } = self;
        let Some(hand) = stage.into_hand() else {
            unreachable!()
        };
        let (pass, back) = dock.open_hand(rt, pass, hand);
        match back {
            None => {
                let opened = Worker {
                    table,
                    book,
                    dock: pass,
                    stage: Stage::Lying,
                };
                (opened, Turn::Opened)
            }
            Some(hand) => {
                let loaded = Worker {
                    table,
                    book,
                    dock: pass,
                    stage: Stage::Carrying(hand),
                };
                (loaded, Turn::NoMemory)
            }
        }
    }

    /// Tells that no hand may begin now, or that the tournament was stopped.
    fn not_now<R: Wait>(self, rt: &R, dock: &TableDock, refusal: Refusal) -> (Worker, Turn)
        requires dock { lock_of self.dock ≡ dock_id dock.now }
        requires free { (is_lying self ≡ false) × (carried self ≡ None) × (is_asking self ≡ false) }
        requires going { has_ended self ≡ false }
        requires stopped { is_stopping refusal ≡ (journal_of self).ended }
        ensures book { (result.0.book ≡ self.book) × (result.0.table ≡ self.table) }
        ensures dock { Visits 0 self.dock result.0.dock (λ at added. added ≡ []) }
        ensures turn { result.1 ≡ turn_refused refusal }
        ensures free { (is_lying result.0 ≡ false) × (carried result.0 ≡ None) × (is_asking result.0 ≡ false) }
        ensures ended { has_ended result.0 ≡ is_stopping refusal }
    {
        if stops(refusal) {
            return (self.end(rt, dock), Turn::Ended);
        }
        (self, Turn::NotNow(refusal))
    }

    /// Tells why no hand begins.
    fn give_up<R: Wait>(self, rt: &R, dock: &TableDock, fault: BookFault) -> (Worker, Turn)
        requires dock { lock_of self.dock ≡ dock_id dock.now }
        requires free { (is_lying self ≡ false) × (carried self ≡ None) × (is_asking self ≡ false) }
        requires going { has_ended self ≡ false }
        requires stopped { is_ended (turn_given_up fault) ≡ (journal_of self).ended }
        ensures book { (result.0.book ≡ self.book) × (result.0.table ≡ self.table) }
        ensures dock { Visits 0 self.dock result.0.dock (λ at added. added ≡ []) }
        ensures turn { result.1 ≡ turn_given_up fault }
        ensures free { (is_lying result.0 ≡ false) × (carried result.0 ≡ None) × (is_asking result.0 ≡ false) }
        ensures ended { has_ended result.0 ≡ is_ended (turn_given_up fault) }
    {
        match fault {
            BookFault::NoMemory => (self, Turn::NoMemory),
            BookFault::No(refusal) => self.not_now(rt, dock, refusal),
        }
    }

    /// Begins the next hand and brings it to the dock.
    pub(crate) fn begin_next<R: Wait>(
        self,
        rt: &R,
        book: &BookDock,
        dock: &TableDock,
    ) -> (Worker, Turn)
        requires docks { IsWorkerOf book.now dock.now self }
        requires free { (is_lying self ≡ false) × (carried self ≡ None) × (has_ended self ≡ false) }
        requires idle { is_asking self ≡ false }
        ensures same { IsSameWorker self result.0 }
        ensures turn { IsTurn 1 self result.0 result.1 }
        ensures ended { (has_ended result.0 ≡ is_ended result.1)
            × (is_ended result.1 ≡ (journal_of result.0).ended) }
    {
        let (worker, begun) = self.begin(rt, book);
        match begun {
            Ok(()) => worker.open(rt, dock),
            Err(fault) => worker.give_up(rt, dock, fault),
        }
    }
}
