//! The order that is owed is asked for between two hands.

ghost use Rattle.std.specs.Prelude.{◌≡◌, [], false, true};
ghost use Rattle.history_lock.specs.Holds.{Stands};
ghost use Rattle.history_lock.specs.Passes.{lock_of, pass_number, seen};
ghost use Rattle.dock_rules.specs.Added.{only_if};
ghost use Rattle.dock_rules.specs.declared.asks.Ask.TheVariants as asks;
ghost use Rattle.dock_rules.specs.Journals.{IsLegalJournal, entry_told, tale_of};
ghost use Rattle.dock_rules.specs.Points.{IsAskAnswer, ask_answer, event_done, is_done as is_carried_out};
ghost use Rattle.book_dock.specs.Docks.{book_id};
ghost use Rattle.table_worker.specs.Stages.{asks_again, does_ask, does_lie, hand_carried, is_done};
ghost use Rattle.table_worker.specs.Turns.{IsTurn, is_ended};
ghost use Rattle.table_worker.specs.Workers.{IsSameWorker, IsWorkerOf, carried, has_ended, is_asking, is_lying, journal_of};

use crate::stage::Stage;
use crate::turn::Turn;
use crate::worker::Worker;
use book_dock::{Ask, AskAnswer, BookDock};
use std::sync::Wait;
use table_dock::TableDock;

/// Gives where a worker stands after an answer: it asks again, unless no order is owed.
fn stage_after(answer: AskAnswer) -> Stage
    ensures free { (does_lie result ≡ false) × (hand_carried result ≡ None) × (is_done result ≡ false) }
    ensures asks { does_ask result ≡ asks_again answer }
{
    match answer {
        AskAnswer::NoOrder => Stage::Free,
        _ => Stage::Asking,
    }
}

impl Worker {
    /// Asks for the order that is owed.
    fn ask<R: Wait>(self, rt: &R, book: &BookDock) -> (Worker, AskAnswer)
        requires book { lock_of self.book ≡ book_id book.now }
        requires asks { is_asking self ≡ true }
        ensures asked { Stands self.book result.0.book
            (λ at added. IsAskAnswer (ask_answer (tale_of at) asks.NextOrder) result.1
            × (added ≡ only_if (is_carried_out result.1)
            (entry_told (tale_of at) (pass_number self.book) (event_done (tale_of at) asks.NextOrder) []))) }
        ensures legal { IsLegalJournal (seen result.0.book) }
        ensures stage { (is_lying result.0 ≡ false) × (carried result.0 ≡ None) × (has_ended result.0 ≡ false)
            × (is_asking result.0 ≡ asks_again result.1) }
        ensures rest { (result.0.table ≡ self.table) × (result.0.dock ≡ self.dock) }
    {
        let Worker {
            table,
            book: pass,
            dock,
            stage: _,
        } = self;
        let (pass, answer) = book.order(rt, pass, &Ask::NextOrder);
        let worker = Worker {
            table,
            book: pass,
            dock,
            stage: stage_after(answer),
        };
        (worker, answer)
    }

    /// Asks for the order that is owed, and goes on to the next hand where none is.
    pub(crate) fn ask_first<R: Wait>(
        self,
        rt: &R,
        book: &BookDock,
        dock: &TableDock,
    ) -> (Worker, Turn)
        requires docks { IsWorkerOf book.now dock.now self }
        requires asks { is_asking self ≡ true }
        ensures same { IsSameWorker self result.0 }
        ensures turn { IsTurn 1 self result.0 result.1 }
        ensures ended { (has_ended result.0 ≡ is_ended result.1)
            × (is_ended result.1 ≡ (journal_of result.0).ended) }
    {
        let (worker, answer) = self.ask(rt, book);
        match answer {
            AskAnswer::Ok => (worker, Turn::Ordered),
            AskAnswer::No(_) => (worker.end(rt, dock), Turn::Ended),
            AskAnswer::NoOrder => worker.begin_next(rt, book, dock),
            AskAnswer::NoMemory => (worker, Turn::NoMemory),
        }
    }
}
