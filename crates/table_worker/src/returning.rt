//! A hand is taken from the dock: it is brought back to the book, or void.

ghost use Rattle.std.specs.Prelude.{◌≡◌, false, true};
ghost use Rattle.history_lock.specs.Passes.{lock_of, pass_number, seen};
ghost use Rattle.view_rules.specs.declared.entries.TableEntry.TheVariants as entries;
ghost use Rattle.dock_rules.specs.Added.{only_if};
ghost use Rattle.table_dock.specs.Docks.{dock_id};
ghost use Rattle.table_worker.specs.Turns.{IsTurn, count_of, is_ended};
ghost use Rattle.table_worker.specs.Visits.{Visits};
ghost use Rattle.table_worker.specs.Workers.{IsSameWorker, IsWorkerOf, has_ended, is_lying, journal_of};

use crate::stage::Stage;
use crate::turn::Turn;
use crate::worker::Worker;
use book_dock::{BookDock, SettleEnd};
use std::sync::Wait;
use table_dock::TableDock;
use table_engine::Hand;

/// Voids a hand, if there is one.
fn void(hand: Option<Hand>) {
    if let Some(hand) = hand {
        let _start = hand.void();
    }
}

impl Worker {
    /// The tournament was stopped: voids the hand that is out.
    pub(crate) fn end<R: Wait>(self, rt: &R, dock: &TableDock) -> Worker
        requires dock { lock_of self.dock ≡ dock_id dock.now }
        requires stopped { (journal_of self).ended ≡ true }
        ensures ended { has_ended result ≡ true }
        ensures book { (result.book ≡ self.book) × (result.table ≡ self.table) }
        ensures dock { Visits (count_of (is_lying self)) self.dock result.dock
            (λ at added. added ≡ only_if (is_lying self) entries.Closed) }
    {
        let Worker {
            table,
            book,
            dock: pass,
            stage,
        } = self;
        if !stage.lies() {
            void(stage.into_hand());
            return Worker {
                table,
                book,
                dock: pass,
                stage: Stage::Ended,
            };
        }
        let (pass, hand) = dock.void_hand(rt, pass);
        void(hand);
        Worker {
            table,
            book,
            dock: pass,
            stage: Stage::Ended,
        }
    }

    /// Closes the hand that lies at the dock and settles it, if it is over.
    pub(crate) fn bring_back<R: Wait>(
        self,
        rt: &R,
        book: &BookDock,
        dock: &TableDock,
    ) -> (Worker, Turn)
        requires docks { IsWorkerOf book.now dock.now self }
        requires going { (journal_of self).ended ≡ false }
        requires lies { is_lying self ≡ true }
        ensures same { IsSameWorker self result.0 }
        ensures turn { IsTurn 0 self result.0 result.1 }
        ensures ended { (has_ended result.0 ≡ is_ended result.1)
            × (is_ended result.1 ≡ (journal_of result.0).ended) }
    {
        let Worker {
            table,
            book: book_pass,
            dock: table_pass,
            stage: _,
        } = self;
        let (table_pass, hand) = dock.close_hand(rt, table_pass);
        match hand {
            None => {
                let worker = Worker {
                    table,
                    book: book_pass,
                    dock: table_pass,
                    stage: Stage::Lying,
                };
                return (worker, Turn::Lying);
            }
            Some(hand) => {
                let done = hand.finish();
                let (book_pass, end) = book.settle(rt, book_pass, done);
                match end {
                    SettleEnd::Settled => {
                        let settled = Worker {
                            table,
                            book: book_pass,
                            dock: table_pass,
                            stage: Stage::Asking,
                        };
                        return (settled, Turn::Settled);
                    }
                    SettleEnd::Stopped(_) => {
                        let done = Worker {
                            table,
                            book: book_pass,
                            dock: table_pass,
                            stage: Stage::Ended,
                        };
                        return (done, Turn::Ended);
                    }
                }
            }
        }
    }
}
