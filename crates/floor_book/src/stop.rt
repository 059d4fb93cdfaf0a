//! The tournament is stopped.

ghost use Rattle.std.specs.Prelude.{◌≡◌, ◌<◌, ◌^◌, OnOk, OnErr};
ghost use Rattle.seat_book.specs.Places.{IsTableOf};
ghost use Rattle.table_engine.specs.Acts.{IsAnswer};
ghost use Rattle.tournament_events.specs.declared.event.Event.TheVariants as events;
ghost use Rattle.tournament_rules.specs.Checks.{book_refusal};
ghost use Rattle.tournament_rules.specs.Effects.{void_at, stopped_book};

use crate::BookFault;
use crate::book::Book;
use crate::pay::{pay_players, rest_table};

impl Book {
    /// Voids the hand at a table, if one is out: its players have the stacks with which they began it.
    #[tactic(auto, using(tournament_rules::proofs::Ends::valid_void_at))]
    fn void_at(&mut self, table: u8)
        requires { IsTableOf self.old.seating.table_count table }
        ensures { self.new ≡ void_at self.old table }
    {
        if let Some(start) = self.started[usize::from(table)].take() {
            pay_players(&mut self.seats, start.seats.items());
            rest_table(&mut self.seats, table);
        }
    }

    /// Closes the book: every hand in play is void. It takes no memory.
    #[tactic(auto, using(tournament_rules::proofs::Ends::valid_stopped))]
    fn close(&mut self)
        requires { self.old.accepted < 2 ^ 60 }
        ensures { self.new ≡ stopped_book self.old }
    {
        for below in 0..self.seats.table_count() {
            self.void_at(below + 1);
        }
        self.stopped = true;
        self.accepted += 1;
    }

    /// Stops the tournament. It takes no memory.
    pub(crate) fn stop(&mut self) -> Result<(), BookFault>
        requires { self.old.accepted < 2 ^ 60 }
        ensures answer { IsAnswer (book_refusal self.old events.Stop) result }
        ensures state { OnOk result (self.new ≡ stopped_book self.old) }
        ensures err { OnErr result (self.new ≡ self.old) }
    {
        self.check_going()?;
        self.close();
        Ok(())
    }
}
