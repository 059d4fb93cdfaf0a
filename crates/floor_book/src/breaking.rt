//! A table breaks.

ghost use Rattle.std.specs.Prelude.{◌≡◌, ◌<◌, ◌^◌, ◌++◌, IfOk, OnOk, OnErr};
ghost use Rattle.rulebook.specs.Checks.{IsChecked};
ghost use Rattle.seat_book.specs.Places.{IsTableOf};
ghost use Rattle.table_engine.specs.Acts.{IsAnswer};
ghost use Rattle.tournament_events.specs.declared.event.Event.TheVariants as events;
ghost use Rattle.tournament_rules.specs.Checks.{going_checks, open_table_checks, leaving_checks, break_checks, book_refusal};
ghost use Rattle.tournament_rules.specs.Effects.{broken};

use crate::BookFault;
use crate::book::Book;
use crate::moving::{forget_marks, take_places};
use floor_text::{Name, Refusal};
use seat_book::Place;

impl Book {
    /// Makes the checks of a break before those of the draw, and gives the table's number.
    fn check_to_break(&self, table: u64) -> Result<u8, Refusal>
        ensures checked { IsChecked (going_checks self.now ++ open_table_checks self.now table
            ++ leaving_checks self.now table) result }
        ensures same { IfOk result (λ number. number ≡ table) }
        ensures within { IfOk result (IsTableOf self.now.seating.table_count) }
    {
        self.check_going()?;
        let table = self.check_open(table)?;
        self.check_leaving(table)?;
        Ok(table)
    }

    /// Makes the checks of a break, and gives the table's number.
    pub(crate) fn check_break(
        &self,
        table: u64,
        places: &[Place],
        names: &[Name],
    ) -> Result<u8, Refusal>
        ensures checked { IsChecked (break_checks self.now table places.now names.now) result }
        ensures same { IfOk result (λ number. number ≡ table) }
        ensures within { IfOk result (IsTableOf self.now.seating.table_count) }
    {
        let table = self.check_to_break(table)?;
        self.check_break_draw(table, places, names)?;
        self.check_round()?;
        Ok(table)
    }

    /// Breaks a table: its marks are forgotten, and its players take places at other tables, in turn. An error leaves
    /// the book as it was. It takes no memory.
    #[tactic(auto, using(tournament_rules::proofs::Breaks::valid_broken), unfolding(tournament_rules::specs::Checks::book_refusal))]
    pub(crate) fn break_table(
        &mut self,
        table: u64,
        places: &[Place],
        names: &[Name],
    ) -> Result<(), BookFault>
        requires { self.old.accepted < 2 ^ 60 }
        ensures answer { IsAnswer (book_refusal self.old (events.Break table places.now names.now)) result }
        ensures state { OnOk result (self.new ≡ broken self.old table places.now names.now) }
        ensures err { OnErr result (self.new ≡ self.old) }
    {
        let table = self.check_break(table, places, names)?;
        forget_marks(&mut self.seats, table);
        take_places(&mut self.seats, table, names, places);
        self.accepted += 1;
        Ok(())
    }
}
