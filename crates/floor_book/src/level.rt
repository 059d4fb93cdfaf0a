//! The next level.

ghost use Rattle.std.specs.Prelude.{◌≡◌, ◌<◌, ◌≤◌, ◌+◌, ◌^◌, Bool, nat_lt, length, if◌then◌else◌, OnOk, OnErr};
ghost use Rattle.rulebook.specs.Checks.{IsChecked};
ghost use Rattle.level_plan.specs.Plans.{unit_of_level};
ghost use Rattle.seat_book.specs.Counts.{is_open};
ghost use Rattle.seat_book.specs.Places.{IsTableOf};
ghost use Rattle.table_engine.specs.Acts.{IsAnswer};
ghost use Rattle.tournament_events.specs.declared.event.Event.TheVariants as events;
ghost use Rattle.tournament_rules.specs.Checks.{is_last_level, level_checks, book_refusal};
ghost use Rattle.tournament_rules.specs.Effects.{with_table, leveled};
ghost use Rattle.tournament_rules.specs.Racing.{announced_table, announced};

use crate::BookFault;
use crate::book::Book;
use floor_text::Refusal;
use seat_book::{SeatBook, TableStatus};

/// Tells how a table stands once a level with this greater unit is current.
fn announced_status(status: TableStatus, unit: u64, opened: bool) -> TableStatus
    ensures { result ≡ announced_table unit opened status }
{
    if opened {
        TableStatus {
            race: Some(unit),
            ..status
        }
    } else {
        TableStatus {
            unit,
            race: None,
            ..status
        }
    }
}

/// Makes a level with this greater unit current at a table.
fn announce_at_table(seats: &mut SeatBook, table: u8, unit: u64)
    requires table { IsTableOf seats.old.table_count table }
    requires some { 1 ≤ unit }
    ensures { seats.new ≡ with_table seats.old table (announced_table unit (is_open seats.old.players table)) }
{
    let status = announced_status(seats.status(table), unit, seats.count(table) > 0);
    seats.set_status(table, status);
}

/// Makes a level with this greater unit current at each table: a race is pending where somebody sits, and else the
/// table has the unit at once.
fn announce(seats: &mut SeatBook, unit: u64)
    requires { 1 ≤ unit }
    ensures { seats.new ≡ announced unit seats.old }
{
    for below in 0..seats.table_count() {
        announce_at_table(seats, below + 1, unit);
    }
}

/// Gives the tables a level's unit, where it is greater than the one before.
fn announce_from(seats: &mut SeatBook, before: u64, unit: u64)
    requires { 1 ≤ unit }
    ensures { seats.new ≡ (if nat_lt before unit then announced unit seats.old else seats.old) }
{
    if before < unit {
        announce(seats, unit);
    }
}

impl Book {
    /// Tells whether the current level is the last of the plan.
    pub fn is_last_level(&self) -> bool
        ensures { result ≡ is_last_level self.now }
    {
        self.plan.blinds.items().len() as u64 <= self.level
    }

    /// Makes the checks of the next level.
    pub(crate) fn check_level(&self) -> Result<(), Refusal>
        ensures { IsChecked (level_checks self.now) result }
    {
        self.check_going()?;
        self.check_no_race()?;
        if self.is_last_level() {
            return Err(Refusal::LastLevel);
        }
        self.check_not_over()
    }

    /// Gives the unit of a level of the plan.
    fn unit_of_level(&self, level: u64) -> u64
        requires first { 1 ≤ level }
        requires last { level ≤ length self.now.plan.blinds }
        ensures { result ≡ unit_of_level self.now.plan.blinds level }
    {
        self.plan.blinds.items()[level as usize - 1].unit
    }

    /// Makes the next level current from each table's next hand on. An error leaves the book as it was. It takes no
    /// memory.
    #[tactic(auto, using(tournament_rules::proofs::Levels::valid_leveled), unfolding(tournament_rules::specs::Checks::book_refusal))]
    pub(crate) fn next_level(&mut self) -> Result<(), BookFault>
        requires { self.old.accepted < 2 ^ 60 }
        ensures answer { IsAnswer (book_refusal self.old events.Level) result }
        ensures state { OnOk result (self.new ≡ leveled self.old) }
        ensures err { OnErr result (self.new ≡ self.old) }
    {
        self.check_level()?;
        let before = self.unit_of_level(self.level);
        let unit = self.unit_of_level(self.level + 1);
        announce_from(&mut self.seats, before, unit);
        self.level += 1;
        self.accepted += 1;
        Ok(())
    }
}
