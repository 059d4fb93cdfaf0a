//! A player enters.

ghost use Rattle.std.specs.Prelude.{◌≡◌, ◌<◌, ◌^◌, ◌++◌, ◌∷◌, [], false, length, IfOk, IfErr, OnOk, OnErr};
ghost use Rattle.rulebook.specs.Limits.{most_entries};
ghost use Rattle.rulebook.specs.Checks.{IsChecked};
ghost use Rattle.entry_list.specs.Entries.{is_known};
ghost use Rattle.seat_book.specs.Places.{IsPlaceOf};
ghost use Rattle.table_engine.specs.Acts.{IsAnswer};
ghost use Rattle.table_engine.specs.declared.record.ActFault.TheVariants.{NoMemory};
ghost use Rattle.tournament_events.specs.declared.event.Event.TheVariants as events;
ghost use Rattle.tournament_rules.specs.Checks.{is_taken, enter_checks, book_refusal};
ghost use Rattle.tournament_rules.specs.Effects.{entered};

use crate::BookFault;
use crate::book::Book;
use entry_list::EntryList;
use floor_text::{Name, Refusal};
use seat_book::Place;

/// Adds the name of a newcomer to the list, where there is room, and gives his number. Want of memory is the only
/// error.
fn enlist(entries: &mut EntryList, name: Name) -> Result<u32, BookFault>
    requires new { is_known entries.old name ≡ false }
    requires room { length entries.old < most_entries }
    ensures number { IfOk result (λ player. player ≡ length entries.old) }
    ensures entry { IfOk result (λ player. player < most_entries) }
    ensures state { OnOk result (entries.new ≡ entries.old ++ name ∷ []) }
    ensures fault { IfErr result (λ fault. fault ≡ NoMemory) }
    ensures err { OnErr result (entries.new ≡ entries.old) }
{
    match entries.add(name) {
        Ok(player) => Ok(player),
        Err(_) => Err(BookFault::NoMemory),
    }
}

impl Book {
    /// Makes the checks of an entry, and gives the place where the player sits down.
    pub(crate) fn check_enter(&self, name: Name, table: u64, seat: u64) -> Result<Place, Refusal>
        ensures checked { IsChecked (enter_checks self.now name table seat) result }
        ensures same { IfOk result (λ place. place ≡ record { table = table; seat = seat }) }
        ensures within { IfOk result (IsPlaceOf self.now.seating.table_count self.now.seating.seat_count) }
        ensures free { IfOk result (λ place. is_taken self.now place.table place.seat ≡ false) }
    {
        self.check_going()?;
        self.check_newcomer(name)?;
        self.check_buy(table, seat)
    }

    /// Gives the stack that a player starts with, in chips.
    pub(crate) fn starting_stack(&self) -> u64
        ensures { result ≡ self.now.plan.stack }
    {
        self.plan.stack
    }

    /// Enters a player, who sits down. An error leaves the book as it was.
    #[tactic(auto, using(tournament_rules::proofs::Entries::valid_entered), unfolding(tournament_rules::specs::Checks::book_refusal))]
    pub(crate) fn enter(&mut self, name: Name, table: u64, seat: u64) -> Result<(), BookFault>
        requires { self.old.accepted < 2 ^ 60 }
        ensures answer { IsAnswer (book_refusal self.old (events.Enter name table seat)) result }
        ensures state { OnOk result (self.new ≡ entered self.old name table seat) }
        ensures err { OnErr result (self.new ≡ self.old) }
    {
        let place = self.check_enter(name, table, seat)?;
        let stack = self.starting_stack();
        let player = enlist(&mut self.entries, name)?;
        self.seats.seat(player, name, place, stack);
        self.accepted += 1;
        Ok(())
    }
}
