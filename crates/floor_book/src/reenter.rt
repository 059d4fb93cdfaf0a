//! A player who is out enters again.

ghost use Rattle.std.specs.Prelude.{◌≡◌, ◌<◌, ◌^◌, false, IfOk, OnOk, OnErr};
ghost use Rattle.rulebook.specs.Limits.{most_entries};
ghost use Rattle.rulebook.specs.Checks.{IsChecked};
ghost use Rattle.seat_book.specs.Places.{IsPlaceOf};
ghost use Rattle.table_engine.specs.Acts.{IsAnswer};
ghost use Rattle.tournament_events.specs.declared.event.Event.TheVariants as events;
ghost use Rattle.tournament_rules.specs.Books.{number_in};
ghost use Rattle.tournament_rules.specs.Checks.{is_taken, out_checks, reenter_checks, book_refusal};
ghost use Rattle.tournament_rules.specs.Effects.{reentered};

use crate::BookFault;
use crate::book::Book;
use floor_text::{Name, Refusal};
use seat_book::Place;

/// A player who may re-enter, and where he sits down.
#[derive(Clone, Copy)]
pub(crate) struct Returner {
    /// His number.
    pub(crate) player: u32,
    /// His place.
    pub(crate) place: Place,
}

impl Book {
    /// Gives the number of the player who entered under a name, and 0 where nobody did.
    fn number_in(&self, name: Name) -> u32
        ensures number { result ≡ number_in self.now name }
        ensures entry { result < most_entries }
    {
        self.entries.find(name).unwrap_or(0)
    }

    /// Checks that a player has no seat.
    fn check_out(&self, name: Name, player: u32) -> Result<(), Refusal>
        requires number { player ≡ number_in self.now name }
        requires entry { player < most_entries }
        ensures { IsChecked (out_checks self.now name) result }
    {
        if self.seats.find(player).is_some() {
            return Err(Refusal::StillIn);
        }
        Ok(())
    }

    /// Makes the checks of a re-entry, and gives the player and the place where he sits down.
    pub(crate) fn check_reenter(
        &self,
        name: Name,
        table: u64,
        seat: u64,
    ) -> Result<Returner, Refusal>
        ensures checked { IsChecked (reenter_checks self.now name table seat) result }
        ensures number { IfOk result (λ returner. returner.player ≡ number_in self.now name) }
        ensures entry { IfOk result (λ returner. returner.player < most_entries) }
        ensures same { IfOk result (λ returner. returner.place ≡ record { table = table; seat = seat }) }
        ensures within { IfOk result (λ returner.
            IsPlaceOf self.now.seating.table_count self.now.seating.seat_count returner.place) }
        ensures free { IfOk result (λ returner.
            is_taken self.now returner.place.table returner.place.seat ≡ false) }
    {
        self.check_going()?;
        self.check_known(name)?;
        let place = self.check_buy(table, seat)?;
        let player = self.number_in(name);
        self.check_out(name, player)?;
        Ok(Returner { player, place })
    }

    /// Enters a player again who is out: he sits down, and his row leaves the list of those who are out. It takes no
    /// memory. An error leaves the book as it was.
    #[tactic(auto, using(tournament_rules::proofs::Entries::valid_reentered), unfolding(tournament_rules::specs::Checks::book_refusal))]
    pub(crate) fn reenter(&mut self, name: Name, table: u64, seat: u64) -> Result<(), BookFault>
        requires { self.old.accepted < 2 ^ 60 }
        ensures answer { IsAnswer (book_refusal self.old (events.Reenter name table seat)) result }
        ensures state { OnOk result (self.new ≡ reentered self.old name table seat) }
        ensures err { OnErr result (self.new ≡ self.old) }
    {
        let returner = self.check_reenter(name, table, seat)?;
        let stack = self.starting_stack();
        self.busts.take_back(returner.player);
        self.seats
            .seat(returner.player, name, returner.place, stack);
        self.reentries += 1;
        self.accepted += 1;
        Ok(())
    }
}
