//! Rounds of hand-for-hand.

ghost use Rattle.std.specs.Prelude.{◌≡◌, ◌<◌, ◌+◌, ◌^◌, if◌then◌else◌, OnOk, OnErr};
ghost use Rattle.rulebook.specs.Checks.{IsChecked};
ghost use Rattle.table_engine.specs.Acts.{IsAnswer};
ghost use Rattle.tournament_events.specs.declared.event.Event.TheVariants as events;
ghost use Rattle.tournament_rules.specs.Checks.{hands_checks, end_round_checks, book_refusal};
ghost use Rattle.tournament_rules.specs.Effects.{with_hands, round_ended};

use crate::BookFault;
use crate::book::Book;
use floor_text::Refusal;
use hand_rounds::{end_round, may_close, may_switch, set_hands};

/// Gives the group of those who go out next, where hand-for-hand is on or off: the same, or a later one.
pub(crate) fn group_after(hands: bool, group: u64) -> u64
    requires { group < 2 ^ 60 }
    ensures { result ≡ (if hands then group else group + 1) }
{
    if hands { group } else { group + 1 }
}

impl Book {
    /// Makes the checks of a switch of hand-for-hand.
    pub(crate) fn check_hands(&self, on: bool) -> Result<(), Refusal>
        ensures { IsChecked (hands_checks self.now on) result }
    {
        self.check_going()?;
        may_switch(&self.seats, on)?;
        self.check_not_over()
    }

    /// Switches hand-for-hand on or off. An error leaves the book as it was. It takes no memory.
    #[tactic(auto, using(tournament_rules::proofs::Rounds::valid_with_hands), unfolding(tournament_rules::specs::Checks::book_refusal))]
    pub(crate) fn hands(&mut self, on: bool) -> Result<(), BookFault>
        requires { self.old.accepted < 2 ^ 60 }
        ensures answer { IsAnswer (book_refusal self.old (events.Hands on)) result }
        ensures state { OnOk result (self.new ≡ with_hands self.old on) }
        ensures err { OnErr result (self.new ≡ self.old) }
    {
        self.check_hands(on)?;
        set_hands(&mut self.seats, on);
        self.group = group_after(on, self.group);
        self.accepted += 1;
        Ok(())
    }

    /// Makes the checks of the end of a round.
    pub(crate) fn check_end_round(&self) -> Result<(), Refusal>
        ensures { IsChecked (end_round_checks self.now) result }
    {
        self.check_going()?;
        may_close(&self.seats)?;
        self.check_not_over()
    }

    /// Ends a round of hand-for-hand. An error leaves the book as it was. It takes no memory.
    #[tactic(auto, using(tournament_rules::proofs::Rounds::valid_round_ended), unfolding(tournament_rules::specs::Checks::book_refusal))]
    pub(crate) fn end_round(&mut self) -> Result<(), BookFault>
        requires { self.old.accepted < 2 ^ 60 }
        ensures answer { IsAnswer (book_refusal self.old events.Round) result }
        ensures state { OnOk result (self.new ≡ round_ended self.old) }
        ensures err { OnErr result (self.new ≡ self.old) }
    {
        self.check_end_round()?;
        end_round(&mut self.seats);
        self.group += 1;
        self.accepted += 1;
        Ok(())
    }
}
