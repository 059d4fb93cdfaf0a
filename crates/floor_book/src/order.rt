//! The events that the book takes by itself.

ghost use Rattle.std.specs.Prelude.{◌≡◌, ◌<◌, ◌^◌, true, None, Some, IfOk, IfErr, OnOk, OnErr};
ghost use Rattle.rulebook.specs.Checks.{IsChecked};
ghost use Rattle.table_engine.specs.Acts.{IsAnswer};
ghost use Rattle.tournament_rules.specs.Checks.{book_refusal};
ghost use Rattle.tournament_rules.specs.Effects.{book_effect};
ghost use Rattle.tournament_rules.specs.States.{answered, book_after};
ghost use Rattle.tournament_rules.specs.Kinds.{is_order};

use crate::BookFault;
use crate::book::Book;
use floor_text::Refusal;
use std::alloc::AllocError;
use tournament_events::{Answer, Event};

impl Book {
    /// Checks an order, and changes nothing: an order that meets no check is taken where memory does not run out.
    #[tactic(auto, unfolding(tournament_rules::specs::Checks::book_refusal))]
    pub fn check_order(&self, event: &Event) -> Result<(), Refusal>
        requires { is_order event.now ≡ true }
        ensures ok { OnOk result (book_refusal self.now event.now ≡ None) }
        ensures err { IfErr result (λ refusal. book_refusal self.now event.now ≡ Some refusal) }
    {
        match event {
            Event::Enter { name, table, seat } => {
                self.check_enter(*name, *table, *seat)?;
                Ok(())
            }
            Event::Reenter { name, table, seat } => {
                self.check_reenter(*name, *table, *seat)?;
                Ok(())
            }
            Event::Balance { from, to } => {
                self.check_balance(*from, *to)?;
                Ok(())
            }
            Event::Break {
                table,
                seats,
                names,
            } => {
                self.check_break(*table, seats.items(), names.items())?;
                Ok(())
            }
            Event::Level => self.check_level(),
            Event::Race { table, row } => {
                self.check_race(*table, row)?;
                Ok(())
            }
            Event::Hands(on) => self.check_hands(*on),
            Event::Round => self.check_end_round(),
            _ => self.check_going(),
        }
    }

    /// Carries an order out. An error leaves the book as it was.
    pub fn carry_out(&mut self, event: &Event) -> Result<(), BookFault>
        requires few { self.old.accepted < 2 ^ 60 }
        requires order { is_order event.now ≡ true }
        ensures answer { IsAnswer (book_refusal self.old event.now) result }
        ensures state { OnOk result (self.new ≡ book_effect self.old None event.now) }
        ensures err { OnErr result (self.new ≡ self.old) }
    {
        match event {
            Event::Enter { name, table, seat } => self.enter(*name, *table, *seat),
            Event::Reenter { name, table, seat } => self.reenter(*name, *table, *seat),
            Event::Balance { from, to } => self.balance(*from, *to),
            Event::Break {
                table,
                seats,
                names,
            } => self.break_table(*table, seats.items(), names.items()),
            Event::Level => self.next_level(),
            Event::Race { table, row } => self.race(*table, row),
            Event::Hands(on) => self.hands(*on),
            Event::Round => self.end_round(),
            Event::Stop => self.stop(),
            _ => Ok(()),
        }
    }

    /// Takes an order, which is `enter`, `reenter`, `balance`, `break`, `level`, `race`, `hands`, `round` or `stop`,
    /// answers it by the first check that holds, and carries it out where none does. A refused order and want of memory
    /// change nothing, and memory is wanted only for an order that meets no check.
    pub fn order(&mut self, event: &Event) -> Result<Answer, AllocError>
        requires few { self.old.accepted < 2 ^ 60 }
        requires order { is_order event.now ≡ true }
        ensures answer { IfOk result (λ answer. answer ≡ answered (book_refusal self.old event.now)) }
        ensures state { OnOk result (self.new ≡ book_after self.old event.now) }
        ensures err { OnErr result (self.new ≡ self.old) }
        ensures lawful { OnErr result (book_refusal self.old event.now ≡ None) }
    {
        match self.carry_out(event) {
            Ok(()) => Ok(Answer::Ok),
            Err(BookFault::No(refusal)) => Ok(Answer::No(refusal)),
            Err(BookFault::NoMemory) => Err(AllocError),
        }
    }
}
