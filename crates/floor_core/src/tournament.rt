//! The sequential tournament.

ghost use Rattle.std.specs.Prelude.{◌≡◌, ◌<◌, ◌^◌, ℕ, true, false, None, is_some, option_map, if◌then◌else◌, IfOk, OnOk, OnErr};
ghost use Rattle.std.specs.Option.{ForSome, option_copied, option_map_or, option_and_then};
ghost use Rattle.seat_book.specs.Seatings.{empty_seating};
ghost use Rattle.tournament_events.specs.declared.answer.Answer.TheVariants as answers;
ghost use Rattle.tournament_events.specs.declared.event.Event.TheVariants as events;
ghost use Rattle.card_set.specs.declared.card.CardRow.{CardRow};
ghost use Rattle.table_engine.specs.Starts.{IsLawfulStart};
ghost use Rattle.tournament_rules.specs.Dealing.{next_start};
ghost use Rattle.tournament_rules.specs.Checks.{is_playing};
ghost use Rattle.tournament_rules.specs.States.{first_state, hand_at, answer_to, state_after, effect, is_accepted, is_over_state};
ghost use Rattle.tournament_rules.specs.Valid.{IsValid};
ghost use Rattle.tournament_rules.specs.Report.{report_of, empty_report};

use crate::plan::take_line;
use crate::play::Play;
use betting_round::Act;
use floor_book::{Book, BookFault};
use floor_text::{List, Name, Refusal};
use level_plan::{PlanDraft, PlanFault};
use seat_book::SeatBook;
use std::alloc::{AllocError, Global};
use std::marker::Model;
use table_engine::Hand;
use tournament_events::{Answer, Event, Report};

/// The sequential tournament: a plan's draft until `go`, and then a book and its hands. Contracts see it as a
/// `State`.
#[derive(Drop)]
pub struct Tournament {
    alloc: Global,
    draft: PlanDraft,
    play: Option<Play>,
    accepted: u64,
    /// The seats before there is a plan: one table of two seats, where nobody sits.
    nobody: SeatBook,
}

impl Model for Tournament {
    ghost use Rattle.std.specs.Prelude.{◌≡◌, ◌≤◌};
    ghost use Rattle.std.specs.Option.{ForSome};
    ghost use Rattle.seat_book.specs.Seatings.{empty_seating};
    ghost use Rattle.tournament_rules.specs.States.{State};

    ghost Value = { State };

    ghost view = { λ fields. record { draft = fields.draft; play = fields.play; accepted = fields.accepted } };

    // What the book accepted is accepted, and nobody sits before there is a plan.
    ghost invariant = { λ fields. ForSome fields.play (λ play. play.book.accepted ≤ fields.accepted)
        × (fields.nobody ≡ empty_seating 1 2) };
}

impl Tournament {
    /// Makes a tournament before any event.
    pub fn new(alloc: Global) -> Result<Tournament, AllocError>
        ensures { IfOk result (λ tournament. tournament ≡ first_state) }
    {
        let nobody = SeatBook::new(alloc, 1, 2)?;
        Ok(Tournament {
            alloc,
            draft: PlanDraft::new(alloc),
            play: None,
            accepted: 0,
            nobody,
        })
    }

    /// Takes an event while there is no plan: the plan's lines and its end, and no other.
    fn plan(&mut self, event: &Event) -> Result<Answer, AllocError>
        requires { self.old.play ≡ None }
        ensures answer { IfOk result (λ answer. answer ≡ answer_to self.old event.now) }
        ensures state { OnOk result (self.new ≡
            (if is_accepted (answer_to self.old event.now) then effect self.old event.now else self.old)) }
        ensures err { OnErr result (self.new ≡ self.old) }
        ensures lawful { OnErr result (answer_to self.old event.now ≡ answers.Ok) }
    {
        match event {
            Event::Plan(line) => take_line(&mut self.draft, line),
            Event::Go => self.go(),
            _ => Ok(Answer::No(Refusal::NoPlan)),
        }
    }

    /// Ends the plan.
    fn go(&mut self) -> Result<Answer, AllocError>
        requires { self.old.play ≡ None }
        ensures answer { IfOk result (λ answer. answer ≡ answer_to self.old events.Go) }
        ensures state { OnOk result (self.new ≡
            (if is_accepted (answer_to self.old events.Go) then effect self.old events.Go else self.old)) }
        ensures err { OnErr result (self.new ≡ self.old) }
        ensures lawful { OnErr result (answer_to self.old events.Go ≡ answers.Ok) }
    {
        match self.draft.go() {
            Ok(plan) => {
                self.play = Some(Play::new(self.alloc, plan)?);
                Ok(Answer::Ok)
            }
            Err(PlanFault::Wrong(item)) => Ok(Answer::PlanWrong(item)),
            Err(PlanFault::NoMemory) => Err(AllocError),
        }
    }

    /// Takes an event once there is a plan.
    fn play(&mut self, event: &Event) -> Result<Answer, AllocError>
        requires few { self.old.accepted < 2 ^ 60 }
        requires playing { is_some self.old.play ≡ true }
        ensures answer { IfOk result (λ answer. answer ≡ answer_to self.old event.now) }
        ensures state { OnOk result (self.new ≡ state_after self.old event.now) }
        ensures err { OnErr result (self.new ≡ self.old) }
        ensures lawful { OnErr result (answer_to self.old event.now ≡ answers.Ok) }
        ensures valid { ForSome self.old.play (λ play. IsValid play.book) }
    {
        match self.play.as_mut().unwrap().take(event) {
            Ok(()) => {
                self.accepted += 1;
                Ok(Answer::Ok)
            }
            Err(BookFault::No(refusal)) => Ok(Answer::No(refusal)),
            Err(BookFault::NoMemory) => Err(AllocError),
        }
    }

    /// Answers an act as `apply` does, by the first check that holds, and carries it out where none does. No event is
    /// made of it, since most of what a tournament takes are acts. A refused act and want of memory change nothing.
    pub fn act(&mut self, table: u64, name: Name, act: Act) -> Result<Answer, AllocError>
        requires { self.old.accepted < 2 ^ 60 }
        ensures answer { IfOk result (λ answer. answer ≡ answer_to self.old (events.Act table name act)) }
        ensures state { OnOk result (self.new ≡ state_after self.old (events.Act table name act)) }
        ensures err { OnErr result (self.new ≡ self.old) }
        ensures lawful { OnErr result (answer_to self.old (events.Act table name act) ≡ answers.Ok) }
    {
        let Some(play) = &mut self.play else {
            return Ok(Answer::No(Refusal::NoPlan));
        };
        match play.act(table, name, act) {
            Ok(()) => {
                self.accepted += 1;
                Ok(Answer::Ok)
            }
            Err(BookFault::No(refusal)) => Ok(Answer::No(refusal)),
            Err(BookFault::NoMemory) => Err(AllocError),
        }
    }

    /// Answers an event by the first check that holds, and carries it out where none does. A refused event and
    /// want of memory change nothing, and memory is wanted only for an event that meets no check.
    pub fn apply(&mut self, event: &Event) -> Result<Answer, AllocError>
        requires { self.old.accepted < 2 ^ 60 }
        ensures answer { IfOk result (λ answer. answer ≡ answer_to self.old event.now) }
        ensures state { OnOk result (self.new ≡ state_after self.old event.now) }
        ensures err { OnErr result (self.new ≡ self.old) }
        ensures lawful { OnErr result (answer_to self.old event.now ≡ answers.Ok) }
        // A hand that begins starts lawfully.
        ensures start { (table : ℕ) (row : CardRow) → event.now ≡ events.Begin table row
            → IfOk result (λ answer. answer ≡ answers.Ok
            → ForSome self.old.play (λ play. IsLawfulStart (next_start play.book table row.cards))) }
    {
        if self.play.is_some() {
            return self.play(event);
        }
        let answer = self.plan(event)?;
        if answer == Answer::Ok {
            self.accepted += 1;
        }
        Ok(answer)
    }

    /// Counts the events that were accepted. `apply` asks that they are fewer than 2^60.
    pub fn accepted(&self) -> u64
        ensures { result ≡ self.now.accepted }
    {
        self.accepted
    }

    /// Gives the book, once there is a plan.
    pub fn book(&self) -> Option<&Book>
        ensures book { option_copied result ≡ option_map (λ play. play.book) self.now.play }
    {
        match &self.play {
            Some(play) => Some(&play.book),
            None => None,
        }
    }

    /// Gives the seats: who sits where, with which stack at rest, and how each table stands. Before there is a plan
    /// nobody sits.
    pub fn seats(&self) -> &SeatBook
        ensures seats { result.now
            ≡ option_map_or (λ play. play.book.seating) self.now.play (empty_seating 1 2) }
    {
        match &self.play {
            Some(play) => play.book.seats(),
            None => &self.nobody,
        }
    }

    /// Gives the hand that is played at a table. `None` exactly where the table is not playing.
    pub fn hand(&self, table: u8) -> Option<&Hand>
        ensures hand { option_copied result ≡ option_and_then (λ play. hand_at play table) self.now.play }
        ensures none { is_some result ≡ option_map_or (λ play. is_playing play.book table) self.now.play false }
    {
        match &self.play {
            Some(play) => play.hand(table),
            None => None,
        }
    }

    /// Tells whether the tournament is over, which it is not before there is a plan.
    pub fn over(&self) -> bool
        ensures { result ≡ is_over_state self.now }
    {
        match &self.play {
            Some(play) => play.book.over(),
            None => false,
        }
    }

    /// Reports the tournament as it stands.
    pub fn report(&self) -> Result<Report, AllocError>
        ensures { IfOk result (λ report. report ≡ report_of self.now) }
    {
        match &self.play {
            Some(play) => play.book.report(),
            None => Ok(empty_report(self.alloc)),
        }
    }
}

/// Reports a tournament that has no plan.
fn empty_report(alloc: Global) -> Report
    ensures { result ≡ empty_report }
{
    Report {
        level: 0,
        sold: 0,
        removed: 0,
        added: 0,
        rest: 0,
        play: 0,
        seats: List::new(alloc),
        outs: List::new(alloc),
    }
}
