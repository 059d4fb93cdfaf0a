//! The journal's first entries: the lines of the plan, and their end.

ghost use Rattle.std.specs.Prelude.{◌≡◌, ◌++◌, ◌∷◌, [], map, Ok, IfOk, OnOk};
ghost use Rattle.level_plan.specs.Drafts.{empty_draft};
ghost use Rattle.plan_files.specs.PlanLines.{lines_of_plan, plan_of_lines};
ghost use Rattle.tournament_events.specs.declared.event.Event.TheVariants as events;
ghost use Rattle.tournament_rules.specs.Effects.{first_book};
ghost use Rattle.history_lock.specs.Limits.{opener};
ghost use Rattle.dock_rules.specs.Journals.{plain_entry};
ghost use Rattle.book_dock.specs.Opening.{opening};

use crate::hold::{BookHold, take_room};
use floor_book::Book;
use floor_text::List;
use history_lock::OPENER;
use level_plan::{Plan, PlanLine};
use plan_files::plan_lines;
use player_view::JournalEntry;
use std::alloc::{AllocError, Global};
use tournament_events::Event;

/// Makes the opener's entry of an event of the plan.
fn plan_entry(alloc: Global, seed: [u8; 32], event: Event) -> JournalEntry
    ensures { result ≡ plain_entry opener seed event }
{
    JournalEntry {
        caller: OPENER,
        seed,
        event,
        serial: 0,
        acts: List::new(alloc),
        stacks: List::new(alloc),
    }
}

/// Puts the entries of a plan's lines behind others.
fn push_lines(
    alloc: Global,
    seed: [u8; 32],
    lines: Vec<PlanLine>,
    journal: &mut Vec<JournalEntry>,
) -> Result<(), AllocError>
    ensures { OnOk result (journal.new.items
        ≡ journal.old.items ++ map (λ line. plain_entry opener seed (events.Plan line)) lines.items) }
{
    for line in lines {
        journal.push(plan_entry(alloc, seed, Event::Plan(line)))?;
    }
    Ok(())
}

/// Makes the journal of a plan: its lines, and their end.
fn plan_journal(alloc: Global, seed: [u8; 32], plan: &Plan) -> Result<Vec<JournalEntry>, AllocError>
    ensures items { IfOk result (λ journal. journal.items ≡ opening seed plan.now) }
    ensures again { OnOk result (plan_of_lines empty_draft (lines_of_plan plan.now) ≡ Ok plan.now) }
{
    let mut journal = Vec::new(alloc);
    push_lines(alloc, seed, plan_lines(alloc, plan)?, &mut journal)?;
    journal.push(plan_entry(alloc, seed, Event::Go))?;
    Ok(journal)
}

impl BookHold {
    /// Opens the book of a plan, before any entry of a player.
    pub(crate) fn new(alloc: Global, seed: [u8; 32], plan: Plan) -> Result<BookHold, AllocError>
        ensures items { IfOk result (λ hold. hold.journal.items ≡ opening seed plan) }
        ensures book { IfOk result (λ hold. hold.book ≡ first_book plan) }
        ensures seed { IfOk result (λ hold. hold.seed ≡ seed) }
    {
        let mut journal = plan_journal(alloc, seed, &plan)?;
        take_room(&mut journal)?;
        let book = Book::new(alloc, plan)?;
        Ok(BookHold {
            alloc,
            seed,
            journal,
            book,
            rooms: Vec::new(alloc),
        })
    }
}
