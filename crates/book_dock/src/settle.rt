//! A hand is settled.

ghost use Rattle.std.specs.Prelude.{◌≡◌, ◌++◌, ◌≤◌, length, map, not, IfSome};
ghost use Rattle.rulebook.specs.Limits.{most_seats};
ghost use Rattle.table_engine.specs.Plays.{IsCompletePlay};
ghost use Rattle.table_engine.specs.Results.{with_stacks};
ghost use Rattle.tournament_events.specs.declared.event.Event.TheVariants as events;
ghost use Rattle.dock_rules.specs.Added.{only_if};
ghost use Rattle.dock_rules.specs.Journals.{Has, entry_told, tale_of};
ghost use Rattle.view_rules.specs.Lines.{stack_after};
ghost use Rattle.book_dock.specs.Ends.{given_back, is_settled};

use crate::hold::BookHold;
use crate::room::StackRoom;
use floor_text::List;
use player_view::{JournalEntry, StackLine};
use std::alloc::Global;
use table_engine::{HandRecord, HandStart};
use tournament_events::Event;

/// What becomes of a hand that is brought back.
#[derive(Drop)]
pub enum SettleEnd {
    /// It is settled.
    Settled,
    /// The tournament is stopped, and the hand is void.
    Stopped(HandRecord),
}

/// Lists the stacks that the players of a hand have after it, in rising seat. It takes no memory.
fn stacks_told(
    alloc: Global,
    room: StackRoom,
    start: HandStart,
    stacks: List<u64>,
) -> Vec<StackLine>
    requires each { length stacks ≡ length start.seats }
    requires few { length (with_stacks start.seats stacks) ≤ most_seats }
    ensures { result.items ≡ map (stack_after start.table) (with_stacks start.seats stacks) }
{
    let acts = List::new(alloc);
    let over = HandRecord {
        start,
        acts,
        stacks,
    };
    let table = over.start.table;
    let players = over.into_players();
    room.after_hand(table, players.items())
}

impl BookHold {
    /// Settles a hand that is over, or hands its record back where the tournament was stopped. It takes no memory.
    pub(crate) fn settle(&mut self, caller: u32, done: HandRecord) -> SettleEnd
        requires has { Has caller done.start (tale_of self.old.journal.items) }
        requires play { IsCompletePlay done }
        ensures ended { is_settled result ≡ not (tale_of self.old.journal.items).ended }
        ensures back { IfSome (given_back result) (λ back. back ≡ done) }
        ensures journal { self.new.journal.items ≡ self.old.journal.items ++ only_if (is_settled result)
            (entry_told (tale_of self.old.journal.items) caller (events.Settle done.start.table) done.acts) }
    {
        if self.book.is_stopped() {
            return SettleEnd::Stopped(done);
        }
        self.book.settle(&done);
        let room = self.rooms.pop().unwrap();
        let HandRecord {
            start,
            acts,
            stacks,
        } = done;
        let table = start.table;
        let lines = stacks_told(self.alloc, room, start, stacks);
        self.journal.push_reserved(JournalEntry {
            caller,
            seed: self.seed,
            event: Event::Settle {
                table: u64::from(table),
            },
            serial: 0,
            acts,
            stacks: List::from_vec(lines),
        });
        SettleEnd::Settled
    }
}
