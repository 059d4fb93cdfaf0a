//! A hand begins.

ghost use Rattle.std.specs.Prelude.{◌≡◌, ◌++◌, [], IfOk, is_ok};
ghost use Rattle.table_engine.specs.Acts.{IsAnswer};
ghost use Rattle.dock_rules.specs.Added.{only_if};
ghost use Rattle.dock_rules.specs.Journals.{Has, entry_told, tale_of};
ghost use Rattle.dock_rules.specs.Points.{hand_begun, next_begin, refusal_at};

use crate::hold::{BookHold, take_room};
use crate::room::StackRoom;
use floor_book::BookFault;
use floor_text::List;
use player_view::JournalEntry;
use table_engine::Hand;
use tournament_events::Event;

impl BookHold {
    /// Begins a hand at a table, with the deck that comes next, and takes the room for its settle. An error leaves the
    /// journal as it was, and a hand that may not begin draws no deck.
    pub(crate) fn begin(&mut self, caller: u32, table: u8) -> Result<Hand, BookFault>
        ensures answer { IsAnswer (refusal_at (tale_of self.old.journal.items)
            (next_begin (tale_of self.old.journal.items) table)) result }
        ensures hand { IfOk result (λ hand. hand ≡ hand_begun (tale_of self.old.journal.items) table) }
        ensures has { IfOk result (λ hand. Has caller hand.start (tale_of self.new.journal.items)) }
        ensures journal { self.new.journal.items ≡ self.old.journal.items ++ only_if (is_ok result)
            (entry_told (tale_of self.old.journal.items) caller
            (next_begin (tale_of self.old.journal.items) table) []) }
    {
        let number = u64::from(table);
        self.book.check_table_begins(number)?;
        let row = self.next_row();
        let room = StackRoom::new(self.alloc)?;
        self.rooms.reserve(1)?;
        take_room(&mut self.journal)?;
        let hand = self.book.begin(number, &row)?;
        self.rooms.push_reserved(room);
        self.journal.push_reserved(JournalEntry {
            caller,
            seed: self.seed,
            event: Event::Begin { table: number, row },
            serial: hand.start().serial,
            acts: List::new(self.alloc),
            stacks: List::new(self.alloc),
        });
        Ok(hand)
    }
}
