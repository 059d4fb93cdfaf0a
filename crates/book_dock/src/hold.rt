//! The value behind the lock: the journal, and the book that it comes to.

ghost use Rattle.std.specs.Prelude.{◌≡◌, ◌+◌, ◌<◌, ◌≤◌, ◌^◌, vec_capacity, vec_len, IfOk, OnOk};
ghost use Rattle.seat_book.specs.Players.{players_in};
ghost use Rattle.tournament_rules.specs.Report.{report_of};
ghost use Rattle.dock_rules.specs.Journals.{journal_caller, next_row, tale_of};
ghost use Rattle.dock_rules.specs.Points.{place_named, place_of_name};
ghost use Rattle.dock_rules.specs.Kept.{IsKept, owed};

use crate::room::StackRoom;
use card_set::CardRow;
use floor_book::Book;
use floor_director::deck_of;
use floor_text::Name;
use history_lock::Grows;
use player_view::JournalEntry;
use seat_book::{Place, Seated};
use std::alloc::{AllocError, Global};
use tournament_events::Report;

/// More entries than the journal ever has.
const TOO_MANY: usize = 1 << 60;

/// Room for an entry, and for the settle of a hand at each table.
const ENTRY_ROOM: usize = 66;

/// The journal, and the book. For each hand that is out there is room for the entry that settles it, and for the stacks
/// that are told in it.
#[derive(Drop)]
pub struct BookHold {
    pub(crate) alloc: Global,
    pub(crate) seed: [u8; 32],
    pub(crate) journal: Vec<JournalEntry>,
    pub(crate) book: Book,
    pub(crate) rooms: Vec<StackRoom>,
    /// The journal is legal, and the book is what it comes to.
    pub ghost kept: { IsKept journal.items seed book },
    /// There is room for the settles that are owed.
    pub ghost room: { vec_len journal + owed book ≤ vec_capacity journal },
    pub ghost few: { vec_len journal + owed book < 2 ^ 60 },
    pub ghost rooms_owed: { owed book ≤ vec_len rooms },
}

impl Grows for BookHold {
    type Entry = JournalEntry;

    ghost history = { λ hold. hold.journal.items };

    ghost caller_of = { journal_caller };

    fn count(&self) -> u64 {
        self.journal.len() as u64
    }
}

/// Takes the room for an entry, and for the settle of a hand at each table behind it. Where that would come to 2^60
/// entries it is refused as want of memory.
pub(crate) fn take_room(journal: &mut Vec<JournalEntry>) -> Result<(), AllocError>
    ensures items { journal.new.items ≡ journal.old.items }
    ensures len { vec_len journal.new ≡ vec_len journal.old }
    ensures room { OnOk result (vec_len journal.new + 66 ≤ vec_capacity journal.new) }
    ensures few { OnOk result (vec_len journal.new + 66 < 2 ^ 60) }
    ensures capacity { vec_capacity journal.old ≤ vec_capacity journal.new }
{
    if journal.len() >= TOO_MANY - ENTRY_ROOM {
        return Err(AllocError);
    }
    journal.reserve(ENTRY_ROOM)?;
    Ok(())
}

/// Finds the place of the player of a name among slots, if he sits in one.
fn place_in(slots: &[Option<Seated>], name: Name) -> Option<Place>
    ensures { result ≡ place_named (players_in slots.now) name }
{
    for slot in slots {
        if let Some(seated) = slot {
            if seated.name == name {
                return Some(seated.place);
            }
        }
    }
    None
}

impl BookHold {
    /// Counts the entries: the number of the next draw.
    pub(crate) fn number(&self) -> u64
        ensures { result ≡ (tale_of self.now.journal.items).count }
    {
        self.count()
    }

    /// Gives the row of the deck that comes next.
    pub(crate) fn next_row(&self) -> CardRow
        ensures { result ≡ next_row (tale_of self.now.journal.items) }
    {
        deck_of(self.seed, self.number())
    }

    /// Tells whether the tournament was stopped.
    pub(crate) fn stopped(&self) -> bool
        ensures { result ≡ (tale_of self.now.journal.items).ended }
    {
        self.book.is_stopped()
    }

    /// Finds where the player sits who entered under a name, if one does.
    pub(crate) fn place_of(&self, name: Name) -> Option<Place>
        ensures { result ≡ place_of_name (tale_of self.now.journal.items) name }
    {
        place_in(self.book.seats().slots(), name)
    }

    /// Reports how the tournament stands.
    pub(crate) fn report(&self) -> Result<Report, AllocError>
        ensures { IfOk result (λ report. report ≡ report_of (tale_of self.now.journal.items).state) }
    {
        self.book.report()
    }
}
