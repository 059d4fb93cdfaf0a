//! That the events of a journal may be written as lines, which their names tell and its lock keeps.

ghost use Rattle.std.specs.Prelude.{All};
ghost use Rattle.std.specs.List.{AllByRecursion};
ghost use Rattle.floor_events.specs.Spelling.{IsWritable};
ghost use Rattle.view_rules.specs.declared.entries.JournalEntry.{JournalEntry};
ghost use Rattle.dock_rules.specs.Journals.{IsLegalJournal, expand};
ghost use Rattle.book_dock.specs.Ends.{journal_of};
ghost use Rattle.floor_crew.specs.EnteredNames.{EntersByName};

use book_dock::BookEnd;
use player_view::JournalEntry;
use tournament_events::Event;

/// Says that whoever enters by an event has a name that a line may hold, as each `Name` is one. It does nothing.
fn entrant_is_named(event: &Event)
    ensures { EntersByName event.now }
{
    if let Event::Enter { name, .. } = event {
        let _ = name.bytes();
    }
}

/// Says the same of each entry. It does nothing.
fn entrants_are_named(entries: &[JournalEntry])
    ensures { All (λ (entry : JournalEntry). EntersByName entry.event) entries.now }
{
    for entry in entries {
        entrant_is_named(&entry.event);
    }
}

/// Says that each event of a legal journal may be written as a line: who enters has a name, and all else follows from
/// what the floor accepts. It does nothing.
pub(crate) fn events_are_writable(end: &BookEnd)
    ensures { IsLegalJournal (journal_of end.now) → AllByRecursion IsWritable (expand (journal_of end.now)) }
{
    entrants_are_named(end.journal());
}
