//! What is written of a journal: the events of its entries, and behind them the report.

ghost use Rattle.std.specs.Prelude.{◌⊎◌, ◌≡◌, ◌≢◌, ◌++◌, ◌≤◌, [], ℕ, IfErr, IfSome, IsErrOf, OnOk, map, Err, Some};
ghost use Rattle.std.specs.List.{flat_map};
ghost use Rattle.floor_text.specs.Outside.{Puts, Rose};
ghost use Rattle.replay_rules.specs.Replay.{event_line, final_text, tournament_text};
ghost use Rattle.dock_rules.specs.Journals.{act_event, expand, tale_of};
ghost use Rattle.book_dock.specs.Ends.{journal_of};
ghost use Rattle.command_lines.specs.Endings.{IsOfWriting};
ghost use Rattle.floor_online.specs.EntryText.{entry_text};

use book_dock::BookEnd;
use command_lines::Fault;
use floor_events::{write_event, write_report};
use floor_text::Sink;
use player_view::JournalEntry;
use std::alloc::{AllocError, Global};
use table_engine::ActOf;
use tournament_events::Event;

/// Writes an event and a line feed.
fn push_event(event: &Event, text: &mut Vec<u8>) -> Result<(), AllocError>
    ensures { OnOk result (text.new.items ≡ text.old.items ++ event_line event.now) }
{
    write_event(event, text)?;
    text.push(b'\n')?;
    Ok(())
}

/// Gives an act at a table as an event.
fn act_event(table: u64, act: &ActOf) -> Event
    ensures { result ≡ act_event table act.now }
{
    if act.by_time {
        return Event::Time { table };
    }
    Event::Act {
        table,
        name: act.name,
        act: act.act,
    }
}

/// Writes acts at a table as events, each with a line feed.
fn push_acts(table: u64, acts: &[ActOf], text: &mut Vec<u8>) -> Result<(), AllocError>
    ensures { OnOk result (text.new.items
        ≡ text.old.items ++ flat_map event_line (map (act_event table) acts.now)) }
{
    for act in acts {
        push_event(&act_event(table, act), text)?;
    }
    Ok(())
}

/// Writes the events of an entry, each with a line feed: before a settle the acts of its hand, and then its own.
fn push_entry(entry: &JournalEntry, text: &mut Vec<u8>) -> Result<(), AllocError>
    ensures { OnOk result (text.new.items ≡ text.old.items ++ entry_text entry.now) }
{
    if let Event::Settle { table } = &entry.event {
        push_acts(*table, entry.acts.items(), text)?;
    }
    push_event(&entry.event, text)
}

/// Puts the events of an entry by one put. They may be held back until the next put.
fn put_entry<O: Sink>(entry: &JournalEntry, text: &mut Vec<u8>, out: &mut O) -> Result<(), Fault>
    ensures bytes { IfSome (O.written out.old)
        (λ before. Puts before (entry_text entry.now) (O.written out.new) result) }
    ensures later { O.faults out.old ≤ O.faults out.new }
    ensures write { IsErrOf result Fault.Write → Rose (O.faults out.old) (O.faults out.new) }
    ensures others { IfErr result IsOfWriting }
{
    text.clear();
    push_entry(entry, text)?;
    out.put_later(text)?;
    Ok(())
}

/// Puts the events of entries, those of each entry by one put. They may be held back until the next put.
fn put_entries<O: Sink>(
    entries: &[JournalEntry],
    text: &mut Vec<u8>,
    out: &mut O,
) -> Result<(), Fault>
    ensures bytes { IfSome (O.written out.old)
        (λ before. Puts before (flat_map entry_text entries.now) (O.written out.new) result) }
    ensures later { O.faults out.old ≤ O.faults out.new }
    ensures write { IsErrOf result Fault.Write → Rose (O.faults out.old) (O.faults out.new) }
    ensures others { IfErr result IsOfWriting }
{
    for entry in entries {
        put_entry(entry, text, out)?;
    }
    Ok(())
}

/// Writes the report in the place of what was written before.
#[tactic(auto, unfolding(replay_rules::specs::Replay::final_text))]
fn write_end(end: &BookEnd, text: &mut Vec<u8>) -> Result<(), AllocError>
    ensures { OnOk result (text.new.items ≡ final_text (tale_of (journal_of end.now)).state) }
{
    text.clear();
    write_report(&end.report()?, text)
}

/// Puts the report, by one put. Nothing is held back behind it.
fn put_report<O: Sink>(end: &BookEnd, text: &mut Vec<u8>, out: &mut O) -> Result<(), Fault>
    ensures bytes { IfSome (O.written out.old)
        (λ before. Puts before (final_text (tale_of (journal_of end.now)).state) (O.written out.new) result) }
    ensures let_go { OnOk result (O.held out.new ≡ []) }
    ensures later { O.faults out.old ≤ O.faults out.new }
    ensures write { IsErrOf result Fault.Write → Rose (O.faults out.old) (O.faults out.new) }
    ensures others { IfErr result IsOfWriting }
{
    write_end(end, text)?;
    out.put(text)?;
    Ok(())
}

/// Has `out` let go of what was put before, where memory ran out in the midst. A failure of that is a failure of `out`.
fn let_go<O: Sink>(ran: Result<(), Fault>, out: &mut O) -> Result<(), Fault>
    ensures kept { IfSome (O.written out.old) (λ text. O.written out.new ≡ Some text) }
    ensures let_go { result ≡ Err Fault.NoMemory → O.held out.new ≡ [] }
    ensures same { ran ≢ Err Fault.NoMemory → out.new ≡ out.old }
    ensures later { O.faults out.old ≤ O.faults out.new }
    ensures ran { (result ≡ ran) ⊎ ((result ≡ Err Fault.Write) × Rose (O.faults out.old) (O.faults out.new)) }
{
    if ran == Err(Fault::NoMemory) {
        out.put(b"")?;
    }
    ran
}

/// Puts the events of a journal and its report.
fn put_all<O: Sink>(alloc: Global, end: &BookEnd, out: &mut O) -> Result<(), Fault>
    ensures bytes { IfSome (O.written out.old)
        (λ before. Puts before (tournament_text (expand (journal_of end.now))) (O.written out.new) result) }
    ensures let_go { OnOk result (O.held out.new ≡ []) }
    ensures later { O.faults out.old ≤ O.faults out.new }
    ensures write { IsErrOf result Fault.Write → Rose (O.faults out.old) (O.faults out.new) }
    ensures others { IfErr result IsOfWriting }
{
    let mut text = Vec::new(alloc);
    put_entries(end.journal(), &mut text, out)?;
    put_report(end, &mut text, out)
}

/// Writes the text of a served tournament: the events of its journal, with the acts of each settled hand before its
/// settle, and then its report.
pub(crate) fn write_text<O: Sink>(alloc: Global, end: &BookEnd, out: &mut O) -> Result<(), Fault>
    ensures bytes { IfSome (O.written out.old)
        (λ before. Puts before (tournament_text (expand (journal_of end.now))) (O.written out.new) result) }
    ensures let_go { OnOk result (O.held out.new ≡ []) }
    ensures memory_let_go { IsErrOf result Fault.NoMemory → O.held out.new ≡ [] }
    ensures later { O.faults out.old ≤ O.faults out.new }
    ensures write { IsErrOf result Fault.Write → Rose (O.faults out.old) (O.faults out.new) }
    ensures others { IfErr result IsOfWriting }
{
    let ran = put_all(alloc, end, out);
    let_go(ran, out)
}
