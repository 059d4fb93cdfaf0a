//! The lines of the floor.

ghost use Rattle.std.specs.Prelude.{◌≡◌, ◌∷◌, ◌++◌, map, OnOk, OnErr};
ghost use Rattle.std.specs.List.{flat_map};
ghost use Rattle.line_words.specs.Words.{Extends};
ghost use Rattle.view_rules.specs.Spelling.{BeginLine, EventLine, Floor, RaceLine, SettleLine, StackIs, line_text, lines_text};
ghost use Rattle.view_rules.specs.Lines.{floor_lines};
ghost use Rattle.view_rules.specs.Entries.{journal_lines};

use crate::line::{push_floor, push_floor_line};
use floor_events::write_event;
use line_words::Word;
use std::alloc::AllocError;
use tournament_events::Event;
use view_rules::{JournalEntry, StackLine};

/// Writes that a hand has begun, with its number.
#[tactic(auto, unfolding(view_rules::specs::Spelling::line_text))]
fn push_begin(table: u64, serial: u64, out: &mut Vec<u8>) -> Result<(), AllocError>
    ensures ok { OnOk result (out.new.items ≡ out.old.items ++ line_text (Floor (BeginLine table serial))) }
    ensures kept { Extends out.old.items out.new.items }
{
    push_floor_line(
        &[
            Word::Text(b"begin"),
            Word::Number(table),
            Word::Number(serial),
        ],
        out,
    )
}

/// Writes the line of a stack.
#[tactic(auto, unfolding(view_rules::specs::Spelling::line_text))]
fn push_stack(line: &StackLine, out: &mut Vec<u8>) -> Result<(), AllocError>
    ensures ok { OnOk result (out.new.items ≡ out.old.items ++ line_text (Floor (StackIs line.now))) }
    ensures kept { Extends out.old.items out.new.items }
{
    push_floor_line(
        &[
            Word::Text(b"stack"),
            Word::Number(u64::from(line.place.table)),
            Word::Number(u64::from(line.place.seat)),
            Word::Text(line.name.bytes()),
            Word::Number(line.stack),
        ],
        out,
    )
}

/// Writes the lines of stacks, one after another.
fn push_stacks(stacks: &[StackLine], out: &mut Vec<u8>) -> Result<(), AllocError>
    ensures ok { OnOk result (out.new.items
        ≡ out.old.items ++ flat_map (λ line. line_text (Floor (StackIs line))) stacks.now) }
    ensures kept { Extends out.old.items out.new.items }
{
    for line in stacks {
        push_stack(line, out)?;
    }
    Ok(())
}

/// Writes that the hand at a table is settled.
#[tactic(auto, unfolding(view_rules::specs::Spelling::line_text))]
fn push_settle(table: u64, out: &mut Vec<u8>) -> Result<(), AllocError>
    ensures ok { OnOk result (out.new.items ≡ out.old.items ++ line_text (Floor (SettleLine table))) }
    ensures kept { Extends out.old.items out.new.items }
{
    push_floor_line(&[Word::Text(b"settle"), Word::Number(table)], out)
}

/// Writes that the hand at a table is settled, and the stacks after it.
fn push_settled(table: u64, stacks: &[StackLine], out: &mut Vec<u8>) -> Result<(), AllocError>
    ensures ok { OnOk result (out.new.items
        ≡ out.old.items ++ lines_text (map Floor (SettleLine table ∷ map StackIs stacks.now))) }
    ensures kept { Extends out.old.items out.new.items }
{
    push_settle(table, out)?;
    push_stacks(stacks, out)
}

/// Writes that the chip race at a table is made.
#[tactic(auto, unfolding(view_rules::specs::Spelling::line_text))]
fn push_race(table: u64, out: &mut Vec<u8>) -> Result<(), AllocError>
    ensures ok { OnOk result (out.new.items ≡ out.old.items ++ line_text (Floor (RaceLine table))) }
    ensures kept { Extends out.old.items out.new.items }
{
    push_floor_line(&[Word::Text(b"race"), Word::Number(table)], out)
}

/// Writes that the chip race at a table is made, and the stacks after it.
fn push_raced(table: u64, stacks: &[StackLine], out: &mut Vec<u8>) -> Result<(), AllocError>
    ensures ok { OnOk result (out.new.items
        ≡ out.old.items ++ lines_text (map Floor (RaceLine table ∷ map StackIs stacks.now))) }
    ensures kept { Extends out.old.items out.new.items }
{
    push_race(table, out)?;
    push_stacks(stacks, out)
}

/// Writes an event as it was given.
#[tactic(auto, unfolding(view_rules::specs::Spelling::line_text))]
fn push_event(event: &Event, out: &mut Vec<u8>) -> Result<(), AllocError>
    ensures ok { OnOk result (out.new.items ≡ out.old.items ++ line_text (Floor (EventLine event.now))) }
    ensures kept { Extends out.old.items out.new.items }
{
    push_floor(out)?;
    write_event(event, out)?;
    out.push(b'\n')?;
    Ok(())
}

/// Writes what the floor tells of an event, with the number of the hand that it begins and the stacks that are told
/// with it. Where memory runs out, `out` has something behind what it had.
pub fn push_floor_lines(
    event: &Event,
    serial: u64,
    stacks: &[StackLine],
    out: &mut Vec<u8>,
) -> Result<(), AllocError>
    ensures ok { OnOk result (out.new.items
        ≡ out.old.items ++ lines_text (map Floor (floor_lines event.now serial stacks.now))) }
    ensures kept { Extends out.old.items out.new.items }
{
    match event {
        Event::Begin { table, .. } => push_begin(*table, serial, out),
        Event::Act { .. } | Event::Time { .. } => Ok(()),
        Event::Settle { table } => push_settled(*table, stacks, out),
        Event::Race { table, .. } => push_raced(*table, stacks, out),
        _ => push_event(event, out),
    }
}

/// Writes the lines of an entry of the floor at the end of `out`. After want of memory `out` is as before.
#[tactic(auto, unfolding(view_rules::specs::Entries::journal_lines))]
pub fn floor_lines(entry: &JournalEntry, out: &mut Vec<u8>) -> Result<(), AllocError>
    ensures ok { OnOk result (out.new.items ≡ out.old.items ++ lines_text (journal_lines entry.now)) }
    ensures err { OnErr result (out.new.items ≡ out.old.items) }
{
    let before = out.len();
    let written = push_floor_lines(&entry.event, entry.serial, entry.stacks.items(), out);
    if written.is_err() {
        out.truncate(before);
    }
    written
}
