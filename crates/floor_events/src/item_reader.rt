//! Lines are read as items.

ghost use Rattle.std.specs.Prelude.{◌≡◌, codes, Some, option_map, IfOk, OnErr, IfSome, IsSome};
ghost use Rattle.tournament_events.specs.declared.event.Event.TheVariants as events;
ghost use Rattle.tournament_events.specs.declared.event.Item.{Item};
ghost use Rattle.tournament_events.specs.declared.event.Item.TheVariants as items;
ghost use Rattle.line_words.specs.Rows.{read_by};
ghost use Rattle.floor_events.specs.Grammar.{plan_rows, plain_rows, is_note, item_of_words, item_of_bytes};
ghost use Rattle.floor_events.specs.Spelling.{IsLineOf};

use crate::list_reader::{read_break, read_shares};
use floor_text::LONGEST_LINE;
use level_plan::{Blind, PlanLine};
use line_words::{LineWords, is};
use std::alloc::{AllocError, Global};
use tournament_events::{Event, Item};

/// Gives the item of a line of a plan.
fn plan_item(line: PlanLine) -> Item
    ensures { result ≡ items.Event (events.Plan line) }
{
    Item::Event(Event::Plan(line))
}

/// Reads a level of a plan. It is a function of its own, since its numbers take much room.
#[inline(never)]
#[tactic(auto, unfolding(line_words::specs::Rows::read_fields))]
fn read_blinds(line: &mut LineWords<'_>) -> Option<Item>
    ensures { result ≡ option_map items.Event (read_by plan_rows (codes "blinds") line.old) }
{
    Some(plan_item(PlanLine::Blinds(Blind {
        small: line.field()?,
        big: line.field()?,
        unit: line.field()?,
        ante: line.amount_if_any()?,
    })))
}

/// Reads a line of a plan that has no list by its first word. It is a function of its own, since few lines are a
/// plan's.
#[inline(never)]
#[tactic(auto, unfolding(line_words::specs::Rows::read_fields))]
fn read_plan_fields(word: &[u8], line: &mut LineWords<'_>) -> Option<Item>
    ensures { result ≡ option_map items.Event (read_by plan_rows word.now line.old) }
{
    match word {
        _ if is(word, b"game") => Some(plan_item(PlanLine::Game(line.last_field()?))),
        _ if is(word, b"tables") => Some(plan_item(PlanLine::Tables(line.last_field()?))),
        _ if is(word, b"seats") => Some(plan_item(PlanLine::Seats(line.last_field()?))),
        _ if is(word, b"stack") => Some(plan_item(PlanLine::Stack(line.last_field()?))),
        _ if is(word, b"buyin") => Some(plan_item(PlanLine::Buyin(line.last_field()?))),
        _ if is(word, b"late") => Some(plan_item(PlanLine::Late(line.last_field()?))),
        _ if is(word, b"blinds") => read_blinds(line),
        _ if is(word, b"limit") => Some(plan_item(PlanLine::Limit(line.last_field()?))),
        _ if is(word, b"go") => line.is_done().then_some(Item::Event(Event::Go)),
        _ => None,
    }
}

/// Reads the table and the deck of a hand that begins. It is a function of its own, since a row takes much room.
#[inline(never)]
#[tactic(auto, unfolding(line_words::specs::Rows::read_fields))]
fn read_begin(line: &mut LineWords<'_>) -> Option<Item>
    ensures { result ≡ option_map items.Event (read_by plain_rows (codes "begin") line.old) }
{
    Some(Item::Event(Event::Begin {
        table: line.field()?,
        row: line.last_field()?,
    }))
}

/// Reads the table and the cards of a chip race. It is a function of its own, since a row takes much room.
#[inline(never)]
#[tactic(auto, unfolding(line_words::specs::Rows::read_fields))]
fn read_race(line: &mut LineWords<'_>) -> Option<Item>
    ensures { result ≡ option_map items.Event (read_by plain_rows (codes "race") line.old) }
{
    Some(Item::Event(Event::Race {
        table: line.field()?,
        row: line.last_field()?,
    }))
}

/// Reads who enters again and where. It is a function of its own, since few do.
#[inline(never)]
#[tactic(auto, unfolding(line_words::specs::Rows::read_fields))]
fn read_reenter(line: &mut LineWords<'_>) -> Option<Item>
    ensures { result ≡ option_map items.Event (read_by plain_rows (codes "reenter") line.old) }
{
    Some(Item::Event(Event::Reenter {
        name: line.field()?,
        table: line.field()?,
        seat: line.last_field()?,
    }))
}

/// Reads an event without a list by its first word, the most frequent words first.
#[tactic(auto, unfolding(line_words::specs::Rows::read_fields))]
fn read_fields(word: &[u8], line: &mut LineWords<'_>) -> Option<Item>
    ensures { result ≡ option_map items.Event (read_by plain_rows word.now line.old) }
{
    match word {
        _ if is(word, b"act") => Some(Item::Event(Event::Act {
            table: line.field()?,
            name: line.field()?,
            act: line.act()?,
        })),
        _ if is(word, b"begin") => read_begin(line),
        _ if is(word, b"settle") => Some(Item::Event(Event::Settle {
            table: line.last_field()?,
        })),
        _ if is(word, b"enter") => Some(Item::Event(Event::Enter {
            name: line.field()?,
            table: line.field()?,
            seat: line.last_field()?,
        })),
        _ if is(word, b"reenter") => read_reenter(line),
        _ if is(word, b"time") => Some(Item::Event(Event::Time {
            table: line.last_field()?,
        })),
        _ if is(word, b"balance") => Some(Item::Event(Event::Balance {
            from: line.field()?,
            to: line.last_field()?,
        })),
        _ if is(word, b"level") => line.is_done().then_some(Item::Event(Event::Level)),
        _ if is(word, b"race") => read_race(line),
        _ if is(word, b"hands") => Some(Item::Event(Event::Hands(line.last_field()?))),
        _ if is(word, b"round") => line.is_done().then_some(Item::Event(Event::Round)),
        _ if is(word, b"stop") => line.is_done().then_some(Item::Event(Event::Stop)),
        _ => read_plan_fields(word, line),
    }
}

/// Tells whether a line is a note.
fn is_note(line: &[u8]) -> bool
    ensures { result ≡ is_note line.now }
{
    match line {
        [first, ..] => *first == b'*',
        [] => false,
    }
}

/// Reads a line, without its line feed. `None` exactly where it is not in the grammar; memory is wanted only
/// where it is.
// Its item is made where the caller looks at it, and is not moved there from a call.
#[inline(always)]
#[tactic(auto, using(crate::proofs::EventLaws::found_in_line), unfolding(crate::specs::Grammar::item_of_words, crate::specs::Grammar::item_of_bytes))]
pub fn read_item(alloc: Global, line: &[u8]) -> Result<Option<Item>, AllocError>
    ensures exact { IfOk result (λ found. found ≡ item_of_bytes line.now) }
    ensures err { OnErr result (IsSome (item_of_bytes line.now)) }
    // What is read is a note, or a writable event that is spelled so.
    ensures found { IfOk result (λ found. IfSome found (λ item. IsLineOf item line.now)) }
    // What is so is read.
    ensures only { (item : Item) → IsLineOf item line.now → IfOk result (λ found. found ≡ Some item) }
{
    if line.len() > LONGEST_LINE {
        return Ok(None);
    }
    if is_note(line) {
        return Ok(Some(Item::Note));
    }
    let mut words = LineWords::of_line(line);
    let Some(word) = words.next_word() else {
        return Ok(None);
    };
    if is(word, b"shares") {
        return read_shares(alloc, &mut words);
    }
    if is(word, b"break") {
        return read_break(alloc, &mut words);
    }
    Ok(read_fields(word, &mut words))
}
