//! Events are written.

ghost use Rattle.std.specs.Prelude.{◌≡◌, ◌++◌, OnOk, OnErr};
ghost use Rattle.tournament_events.specs.declared.event.Event.TheVariants as events;
ghost use Rattle.level_plan.specs.declared.line.PlanLine.TheVariants as lines;
ghost use Rattle.floor_events.specs.Spelling.{event_text};
ghost use Rattle.line_words.specs.Words.{Extends};

use betting_round::Act;
use floor_text::Name;
use level_plan::{Blind, PlanLine};
use line_words::{
    Word, act_word, game_word, push_behind, push_words, switch_word, whole_or_nothing,
};
use std::alloc::AllocError;
use tournament_events::Event;

/// Writes the shares of the prizes.
#[tactic(auto, using(crate::proofs::EventLaws::shares_text))]
fn push_shares(shares: &[u64], out: &mut Vec<u8>) -> Result<(), AllocError>
    ensures ok { OnOk result (out.new.items ≡ out.old.items ++ event_text (events.Plan (lines.Shares shares.now))) }
    ensures kept { Extends out.old.items out.new.items }
{
    push_words(out, &[Word::Text(b"shares")])?;
    push_behind(b' ', shares, out)
}

/// Writes a level. An ante of 0 is left out.
fn push_blinds(blind: Blind, out: &mut Vec<u8>) -> Result<(), AllocError>
    ensures ok { OnOk result (out.new.items ≡ out.old.items ++ event_text (events.Plan (lines.Blinds blind))) }
    ensures kept { Extends out.old.items out.new.items }
{
    let first = Word::Text(b"blinds");
    let small = Word::Number(blind.small);
    let big = Word::Number(blind.big);
    let unit = Word::Number(blind.unit);
    if blind.ante == 0 {
        return push_words(out, &[first, small, big, unit]);
    }
    push_words(out, &[first, small, big, unit, Word::Number(blind.ante)])
}

/// Writes a line of a plan.
fn push_plan_line(line: &PlanLine, out: &mut Vec<u8>) -> Result<(), AllocError>
    ensures ok { OnOk result (out.new.items ≡ out.old.items ++ event_text (events.Plan line.now)) }
    ensures kept { Extends out.old.items out.new.items }
{
    match line {
        PlanLine::Game(game) => push_words(
            out,
            &[Word::Text(b"game"), Word::Text(game_word(*game))],
        ),
        PlanLine::Tables(tables) => push_words(
            out,
            &[Word::Text(b"tables"), Word::Number(*tables)],
        ),
        PlanLine::Seats(seats) => push_words(out, &[Word::Text(b"seats"), Word::Number(*seats)]),
        PlanLine::Stack(stack) => push_words(out, &[Word::Text(b"stack"), Word::Number(*stack)]),
        PlanLine::Buyin(buyin) => push_words(out, &[Word::Text(b"buyin"), Word::Number(*buyin)]),
        PlanLine::Late(late) => push_words(out, &[Word::Text(b"late"), Word::Number(*late)]),
        PlanLine::Blinds(blind) => push_blinds(*blind, out),
        PlanLine::Shares(shares) => push_shares(shares.items(), out),
        PlanLine::Limit(n) => push_words(out, &[Word::Text(b"limit"), Word::Number(*n)]),
    }
}

/// Writes an act of a player.
fn push_act(table: u64, name: &Name, act: Act, out: &mut Vec<u8>) -> Result<(), AllocError>
    ensures ok { OnOk result (out.new.items ≡ out.old.items ++ event_text (events.Act table name.now act)) }
    ensures kept { Extends out.old.items out.new.items }
{
    let first = Word::Text(b"act");
    let table = Word::Number(table);
    let name = Word::Text(name.bytes());
    let (word, amount) = act_word(act);
    let done = Word::Text(word);
    match amount {
        None => push_words(out, &[first, table, name, done]),
        Some(amount) => push_words(out, &[first, table, name, done, Word::Number(amount)]),
    }
}

#[tactic(auto, unfolding(crate::specs::Spelling::event_text))]
fn push_event(event: &Event, out: &mut Vec<u8>) -> Result<(), AllocError>
    ensures ok { OnOk result (out.new.items ≡ out.old.items ++ event_text event.now) }
    ensures kept { Extends out.old.items out.new.items }
{
    match event {
        Event::Plan(line) => push_plan_line(line, out),
        Event::Go => push_words(out, &[Word::Text(b"go")]),
        Event::Enter { name, table, seat } => push_words(
            out,
            &[
                Word::Text(b"enter"),
                Word::Text(name.bytes()),
                Word::Number(*table),
                Word::Number(*seat),
            ],
        ),
        Event::Reenter { name, table, seat } => push_words(
            out,
            &[
                Word::Text(b"reenter"),
                Word::Text(name.bytes()),
                Word::Number(*table),
                Word::Number(*seat),
            ],
        ),
        Event::Begin { table, row } => {
            push_words(
                out,
                &[Word::Text(b"begin"), Word::Number(*table), Word::Cards(row)],
            )
        }
        Event::Act { table, name, act } => push_act(*table, name, *act, out),
        Event::Time { table } => push_words(out, &[Word::Text(b"time"), Word::Number(*table)]),
        Event::Settle { table } => push_words(out, &[Word::Text(b"settle"), Word::Number(*table)]),
        Event::Balance { from, to } => {
            push_words(
                out,
                &[
                    Word::Text(b"balance"),
                    Word::Number(*from),
                    Word::Number(*to),
                ],
            )
        }
        Event::Break {
            table,
            seats,
            names,
        } => push_words(
            out,
            &[
                Word::Text(b"break"),
                Word::Number(*table),
                Word::Places(seats.items()),
                Word::Names(names.items()),
            ],
        ),
        Event::Level => push_words(out, &[Word::Text(b"level")]),
        Event::Race { table, row } => {
            push_words(
                out,
                &[Word::Text(b"race"), Word::Number(*table), Word::Cards(row)],
            )
        }
        Event::Hands(on) => push_words(out, &[Word::Text(b"hands"), Word::Text(switch_word(*on))]),
        Event::Round => push_words(out, &[Word::Text(b"round")]),
        Event::Stop => push_words(out, &[Word::Text(b"stop")]),
    }
}

/// Writes an event at the end of `out`, in its one spelling and without a line feed. What is written of a writable
/// event is read as that event (`what_is_written_is_read_first`). After want of memory `out` is as before.
pub fn write_event(event: &Event, out: &mut Vec<u8>) -> Result<(), AllocError>
    ensures ok { OnOk result (out.new.items ≡ out.old.items ++ event_text event.now) }
    ensures err { OnErr result (out.new.items ≡ out.old.items) }
{
    let before = out.len();
    let written = push_event(event, out);
    whole_or_nothing(written, before, out)
}
