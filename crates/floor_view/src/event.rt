//! A tournament takes an event, and a player is told of it.

ghost use Rattle.std.specs.Prelude.{◌≡◌, ◌<◌, ◌^◌, ◌++◌, true, IfOk, OnOk};
ghost use Rattle.line_words.specs.Words.{Extends};
ghost use Rattle.tournament_rules.specs.States.{State, answer_to, is_accepted, state_after};
ghost use Rattle.tournament_rules.specs.Valid.{IsValidState};
ghost use Rattle.tournament_events.specs.declared.event.Event.TheVariants as events;
ghost use Rattle.view_rules.specs.Shown.{Viewer};
ghost use Rattle.view_rules.specs.Lines.{lines_of_event};
ghost use Rattle.view_rules.specs.Spelling.{lines_text};
ghost use Rattle.view_rules.specs.Views.{told_of};
ghost use Rattle.floor_view.specs.Kinds.{is_told_after};
ghost use Rattle.floor_view.specs.Told.{text_between};

use crate::before::{Before, look};
use crate::hands::push_begin;
use crate::stacks::{push_race, push_settled};
use crate::turns::{push_turn, turn_of_act};
use betting_round::Act;
use floor_core::Tournament;
use floor_text::Name;
use player_view::push_floor_lines;
use std::alloc::{AllocError, Global};
use tournament_events::{Answer, Event};

/// Has a tournament take an event, and tells whether it was accepted.
fn take_event(tournament: &mut Tournament, event: &Event) -> Result<bool, AllocError>
    requires { tournament.old.accepted < 2 ^ 60 }
    ensures accepted { IfOk result (λ accepted. accepted ≡ is_accepted (answer_to tournament.old event.now)) }
    ensures state { OnOk result (tournament.new ≡ state_after tournament.old event.now) }
{
    Ok(tournament.apply(event)? == Answer::Ok)
}

/// Has a tournament take an act, and tells whether it was accepted.
fn take_act(
    tournament: &mut Tournament,
    table: u64,
    name: Name,
    act: Act,
) -> Result<bool, AllocError>
    requires { tournament.old.accepted < 2 ^ 60 }
    ensures accepted { IfOk result
        (λ accepted. accepted ≡ is_accepted (answer_to tournament.old (events.Act table name act))) }
    ensures state { OnOk result (tournament.new ≡ state_after tournament.old (events.Act table name act)) }
{
    Ok(tournament.act(table, name, act)? == Answer::Ok)
}

/// Writes what tells a player of an event that a tournament has taken, of which nothing needs to be known before.
fn push_after(
    alloc: Global,
    tournament: &Tournament,
    who: Option<Name>,
    event: &Event,
    text: &mut Vec<u8>,
) -> Result<(), AllocError>
    requires { is_told_after event.now ≡ true }
    ensures told { OnOk result ((before : State)
        → text.new.items ≡ text.old.items ++ text_between who before event.now tournament.now) }
    ensures kept { Extends text.old.items text.new.items }
{
    match event {
        Event::Begin { table, .. } => push_begin(tournament, *table, who, event, text),
        Event::Race { table, .. } => push_race(alloc, tournament, *table, event, text),
        _ => push_floor_lines(event, 0, &[], text),
    }
}

/// Has a tournament take an act, and writes what tells of it, to everybody alike: of a refused act nothing. No event is
/// made of it, since most of what is told are acts. Where memory runs out the act may have been taken, and `text` has
/// something behind what it had.
pub fn tell_act(
    tournament: &mut Tournament,
    table: u64,
    name: Name,
    act: Act,
    text: &mut Vec<u8>,
) -> Result<(), AllocError>
    requires few { tournament.old.accepted < 2 ^ 60 }
    requires valid { IsValidState tournament.old }
    ensures told { OnOk result ((who : Viewer) → text.new.items
        ≡ text.old.items ++ lines_text (told_of lines_of_event who tournament.old (events.Act table name act))) }
    ensures state { OnOk result (tournament.new ≡ state_after tournament.old (events.Act table name act)) }
    ensures kept { Extends text.old.items text.new.items }
{
    let turn = turn_of_act(tournament, table, name, act);
    if !take_act(tournament, table, name, act)? {
        return Ok(());
    }
    match &turn {
        Some(turn) => push_turn(tournament, table, turn, text),
        None => Ok(()),
    }
}

/// Has a tournament take an event, and writes what tells a player, or nobody, of it: of a refused event nothing. Where
/// memory runs out the event may have been taken, and `text` has something behind what it had.
pub fn tell_event(
    alloc: Global,
    tournament: &mut Tournament,
    who: Option<Name>,
    event: &Event,
    text: &mut Vec<u8>,
) -> Result<(), AllocError>
    requires few { tournament.old.accepted < 2 ^ 60 }
    requires valid { IsValidState tournament.old }
    ensures told { OnOk result (text.new.items
        ≡ text.old.items ++ lines_text (told_of lines_of_event who tournament.old event.now)) }
    ensures state { OnOk result (tournament.new ≡ state_after tournament.old event.now) }
    ensures kept { Extends text.old.items text.new.items }
{
    let before = look(alloc, tournament, event)?;
    if !take_event(tournament, event)? {
        return Ok(());
    }
    match &before {
        Before::Turn { table, turn } => push_turn(tournament, *table, turn, text),
        Before::Start(start) => push_settled(alloc, tournament, start, event, text),
        Before::Nothing => push_after(alloc, tournament, who, event, text),
    }
}
