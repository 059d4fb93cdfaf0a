//! What is found before a tournament takes an event, so that a player can be told of it.

ghost use Rattle.std.specs.Prelude.{◌≡◌, IfOk};
ghost use Rattle.tournament_events.specs.declared.event.Event.TheVariants as events;
ghost use Rattle.tournament_rules.specs.Valid.{IsValidState};
ghost use Rattle.floor_view.specs.Found.{IsFound};

use crate::stacks::start_at;
use crate::turns::{Turn, turn_of_act, turn_of_time};
use betting_round::Act;
use floor_core::Tournament;
use floor_text::Name;
use std::alloc::{AllocError, Global};
use table_engine::HandStart;
use tournament_events::Event;

/// What is found of an event before it is taken.
#[derive(Drop)]
pub(crate) enum Before {
    /// What an act or a called time at a table comes to.
    Turn {
        /// The table.
        table: u64,
        /// What it comes to.
        turn: Turn,
    },
    /// How the hand began that is settled.
    Start(HandStart),
    /// Nothing.
    Nothing,
}

/// Finds what an act at a table comes to, where it is not refused.
fn before_act(tournament: &Tournament, table: u64, name: Name, act: Act) -> Before
    requires { IsValidState tournament.now }
    ensures { IsFound tournament.now (events.Act table name act) result }
{
    match turn_of_act(tournament, table, name, act) {
        Some(turn) => Before::Turn { table, turn },
        None => Before::Nothing,
    }
}

/// Finds what a called time at a table comes to, where it is not refused.
fn before_time(tournament: &Tournament, table: u64) -> Before
    requires { IsValidState tournament.now }
    ensures { IsFound tournament.now (events.Time table) result }
{
    match turn_of_time(tournament, table) {
        Some(turn) => Before::Turn { table, turn },
        None => Before::Nothing,
    }
}

/// Finds how the hand began that is settled at a table, where one is played.
fn before_settle(alloc: Global, tournament: &Tournament, table: u64) -> Result<Before, AllocError>
    requires { IsValidState tournament.now }
    ensures { IfOk result (λ before. IsFound tournament.now (events.Settle table) before) }
{
    let found = start_at(alloc, tournament, table)?;
    match found {
        Some(start) => Ok(Before::Start(start)),
        None => Ok(Before::Nothing),
    }
}

/// Finds what has to be known of a tournament before it takes an event, so that a player can be told of it.
pub(crate) fn look(
    alloc: Global,
    tournament: &Tournament,
    event: &Event,
) -> Result<Before, AllocError>
    requires { IsValidState tournament.now }
    ensures { IfOk result (λ before. IsFound tournament.now event.now before) }
{
    match event {
        Event::Act { table, name, act } => Ok(before_act(tournament, *table, *name, *act)),
        Event::Time { table } => Ok(before_time(tournament, *table)),
        Event::Settle { table } => before_settle(alloc, tournament, *table),
        _ => Ok(Before::Nothing),
    }
}
