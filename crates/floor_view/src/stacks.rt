//! The stacks that are told with a settle and with a race.

ghost use Rattle.std.specs.Prelude.{◌≡◌, ◌<◌, ◌∷◌, ◌++◌, [], map, option_map, IfOk, IfSome, OnOk};
ghost use Rattle.std.specs.Option.{ForSome, option_map_or};
ghost use Rattle.rulebook.specs.Limits.{most_entries};
ghost use Rattle.line_words.specs.Words.{Extends};
ghost use Rattle.seat_book.specs.Places.{IsPlaceOf};
ghost use Rattle.seat_book.specs.Players.{player_at, players_at, players_in};
ghost use Rattle.table_engine.specs.Starts.{IsLawfulStart};
ghost use Rattle.tournament_rules.specs.States.{State};
ghost use Rattle.view_rules.specs.Seen.{hand_in};
ghost use Rattle.view_rules.specs.Shown.{Viewer};
ghost use Rattle.view_rules.specs.Lines.{stack_at_rest};
ghost use Rattle.floor_view.specs.Told.{settled_text, text_between};
ghost use Rattle.floor_view.specs.Kinds.{IsRaceAt};
ghost use Rattle.floor_view.specs.Stacks.{rest_of, stack_now};

use crate::hands::hand_at;
use floor_core::Tournament;
use player_view::{StackLine, push_floor_lines};
use seat_book::{Place, SeatBook, Seated};
use std::alloc::{AllocError, Global};
use table_engine::{HandStart, StartSeat};
use tournament_events::Event;

/// Copies how the hand began that is played at a table, if one is.
pub(crate) fn start_at(
    alloc: Global,
    tournament: &Tournament,
    table: u64,
) -> Result<Option<HandStart>, AllocError>
    ensures start { IfOk result (λ start. start ≡ option_map (λ hand. hand.start) (hand_in tournament.now table)) }
    ensures lawful { IfOk result (λ start. ForSome start IsLawfulStart) }
{
    match hand_at(tournament, table) {
        Some(hand) => Ok(Some(hand.start().copy(alloc)?)),
        None => Ok(None),
    }
}

/// Tells which stack is at rest in a place, in chips, and 0 where nobody sits.
fn stack_in(seats: &SeatBook, place: Place) -> u64
    requires { IsPlaceOf seats.now.table_count seats.now.seat_count place }
    ensures { result ≡ option_map_or (λ seated. seated.stack) (player_at seats.now.players place) 0 }
{
    match seats.at(place) {
        Some((_, _, stack)) => stack,
        None => 0,
    }
}

/// Tells which stack the player of a number has at rest, in chips, and 0 where he does not sit.
fn rest_of(seats: &SeatBook, player: u32) -> u64
    requires { player < most_entries }
    ensures { result ≡ rest_of seats.now.players player }
{
    // The seats are lawful, so that nobody else sits in his place.
    let _ = seats.seat_count();
    match seats.find(player) {
        Some(place) => stack_in(seats, place),
        None => 0,
    }
}

/// Makes the line of the stack that a player of a hand at a table has at rest.
fn stack_now(seats: &SeatBook, table: u8, player: &StartSeat) -> StackLine
    requires { player.now.player < most_entries }
    ensures { result ≡ stack_now seats.now.players table player.now }
{
    StackLine {
        place: Place {
            table,
            seat: player.seat,
        },
        name: player.name,
        stack: rest_of(seats, player.player),
    }
}

/// Lists the stacks that the players of a hand have at rest.
pub(crate) fn stacks_of_hand(
    alloc: Global,
    seats: &SeatBook,
    start: &HandStart,
) -> Result<Vec<StackLine>, AllocError>
    requires { IsLawfulStart start.now }
    ensures { IfOk result (λ stacks.
        stacks.items ≡ map (stack_now seats.now.players start.now.table) start.now.seats) }
{
    let mut stacks = Vec::with_capacity(alloc, start.seats.items().len())?;
    for player in start.seats.items() {
        stacks.push(stack_now(seats, start.table, player))?;
    }
    Ok(stacks)
}

/// Makes the line of the stack of a player who sits.
fn stack_at_rest(seated: &Seated) -> StackLine
    ensures { result ≡ stack_at_rest seated.now }
{
    StackLine {
        place: seated.place,
        name: seated.name,
        stack: seated.stack,
    }
}

/// Lists the stack of who sits in a slot, if one does, behind others.
fn push_slot(slot: Option<Seated>, stacks: &mut Vec<StackLine>) -> Result<(), AllocError>
    ensures { OnOk result (stacks.new.items ≡ stacks.old.items ++ map stack_at_rest (players_in (slot ∷ []))) }
{
    match slot {
        Some(seated) => {
            stacks.push(stack_at_rest(&seated))?;
            Ok(())
        }
        None => Ok(()),
    }
}

/// Lists the stacks of those who sit in slots.
fn stacks_in(alloc: Global, slots: &[Option<Seated>]) -> Result<Vec<StackLine>, AllocError>
    ensures { IfOk result (λ stacks. stacks.items ≡ map stack_at_rest (players_in slots.now)) }
{
    let mut stacks = Vec::with_capacity(alloc, slots.len())?;
    for slot in slots {
        push_slot(*slot, &mut stacks)?;
    }
    Ok(stacks)
}

/// Gives the slots of a table of any number, by seat: who sits there, if one does.
fn slots_at(seats: &SeatBook, table: u64) -> &[Option<Seated>]
    ensures { players_in result.now ≡ players_at seats.now.players table }
{
    let count = u64::from(seats.table_count());
    if table == 0 {
        return &[];
    }
    if table > count {
        return &[];
    }
    seats.table_slots(table as u8)
}

/// Writes that the hand at a table, which began so, is settled, and the stacks of its players, as they are at rest.
pub(crate) fn push_settled(
    alloc: Global,
    tournament: &Tournament,
    start: &HandStart,
    event: &Event,
    text: &mut Vec<u8>,
) -> Result<(), AllocError>
    requires { IsLawfulStart start.now }
    ensures told { OnOk result (text.new.items ≡ text.old.items ++ settled_text event.now start.now tournament.now) }
    ensures kept { Extends text.old.items text.new.items }
{
    let stacks = stacks_of_hand(alloc, tournament.seats(), start)?;
    push_floor_lines(event, 0, &stacks, text)
}

/// Writes that the chip race at a table is made, and the stacks of its players.
pub(crate) fn push_race(
    alloc: Global,
    tournament: &Tournament,
    table: u64,
    event: &Event,
    text: &mut Vec<u8>,
) -> Result<(), AllocError>
    requires { IsRaceAt event.now table }
    ensures told { OnOk result ((who : Viewer) (before : State)
        → text.new.items ≡ text.old.items ++ text_between who before event.now tournament.now) }
    ensures kept { Extends text.old.items text.new.items }
{
    let stacks = stacks_in(alloc, slots_at(tournament.seats(), table))?;
    push_floor_lines(event, 0, &stacks, text)
}
