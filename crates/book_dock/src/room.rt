//! Room for the stacks that are told of a hand or of a table.

ghost use Rattle.std.specs.Prelude.{◌≡◌, ◌+◌, ◌≤◌, [], ◌∷◌, ◌++◌, length, map, vec_capacity, vec_len};
ghost use Rattle.rulebook.specs.Limits.{most_seats};
ghost use Rattle.seat_book.specs.Players.{players_in};
ghost use Rattle.view_rules.specs.Lines.{stack_after, stack_at_rest};

use player_view::StackLine;
use rulebook::MOST_SEATS;
use seat_book::{Place, Seated};
use std::alloc::{AllocError, Global};
use table_engine::StartSeat;

/// An empty list that has room for the stacks of a table's players.
#[derive(Drop)]
pub(crate) struct StackRoom {
    lines: Vec<StackLine>,
    pub ghost empty: { lines.items ≡ [] },
    pub ghost room: { most_seats ≤ vec_capacity lines },
}

/// Makes the line of the stack that a player of a hand at a table has after it.
fn stack_after(table: u8, player: &StartSeat) -> StackLine
    ensures { result ≡ stack_after table player.now }
{
    StackLine {
        place: Place {
            table,
            seat: player.seat,
        },
        name: player.name,
        stack: player.stack,
    }
}

/// Makes the line of the stack of a player who sits.
fn stack_at_rest(seated: &Seated) -> StackLine
    ensures { result ≡ stack_at_rest seated.now }
{
    StackLine {
        place: seated.place,
        name: seated.name,
        stack: seated.stack,
    }
}

/// Lists the stack of who sits in a slot, if one does, behind others.
fn push_slot(slot: &Option<Seated>, lines: &mut Vec<StackLine>)
    requires { vec_len lines.old + 1 ≤ vec_capacity lines.old }
    ensures lines { lines.new.items ≡ lines.old.items ++ map stack_at_rest (players_in (slot.now ∷ [])) }
    ensures len { vec_len lines.new ≤ vec_len lines.old + 1 }
    ensures capacity { vec_capacity lines.new ≡ vec_capacity lines.old }
{
    if let Some(seated) = slot {
        lines.push_reserved(stack_at_rest(seated));
    }
}

impl StackRoom {
    /// Takes the room.
    pub(crate) fn new(alloc: Global) -> Result<StackRoom, AllocError> {
        let lines = Vec::with_capacity(alloc, MOST_SEATS as usize)?;
        Ok(StackRoom { lines })
    }

    /// Lists the stacks that the players of a hand have after it. It takes no memory.
    pub(crate) fn after_hand(self, table: u8, players: &[StartSeat]) -> Vec<StackLine>
        requires { length players.now ≤ most_seats }
        ensures { result.items ≡ map (stack_after table) players.now }
    {
        let StackRoom { mut lines } = self;
        for player in players {
            lines.push_reserved(stack_after(table, player));
        }
        lines
    }

    /// Lists the stacks of those who sit in slots. It takes no memory.
    pub(crate) fn at_rest(self, slots: &[Option<Seated>]) -> Vec<StackLine>
        requires { length slots.now ≤ most_seats }
        ensures { result.items ≡ map stack_at_rest (players_in slots.now) }
    {
        let StackRoom { mut lines } = self;
        for slot in slots {
            push_slot(slot, &mut lines);
        }
        lines
    }
}
