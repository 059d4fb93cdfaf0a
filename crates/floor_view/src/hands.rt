//! A hand of a tournament, and what tells that it has begun.

ghost use Rattle.std.specs.Prelude.{◌≡◌, ◌++◌, IfSome, OnOk};
ghost use Rattle.std.specs.Option.{option_copied};
ghost use Rattle.line_words.specs.Words.{Extends};
ghost use Rattle.tournament_rules.specs.States.{State};
ghost use Rattle.view_rules.specs.Seen.{hand_in};
ghost use Rattle.floor_view.specs.Told.{text_between};
ghost use Rattle.floor_view.specs.Kinds.{IsBeginAt};

use floor_core::Tournament;
use floor_text::Name;
use player_view::{push_floor_lines, push_opening};
use std::alloc::AllocError;
use table_engine::Hand;
use tournament_events::Event;

/// Gives the hand that is played at a table of any number, if one is.
pub(crate) fn hand_at(tournament: &Tournament, table: u64) -> Option<&Hand>
    ensures hand { option_copied result ≡ hand_in tournament.now table }
    ensures here { IfSome result (λ hand. hand.now.start.table ≡ table) }
{
    let Some(book) = tournament.book() else {
        return None;
    };
    if table > u64::from(book.seats().table_count()) {
        return None;
    }
    tournament.hand(table as u8)
}

/// Writes that a hand has begun at a table, and its opening. Where none is played there, its number is told as 0.
pub(crate) fn push_begin(
    tournament: &Tournament,
    table: u64,
    who: Option<Name>,
    event: &Event,
    text: &mut Vec<u8>,
) -> Result<(), AllocError>
    requires { IsBeginAt event.now table }
    ensures told { OnOk result ((before : State)
        → text.new.items ≡ text.old.items ++ text_between who before event.now tournament.now) }
    ensures kept { Extends text.old.items text.new.items }
{
    match hand_at(tournament, table) {
        Some(hand) => {
            let start = hand.start();
            push_floor_lines(event, start.serial, &[], text)?;
            push_opening(start.table, who, hand, text)
        }
        None => push_floor_lines(event, 0, &[], text),
    }
}
