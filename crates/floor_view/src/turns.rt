//! What tells of an act or a called time: what it comes to is found before it is made.

ghost use Rattle.std.specs.Prelude.{◌≡◌, ◌≤◌, ◌++◌, Some, None, false, OnOk};
ghost use Rattle.std.specs.Option.{ForSome};
ghost use Rattle.line_words.specs.Words.{Extends};
ghost use Rattle.table_engine.specs.declared.record.ActOf.{ActOf};
ghost use Rattle.table_engine.specs.Acts.{done_of_act, refusal_of_act, refusal_of_time, time_act};
ghost use Rattle.table_engine.specs.Hands.{HandTerms, streets_of};
ghost use Rattle.view_rules.specs.Shown.{Viewer};
ghost use Rattle.view_rules.specs.Seen.{hand_in, seen_hand};
ghost use Rattle.view_rules.specs.Entries.{with_act};
ghost use Rattle.view_rules.specs.Lines.{act_lines};
ghost use Rattle.player_view.specs.Each.{table_text};
ghost use Rattle.floor_view.specs.Turns.{IsTurnOf, IsTurn};

use crate::hands::hand_at;
use betting_round::{Act, Done};
use floor_core::Tournament;
use floor_text::Name;
use player_view::push_act;
use std::alloc::AllocError;
use table_engine::Hand;

/// What an act or a called time comes to, before it is made.
#[derive(Clone, Copy)]
pub(crate) struct Turn {
    /// Who acts.
    pub name: Name,
    /// What it comes to.
    pub done: Done,
    /// How many streets may still begin.
    pub left: u8,
}

/// Tells what an act comes to in a hand, where nothing refuses it there. It is looked up in the hand only for a call
/// and for all-in: each other act says it.
#[tactic(auto, unfolding(table_engine::specs::Acts::done_of_act))]
fn done_in_hand(hand: &Hand, name: Name, act: Act) -> Option<Done>
    ensures { refusal_of_act hand.now name act ≡ None → result ≡ Some (done_of_act hand.now name act) }
{
    match act {
        Act::Fold => Some(Done::Folded),
        Act::Check => Some(Done::Checked),
        Act::Bet(level) => Some(Done::BetTo(level)),
        Act::Raise(level) => Some(Done::RaisedTo(level)),
        Act::Call | Act::AllIn => hand.check(name, act).ok(),
    }
}

/// Finds what an act comes to in a hand, where nothing refuses it there.
fn turn_in_hand(hand: &Hand, name: Name, act: Act) -> Option<Turn>
    ensures { refusal_of_act hand.now name act ≡ None
        → IsTurnOf hand.now (record { name = name; act = act; by_time = false }) result }
{
    let done = done_in_hand(hand, name, act)?;
    Some(Turn {
        name,
        done,
        left: hand.streets_left(),
    })
}

/// Finds what an act comes to in the hand at a table, where nothing refuses it there.
pub(crate) fn turn_of_act(tournament: &Tournament, table: u64, name: Name, act: Act) -> Option<Turn>
    ensures { (hand : HandTerms) → hand_in tournament.now table ≡ Some hand → refusal_of_act hand name act ≡ None
        → IsTurnOf hand (record { name = name; act = act; by_time = false }) result }
{
    match hand_at(tournament, table) {
        Some(hand) => turn_in_hand(hand, name, act),
        None => None,
    }
}

/// Finds what a called time comes to in a hand, where somebody is due.
fn time_in_hand(hand: &Hand) -> Option<Turn>
    ensures { refusal_of_time hand.now ≡ None → IsTurnOf hand.now (time_act hand.now) result }
{
    let name = hand.due()?;
    let done = hand.check_time().ok()?;
    Some(Turn {
        name,
        done,
        left: hand.streets_left(),
    })
}

/// Finds what a called time comes to in the hand at a table, where somebody is due.
pub(crate) fn turn_of_time(tournament: &Tournament, table: u64) -> Option<Turn>
    ensures { (hand : HandTerms) → hand_in tournament.now table ≡ Some hand → refusal_of_time hand ≡ None
        → IsTurnOf hand (time_act hand) result }
{
    match hand_at(tournament, table) {
        Some(hand) => time_in_hand(hand),
        None => None,
    }
}

/// Writes the lines of an act or a called time that was made at a table.
pub(crate) fn push_turn(
    tournament: &Tournament,
    table: u64,
    turn: &Turn,
    text: &mut Vec<u8>,
) -> Result<(), AllocError>
    requires before { turn.now.left ≤ 3 }
    requires left { ForSome (hand_in tournament.now table) (λ hand. (streets_of hand).left ≤ turn.now.left) }
    ensures told { OnOk result ((who : Viewer) (before : HandTerms) (act : ActOf)
        → hand_in tournament.now table ≡ Some (with_act act before) → IsTurn before act turn.now
        → text.new.items ≡ text.old.items
        ++ table_text table (act_lines (seen_hand who before) act (seen_hand who (with_act act before)))) }
    ensures kept { Extends text.old.items text.new.items }
{
    match hand_at(tournament, table) {
        Some(hand) => push_act(
            hand.start().table,
            &turn.name,
            turn.done,
            turn.left,
            hand,
            text,
        ),
        None => Ok(()),
    }
}
