//! A player is told of the lines of the input.

ghost use Rattle.std.specs.Prelude.{◌≡◌, ◌<◌, ◌^◌, ◌++◌, Some, IfSome, OnOk};
ghost use Rattle.floor_events.specs.Grammar.{item_of_bytes};
ghost use Rattle.replay_rules.specs.Replay.{state_after_item};
ghost use Rattle.tournament_rules.specs.Valid.{IsValidState};
ghost use Rattle.view_rules.specs.Views.{view_text};
ghost use Rattle.line_tellers.specs.Runs.{HasRun};
ghost use Rattle.line_tellers.specs.Told.{item_seen, lines_seen};

use crate::lines::tell_lines;
use crate::teller::{LineTeller, put_text};
use command_lines::Fault;
use floor_core::Tournament;
use floor_events::{read_act, read_item};
use floor_text::{Name, Next, Sink, Source};
use floor_view::{tell_act, tell_event};
use std::alloc::{AllocError, Global};
use tournament_events::Item;

/// Has a tournament take a line of at most 400 bytes, and writes what tells the player of a name of it: of a note, and
/// of a line that is none of the grammar, nothing.
fn tell_line(
    alloc: Global,
    tournament: &mut Tournament,
    name: Name,
    line: &[u8],
    text: &mut Vec<u8>,
) -> Result<(), AllocError>
    requires few { tournament.old.accepted < 2 ^ 60 }
    requires valid { IsValidState tournament.old }
    ensures told { OnOk result
        (text.new.items ≡ text.old.items ++ item_seen name tournament.old (item_of_bytes line.now)) }
    ensures state { OnOk result (tournament.new ≡ state_after_item tournament.old (item_of_bytes line.now)) }
{
    if let Some(act) = read_act(line) {
        return tell_act(tournament, act.table, act.name, act.act, text);
    }
    match read_item(alloc, line)? {
        Some(Item::Event(event)) => tell_event(alloc, tournament, Some(name), &event, text),
        Some(Item::Note) | None => Ok(()),
    }
}

/// Tells the player of a name of each event, and nothing at the end.
#[derive(Drop)]
struct PlayerTeller {
    name: Name,
    text: Vec<u8>,
}

impl LineTeller for PlayerTeller {
    ghost telling = { λ teller. lines_seen teller.name };

    ghost due = { λ teller. teller.text.items };

    fn take(
        &mut self,
        alloc: Global,
        tournament: &mut Tournament,
        handed: Next,
        line: &[u8],
    ) -> Result<(), AllocError> {
        self.text.clear();
        match handed {
            Next::Line => tell_line(alloc, tournament, self.name, line, &mut self.text),
            Next::TooLong | Next::End => Ok(()),
        }
    }

    fn end(&mut self, _tournament: &Tournament) -> Result<(), AllocError> {
        self.text.clear();
        Ok(())
    }

    fn put<O: Sink>(&self, may_wait: bool, out: &mut O) -> Result<(), Fault> {
        put_text(&self.text, may_wait, out)
    }
}

/// Puts what tells the player of a name of each line of the input, and no report.
pub fn view<I: Source, O: Sink>(
    alloc: Global,
    name: Name,
    input: &mut I,
    out: &mut O,
) -> Result<(), Fault>
    ensures run { HasRun I.left I.faults O.written O.held O.faults (lines_seen name)
        input.old input.new out.old out.new result }
    ensures text { OnOk result (IfSome (I.left input.old)
        (λ bytes. IfSome (O.written out.old) (λ before. O.written out.new ≡ Some (before ++ view_text name bytes)))) }
{
    let mut teller = PlayerTeller {
        name,
        text: Vec::new(alloc),
    };
    tell_lines(alloc, &mut teller, input, out)
}
