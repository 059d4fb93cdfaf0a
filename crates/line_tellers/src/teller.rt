//! What a command tells of the lines of its input.

ghost use Rattle.std.specs.Prelude.{◌≡◌, ◌≤◌, ◌<◌, ◌^◌, ℕ, List, [], false, IfSome, OnOk, OnErr, IfErr};
ghost use Rattle.floor_text.specs.Outside.{Rose, Puts};
ghost use Rattle.replay_rules.specs.Replay.{state_after_item};
ghost use Rattle.tournament_rules.specs.Valid.{IsValidState};
ghost use Rattle.line_tellers.specs.Handed.{item_of_next};
ghost use Rattle.line_tellers.specs.Told.{Telling};

use command_lines::Fault;
use floor_core::Tournament;
use floor_text::{Next, Sink};
use std::alloc::{AllocError, Global};

/// Takes the lines of an input into a tournament, and has a text due for each of them and for their end.
pub trait LineTeller {
    /// What it tells of each item, and at the end.
    ghost telling: { Self → Telling };

    /// The text that is due.
    ghost due: { Self → List ℕ };

    /// Has the tournament take what was handed out. What is told of it is due then.
    fn take(
        &mut self,
        alloc: Global,
        tournament: &mut Tournament,
        handed: Next,
        line: &[u8],
    ) -> Result<(), AllocError>
        requires few { tournament.old.accepted < 2 ^ 60 }
        requires valid { IsValidState tournament.old }
        ensures state { OnOk result (tournament.new ≡ state_after_item tournament.old (item_of_next handed line.now)) }
        ensures told { OnOk result
            (due self.new ≡ (telling self.old).of_item tournament.old (item_of_next handed line.now)) }
        ensures same { OnOk result (telling self.new ≡ telling self.old) };

    /// Takes the end of the lines. What is told there is due then.
    fn end(&mut self, tournament: &Tournament) -> Result<(), AllocError>
        ensures { OnOk result (due self.new ≡ (telling self.old).at_end tournament.now) };

    /// Puts the text that is due, by one put. Where it may wait, `out` may hold it back.
    fn put<O: Sink>(&self, may_wait: bool, out: &mut O) -> Result<(), Fault>
        ensures bytes { IfSome (O.written out.old) (λ before. Puts before (due self.now) (O.written out.new) result) }
        ensures let_go { may_wait ≡ false → OnOk result (O.held out.new ≡ []) }
        ensures later { O.faults out.old ≤ O.faults out.new }
        ensures write { OnErr result (Rose (O.faults out.old) (O.faults out.new)) }
        ensures others { IfErr result (λ fault. fault ≡ Fault.Write) };
}

/// Puts a text, by one put. Where it may wait, `out` may hold it back.
#[inline(always)]
pub(crate) fn put_text<O: Sink>(text: &[u8], may_wait: bool, out: &mut O) -> Result<(), Fault>
    ensures bytes { IfSome (O.written out.old) (λ before. Puts before text.now (O.written out.new) result) }
    ensures let_go { may_wait ≡ false → OnOk result (O.held out.new ≡ []) }
    ensures later { O.faults out.old ≤ O.faults out.new }
    ensures write { OnErr result (Rose (O.faults out.old) (O.faults out.new)) }
    ensures others { IfErr result (λ fault. fault ≡ Fault.Write) }
{
    if may_wait {
        out.put_later(text)?;
    } else {
        out.put(text)?;
    }
    Ok(())
}
