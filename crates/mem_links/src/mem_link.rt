//! A link in memory, which plays a script.
ghost use Rattle.std.specs.Prelude.{◌≡◌, ◌↔◌, ◌⊎◌, ◌+◌, ◌<◌, ◌≤◌, [], length, take, IfOk, IfSome, IsErr, IsOk, IsTrue, is_err, if◌then◌else◌};
ghost use Rattle.floor_text.specs.Memory.{count_up, next_fails};
ghost use Rattle.floor_text.specs.Outside.{HasCause};
ghost use Rattle.links.specs.Links.{FitsBuffer, BringsNoByte, Puts, after_take, with_put};
ghost use Rattle.mem_links.specs.Memory.{step_of_link};
ghost use Rattle.links.specs.Telling.{untouched};

use crate::say::Say;
use crate::script::Script;
use crate::tape::Tape;
use floor_text::{Calls, Failed};
use links::{Link, Taken};
use std::alloc::{AllocError, Global};
use std::marker::Model;

/// A link in memory, which plays a script and tells all. Contracts see it as what it tells, where its script is, how
/// many bytes it has room for, the numbers of its calls that fail, and how many calls were made and failed.
#[derive(Drop)]
pub struct MemLink {
    script: Script,
    out: Vec<u8>,
    room: usize,
    idles: u64,
    ended: bool,
    calls: Calls,
    tape: Tape,
}

impl Model for MemLink {
    ghost use Rattle.std.specs.Prelude.{vec_capacity};
    ghost use Rattle.mem_links.specs.Memory.{MemoryLink, IsMemoryLink};
    ghost use Rattle.mem_links.specs.Scripts.{given_by, place_of};

    ghost Value = { MemoryLink };

    ghost view = { λ l. record {
      told = record { given = given_by l.script; put = l.out.items; idles = l.idles; ended = l.ended };
      place = place_of l.script;
      room = l.room;
      failing = l.calls.failing.items;
      calls = l.calls.made;
      faults = l.calls.faults;
    } };

    ghost invariant = { λ l. IsMemoryLink l.script l.out.items (vec_capacity l.out) l.room };
}

impl MemLink {
    /// Makes a link that plays the script, and the tape of what is put on it. It takes room for so many bytes. The
    /// calls whose numbers, from 1, are in `failing` fail, give nothing and put nothing, and so do puts that find too
    /// little room.
    pub fn new(
        alloc: Global,
        script: Vec<Say>,
        room: usize,
        failing: Vec<u64>,
    ) -> Result<(MemLink, Tape), AllocError>
        ensures { IfOk result (λ made. made.0 ≡ record {
          told = untouched;
          place = record { says = script.items; given = 0; waited = 0 };
          room = room;
          failing = failing.items;
          calls = 0;
          faults = 0;
        }) }
    {
        let out = Vec::with_capacity(alloc, room)?;
        let (tape, other) = Tape::pair(alloc, room)?;
        let link = MemLink {
            script: Script::new(script),
            out,
            room,
            idles: 0,
            ended: false,
            calls: Calls::new(failing),
            tape,
        };
        Ok((link, other))
    }
}

impl Link for MemLink {
    ghost use Rattle.std.specs.Prelude.{Some};

    ghost told = { λ l. Some l.told };

    ghost faults = { λ l. l.faults };

    /// Plays what the script says next, or answers End where it did before. It fails exactly at the calls that are to
    /// fail, and its count of faults rises exactly then.
    fn take(&mut self, buffer: &mut [u8]) -> Result<Taken, Failed>
        ensures fits { IfOk result (λ taken. FitsBuffer taken (length buffer.new)) }
        ensures told { Some self.new.told ≡ Some (after_take result buffer.new self.old.told) }
        ensures end { IfSome (Some self.old.told) (λ before. IsTrue before.ended → IfOk result BringsNoByte) }
        ensures cause { HasCause self.old.faults self.new.faults result }

        ensures fails { IsErr result ↔ IsTrue (next_fails self.old.failing self.old.calls) }
        ensures never { self.old.failing ≡ [] → IsOk result }
        ensures taken { IfOk result (λ taken. taken ≡ (step_of_link (length buffer.old) self.old).taken) }
        ensures bytes { IfOk result (λ _. let step = step_of_link (length buffer.old) self.old in
            take (length step.bytes) buffer.new ≡ step.bytes) }
        ensures after { self.new ≡ record self.old {
          told = after_take result buffer.new self.old.told;
          place = (if is_err result then self.old.place else (step_of_link (length buffer.old) self.old).place);
          calls = count_up self.old.calls;
          faults = (if is_err result then count_up self.old.faults else self.old.faults);
        } }
    {
        if self.calls.next_fails() {
            self.calls.count_fault();
            return Err(Failed);
        }
        let taken = if self.ended {
            Taken::End
        } else {
            self.script.play(self.out.as_slice(), buffer)
        };
        match taken {
            Taken::Bytes(_) => {}
            Taken::End => self.ended = true,
            Taken::Idle => self.idles = self.idles.saturating_add(1),
        }
        Ok(taken)
    }

    /// Puts all the bytes, or where it fails none. It fails exactly at the calls that are to fail and where the bytes
    /// are beyond its room, and its count of faults rises exactly then. It takes no memory.
    fn put(&mut self, bytes: &[u8]) -> Result<(), Failed>
        ensures told { IfSome (Some self.old.told) (λ before. Puts before bytes.now (Some self.new.told) result) }
        ensures cause { HasCause self.old.faults self.new.faults result }

        ensures fails { IsErr result ↔ (IsTrue (next_fails self.old.failing self.old.calls)
            ⊎ (self.old.room < length self.old.told.put + length bytes.now)) }
        ensures never { self.old.failing ≡ [] → length self.old.told.put + length bytes.now ≤ self.old.room
            → IsOk result }
        ensures after { self.new ≡ record self.old {
          told = (if is_err result then self.old.told else with_put self.old.told bytes.now);
          calls = count_up self.old.calls;
          faults = (if is_err result then count_up self.old.faults else self.old.faults);
        } }
    {
        let fails = self.calls.next_fails();
        if fails || bytes.len() > self.room - self.out.len() {
            self.calls.count_fault();
            return Err(Failed);
        }
        self.tape.write(self.out.len(), bytes);
        let _ = self.out.extend_from_slice(bytes);
        Ok(())
    }
}
