//! A hall in memory, which hands out its doors once.
ghost use Rattle.std.specs.Prelude.{◌≡◌, ◌≢◌, ◌↔◌, ◌⊎◌, ◌≤◌, [], IfOk, IsTrue, OnErr, length, vec_len};
ghost use Rattle.floor_text.specs.Memory.{count_up, next_fails};
ghost use Rattle.floor_text.specs.Outside.{Rose};
ghost use Rattle.links.specs.Links.{AreDoorsOut, with_given, with_all_back};

use crate::mem_door::MemDoor;
use floor_text::Calls;
use links::{Hall, HallFault};
use std::alloc::Global;
use std::marker::Model;
use std::mem;
use std::snapshot::Snapshot;

/// A hall in memory, which hands out its doors once and tells all. Contracts see it as what it tells, the doors that it
/// has still to give, the numbers of its calls of `doors` that fail, and how many were made and failed.
#[derive(Drop)]
pub struct MemHall {
    doors: Vec<MemDoor>,
    given: Snapshot<Vec<MemDoor>>,
    back: Vec<MemDoor>,
    calls: Calls,
}

impl Model for MemHall {
    ghost use Rattle.std.specs.Prelude.{length, vec_len, vec_capacity};
    ghost use Rattle.mem_links.specs.Memory.{MemoryHall, IsMemoryHall};

    ghost Value = { MemoryHall };

    ghost view = { λ h. record {
      told = record { given = h.given.value.items; back = h.back.items };
      doors = h.doors.items;
      failing = h.calls.failing.items;
      calls = h.calls.made;
      faults = h.calls.faults;
    } };

    ghost invariant = { λ h.
        IsMemoryHall (vec_len h.doors) (length h.given.value.items) (vec_len h.back) (vec_capacity h.back) };
}

impl MemHall {
    /// Makes a hall with these doors, which takes no memory. The calls of `doors` whose numbers, from 1, are in
    /// `failing` fail and give no door, and so do those for another number of doors than it has.
    pub fn new(doors: Vec<MemDoor>, failing: Vec<u64>) -> MemHall
        ensures { result ≡ record {
          told = record { given = []; back = [] };
          doors = doors.items;
          failing = failing.items;
          calls = 0;
          faults = 0;
        } }
    {
        let back = Vec::new(*doors.allocator());
        let none = Vec::new(*doors.allocator());
        MemHall {
            doors,
            given: Snapshot::of(&none),
            back,
            calls: Calls::new(failing),
        }
    }
}

impl Hall for MemHall {
    ghost use Rattle.std.specs.Prelude.{Some};

    type D = MemDoor;

    ghost told = { λ h. Some h.told };

    ghost faults = { λ h. h.faults };

    /// Gives all doors at once, and takes the room for those that come back. It fails exactly at the calls that are to
    /// fail and where `n` is another number than that of the doors that it has still to give.
    fn doors(&mut self, alloc: Global, _port: u16, n: u32) -> Result<Vec<MemDoor>, HallFault>
        ensures count { IfOk result (λ doors. vec_len doors ≡ n) }
        ensures told { IfOk result (λ doors. Some self.new.told ≡ Some (with_given doors.items self.old.told)) }
        ensures out { IfOk result (λ doors. AreDoorsOut (vec_len doors) (Some self.new.told)) }
        ensures kept { OnErr result (Some self.new.told ≡ Some self.old.told) }
        ensures later { self.old.faults ≤ self.new.faults }
        ensures cause { result ≡ Err HallFault.Failed → Rose self.old.faults self.new.faults }

        ensures fails { (result ≡ Err HallFault.Failed) ↔ (IsTrue (next_fails self.old.failing self.old.calls)
            ⊎ (n ≢ length self.old.doors)) }
        ensures given { IfOk result (λ doors. doors.items ≡ self.old.doors) }
        ensures ok { IfOk result (λ doors. self.new ≡ record self.old {
          told = with_given doors.items self.old.told;
          doors = [];
          calls = count_up self.old.calls;
        }) }
        ensures failed { result ≡ Err HallFault.Failed → self.new ≡ record self.old {
          calls = count_up self.old.calls;
          faults = count_up self.old.faults;
        } }
        ensures memory { result ≡ Err HallFault.NoMemory → self.new ≡ record self.old {
          calls = count_up self.old.calls;
        } }
    {
        let fails = self.calls.next_fails();
        if fails || self.doors.len() != n as usize {
            self.calls.count_fault();
            return Err(HallFault::Failed);
        }
        if n == 0 {
            return Ok(Vec::new(alloc));
        }
        if self.back.reserve(n as usize).is_err() {
            return Err(HallFault::NoMemory);
        }
        let doors = mem::replace(&mut self.doors, Vec::new(alloc));
        self.given = Snapshot::of(&doors);
        Ok(doors)
    }

    fn back(&mut self, doors: Vec<MemDoor>)
        requires { AreDoorsOut (vec_len doors) (Some self.old.told) }
        ensures told { Some self.new.told ≡ Some (with_all_back doors.items self.old.told) }
        ensures faults { self.new.faults ≡ self.old.faults }

        ensures after { self.new ≡ record self.old { told = with_all_back doors.items self.old.told } }
    {
        let mut doors = doors;
        let _ = self.back.append(&mut doors);
    }
}
