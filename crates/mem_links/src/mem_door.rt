//! A door in memory, which hands out its links in order.
ghost use Rattle.std.specs.Prelude.{◌≡◌, ◌↔◌, [], IfOk, IsErr, IsOk, IsTrue, OnOk, OnSome, drop, is_err, if◌then◌else◌};
ghost use Rattle.std.specs.List.{slice_get};
ghost use Rattle.floor_text.specs.Memory.{count_up, next_fails};
ghost use Rattle.floor_text.specs.Outside.{HasCause};
ghost use Rattle.links.specs.Links.{IsLinkOut, after_knock, with_back};

use crate::mem_link::MemLink;
use floor_text::{Calls, Failed};
use links::Door;
use std::alloc::{AllocError, Global};
use std::marker::Model;
use std::snapshot::Snapshot;

/// A door in memory, which hands out its links in order and then none, and tells all. Contracts see it as what it
/// tells, the links that it has still to give, the numbers of its knocks that fail, and how many failed.
#[derive(Drop)]
pub struct MemDoor {
    /// The links that it has still to give, the next one last.
    waiting: Vec<MemLink>,
    given: Vec<Snapshot<MemLink>>,
    back: Vec<MemLink>,
    calls: Calls,
}

impl Model for MemDoor {
    ghost use Rattle.std.specs.Prelude.{map, vec_len, vec_capacity};
    ghost use Rattle.std.specs.Prelude.{reverse};
    ghost use Rattle.std.specs.declared.snapshot.Snapshot.{Snapshot};
    ghost use Rattle.mem_links.specs.Memory.{MemoryLink, MemoryDoor, IsMemoryDoor};

    ghost Value = { MemoryDoor };

    ghost view = { λ d. record {
      told = record {
        knocks = d.calls.made;
        given = map (λ (s : Snapshot MemoryLink). s.value) d.given.items;
        back = d.back.items;
      };
      waiting = reverse d.waiting.items;
      failing = d.calls.failing.items;
      faults = d.calls.faults;
    } };

    ghost invariant = { λ d.
        IsMemoryDoor (vec_len d.waiting) (vec_len d.given) (vec_len d.back) (vec_capacity d.given)
        (vec_capacity d.back) };
}

impl MemDoor {
    /// Makes a door with these links, and takes the room for those that come back. The knocks whose numbers, from 1,
    /// are in `failing` fail and give no link.
    pub fn new(alloc: Global, links: Vec<MemLink>, failing: Vec<u64>) -> Result<MemDoor, AllocError>
        ensures { IfOk result (λ door. door ≡ record {
          told = record { knocks = 0; given = []; back = [] };
          waiting = links.items;
          failing = failing.items;
          faults = 0;
        }) }
    {
        let given = Vec::with_capacity(alloc, links.len())?;
        let back = Vec::with_capacity(alloc, links.len())?;
        let mut waiting = links;
        waiting.reverse();
        Ok(MemDoor {
            waiting,
            given,
            back,
            calls: Calls::new(failing),
        })
    }
}

impl Door for MemDoor {
    ghost use Rattle.std.specs.Prelude.{Some};

    type L = MemLink;

    ghost told = { λ d. Some d.told };

    ghost faults = { λ d. d.faults };

    /// Gives the next link, or `None` where all were given. It fails exactly at the knocks that are to fail.
    fn knock(&mut self) -> Result<Option<MemLink>, Failed>
        ensures told { Some self.new.told ≡ Some (after_knock result self.old.told) }
        ensures out { IfOk result (λ came. OnSome came (IsLinkOut (Some self.new.told))) }
        ensures cause { HasCause self.old.faults self.new.faults result }
        ensures steady { OnOk result (self.new.faults ≡ self.old.faults) }

        ensures fails { IsErr result ↔ IsTrue (next_fails self.old.failing self.old.told.knocks) }
        ensures never { self.old.failing ≡ [] → IsOk result }
        ensures next { IfOk result (λ link. link ≡ slice_get self.old.waiting 0) }
        ensures after { self.new ≡ record self.old {
          told = after_knock result self.old.told;
          waiting = (if is_err result then self.old.waiting else drop 1 self.old.waiting);
          faults = (if is_err result then count_up self.old.faults else self.old.faults);
        } }
    {
        if self.calls.next_fails() {
            self.calls.count_fault();
            return Err(Failed);
        }
        let Some(link) = self.waiting.pop() else {
            return Ok(None);
        };
        self.given.push_reserved(Snapshot::of(&link));
        Ok(Some(link))
    }

    fn back(&mut self, link: MemLink)
        requires { IsLinkOut (Some self.old.told) }
        ensures told { Some self.new.told ≡ Some (with_back link self.old.told) }
        ensures faults { self.new.faults ≡ self.old.faults }

        ensures after { self.new ≡ record self.old { told = with_back link self.old.told } }
    {
        self.back.push_reserved(link);
    }
}
