//! A source and a sink in memory, for tests and for programs that have their bytes at hand.

ghost use Rattle.std.specs.Prelude.{◌≡◌, ◌≤◌, ◌<◌, ◌+◌, ◌↔◌, ◌⊎◌, [], ◌++◌, length, min, IsTrue, IsErr, IsOk, IfOk, IfSome, OnOk, OnErr, is_err, if◌then◌else◌};
ghost use Rattle.floor_text.specs.Memory.{count_up, next_fails};
ghost use Rattle.floor_text.specs.Outside.{HasCause, Takes, Puts};

use crate::calls::Calls;
use crate::outside::{Failed, Sink, Source};
use std::alloc::{AllocError, Global};
use std::marker::Model;

/// A source over bytes in memory. Contracts see it as the bytes that it has left, the numbers of its
/// calls that fail, and how many calls were made and failed.
#[derive(Drop)]
pub struct MemSource {
    bytes: Vec<u8>,
    given: usize,
    calls: Calls,
}

impl Model for MemSource {
    ghost use Rattle.std.specs.Prelude.{drop, vec_len};
    ghost use Rattle.floor_text.specs.Memory.{MemoryOut, IsMemoryOut};

    ghost Value = { MemoryOut };

    ghost view = { λ s. record {
      left = drop s.given s.bytes.items;
      failing = s.calls.failing.items;
      calls = s.calls.made;
      faults = s.calls.faults;
    } };

    ghost invariant = { λ s. IsMemoryOut s.given (vec_len s.bytes) };
}

impl MemSource {
    /// Makes a source of these bytes, which takes no memory. The calls whose numbers, from 1, are in `failing`
    /// fail and give nothing.
    pub fn new(bytes: Vec<u8>, failing: Vec<u64>) -> MemSource
        ensures { result ≡ record { left = bytes.items; failing = failing.items; calls = 0; faults = 0 } }
    {
        MemSource {
            bytes,
            given: 0,
            calls: Calls::new(failing),
        }
    }
}

impl Source for MemSource {
    ghost use Rattle.std.specs.Prelude.{Some};

    ghost left = { λ s. Some s.left };

    ghost faults = { λ s. s.faults };

    /// Gives as many bytes as the buffer has room for. It fails exactly at the calls that are to fail, and
    /// its count of faults rises exactly then.
    fn take(&mut self, buffer: &mut [u8]) -> Result<usize, Failed>
        ensures count { IfOk result (λ n. n ≤ length buffer.new) }
        ensures bytes { IfOk result (λ n. IfSome (Some self.old.left)
            (λ bytes. Takes bytes (Some self.new.left) buffer.new n)) }
        ensures kept { OnErr result (Some self.new.left ≡ Some self.old.left) }
        ensures cause { HasCause self.old.faults self.new.faults result }

        ensures fails { IsErr result ↔ IsTrue (next_fails self.old.failing self.old.calls) }
        ensures never { self.old.failing ≡ [] → IsOk result }
        ensures given { IfOk result (λ n. n ≡ min (length self.old.left) (length buffer.old)) }
        ensures failing { self.new.failing ≡ self.old.failing }
        ensures calls { self.new.calls ≡ count_up self.old.calls }
        ensures faults { self.new.faults ≡ (if is_err result then count_up self.old.faults else self.old.faults) }
    {
        if self.calls.next_fails() {
            self.calls.count_fault();
            return Err(Failed);
        }
        let left = &self.bytes[self.given..];
        let n = left.len().min(buffer.len());
        buffer[..n].copy_from_slice(&left[..n]);
        self.given += n;
        Ok(n)
    }
}

/// A sink in memory. Contracts see it as the bytes that were put, how many it has room for, the numbers
/// of its calls that fail, and how many calls were made and failed.
#[derive(Drop)]
pub struct MemSink {
    bytes: Vec<u8>,
    room: usize,
    calls: Calls,
}

impl Model for MemSink {
    ghost use Rattle.std.specs.Prelude.{vec_len, vec_capacity};
    ghost use Rattle.floor_text.specs.Memory.{MemoryIn, IsMemoryIn};

    ghost Value = { MemoryIn };

    ghost view = { λ s. record {
      bytes = s.bytes.items;
      room = s.room;
      failing = s.calls.failing.items;
      calls = s.calls.made;
      faults = s.calls.faults;
    } };

    ghost invariant = { λ s. IsMemoryIn (vec_len s.bytes) (vec_capacity s.bytes) s.room };
}

impl MemSink {
    /// Makes an empty sink, which takes room for so many bytes. The calls whose numbers, from 1, are in
    /// `failing` fail and put nothing, and so do those that find too little room.
    pub fn new(alloc: Global, room: usize, failing: Vec<u64>) -> Result<MemSink, AllocError>
        ensures { IfOk result (λ sink. sink ≡ record {
          bytes = [];
          room = room;
          failing = failing.items;
          calls = 0;
          faults = 0;
        }) }
    {
        Ok(MemSink {
            bytes: Vec::with_capacity(alloc, room)?,
            room,
            calls: Calls::new(failing),
        })
    }

    /// Gives the bytes that were put.
    pub fn bytes(&self) -> &[u8]
        ensures { result.now ≡ self.now.bytes }
    {
        &self.bytes
    }
}

impl Sink for MemSink {
    ghost use Rattle.std.specs.Prelude.{Some};

    ghost written = { λ s. Some s.bytes };

    ghost faults = { λ s. s.faults };

    /// Puts all the bytes, or where it fails none. It fails exactly at the calls that are to fail and where
    /// the bytes are beyond its room, and its count of faults rises exactly then. It takes no memory.
    fn put(&mut self, bytes: &[u8]) -> Result<(), Failed>
        ensures bytes { IfSome (Some self.old.bytes) (λ before. Puts before bytes.now (Some self.new.bytes) result) }
        ensures cause { HasCause self.old.faults self.new.faults result }

        ensures fails { IsErr result ↔ (IsTrue (next_fails self.old.failing self.old.calls)
            ⊎ (self.old.room < length self.old.bytes + length bytes.now)) }
        ensures never { self.old.failing ≡ [] → length self.old.bytes + length bytes.now ≤ self.old.room → IsOk result }
        ensures ok { OnOk result (self.new.bytes ≡ self.old.bytes ++ bytes.now) }
        ensures err { OnErr result (self.new.bytes ≡ self.old.bytes) }
        ensures room { self.new.room ≡ self.old.room }
        ensures failing { self.new.failing ≡ self.old.failing }
        ensures calls { self.new.calls ≡ count_up self.old.calls }
        ensures faults { self.new.faults ≡ (if is_err result then count_up self.old.faults else self.old.faults) }
    {
        let fails = self.calls.next_fails();
        if fails || bytes.len() > self.room - self.bytes.len() {
            self.calls.count_fault();
            return Err(Failed);
        }
        let _ = self.bytes.extend_from_slice(bytes);
        Ok(())
    }
}
