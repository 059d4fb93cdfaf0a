//! Clients who ask again and again, and their doors.

use floor_text::Failed;
use links::{Door, Hall, HallFault, Link, Taken};
use std::alloc::Global;
use std::mem;
use std::process::Abort;
use std::sync::atomic::{AtomicU64, Ordering};

/// What a client says, and what he looks for.
#[derive(Clone, Copy)]
pub struct Part {
    /// The lines that he says first.
    pub first: &'static [u8],
    /// The lines that he then says again and again.
    pub again: &'static [u8],
    /// How much is to be counted before he does.
    pub least: u64,
    /// He counts the lines that begin so.
    pub front: &'static [u8],
}

/// A client. His link is idle each time before he says something again.
#[derive(Drop)]
pub struct Caller<'a> {
    part: Part,
    awaits: &'a AtomicU64,
    counts: &'a AtomicU64,
    begun: bool,
    asks: bool,
}

/// Counts the lines that begin so.
pub fn count_lines(bytes: &[u8], front: &[u8]) -> u64 {
    bytes
        .split(|byte| *byte == b'\n')
        .filter(|line| line.starts_with(front))
        .count() as u64
}

impl Caller<'_> {
    /// Gives what he says next, which may be nothing.
    fn next(&mut self) -> &'static [u8] {
        if !self.begun {
            self.begun = true;
            return self.part.first;
        }
        self.asks = !self.asks;
        if self.asks && self.awaits.load(Ordering::SeqCst) >= self.part.least {
            self.part.again
        } else {
            b""
        }
    }
}

impl Link for Caller<'_> {
    ghost use Rattle.std.specs.Prelude.{None};

    ghost told = { λ _. None };

    ghost faults = { λ _. 0 };

    fn take(&mut self, buffer: &mut [u8]) -> Result<Taken, Failed> {
        let said = self.next();
        let n = said.len().min(buffer.len());
        if n == 0 {
            return Ok(Taken::Idle);
        }
        buffer[..n].copy_from_slice(&said[..n]);
        Ok(Taken::Bytes(n))
    }

    fn put(&mut self, bytes: &[u8]) -> Result<(), Failed> {
        let found = count_lines(bytes, self.part.front);
        self.counts.fetch_add(found, Ordering::SeqCst);
        Ok(())
    }
}

/// A door for clients, of whom each comes once.
#[derive(Drop)]
pub struct DoorAtHand<'a> {
    clients: Vec<Caller<'a>>,
}

impl<'a> Door for DoorAtHand<'a> {
    ghost use Rattle.std.specs.Prelude.{None};

    type L = Caller<'a>;

    ghost told = { λ _. None };

    ghost faults = { λ _. 0 };

    fn knock(&mut self) -> Result<Option<Caller<'a>>, Failed> {
        Ok(self.clients.pop())
    }

    fn back(&mut self, _link: Caller<'a>) {}
}

/// A hall with such doors.
#[derive(Drop)]
pub struct DoorsAtHand<'a> {
    doors: Vec<DoorAtHand<'a>>,
}

impl<'a> DoorsAtHand<'a> {
    /// Makes a hall with no door.
    pub fn new(alloc: Global) -> DoorsAtHand<'a> {
        DoorsAtHand {
            doors: Vec::new(alloc),
        }
    }

    /// Adds a door, to which one client comes.
    pub fn add(
        &mut self,
        rt: &impl Abort,
        alloc: Global,
        part: Part,
        awaits: &'a AtomicU64,
        counts: &'a AtomicU64,
    ) {
        let caller = Caller {
            part,
            awaits,
            counts,
            begun: false,
            asks: false,
        };
        let clients = Vec::from_array(alloc, [caller]).expect(rt, "memory");
        self.doors.push(DoorAtHand { clients }).expect(rt, "memory");
    }
}

impl<'a> Hall for DoorsAtHand<'a> {
    ghost use Rattle.std.specs.Prelude.{◌≡◌, None};

    type D = DoorAtHand<'a>;

    ghost told = { λ _. None };

    ghost faults = { λ _. 0 };

    fn doors(
        &mut self,
        alloc: Global,
        _port: u16,
        n: u32,
    ) -> Result<Vec<DoorAtHand<'a>>, HallFault> {
        if self.doors.len() != n as usize {
            return Err(HallFault::NoMemory);
        }
        Ok(mem::replace(&mut self.doors, Vec::new(alloc)))
    }

    fn back(&mut self, _doors: Vec<DoorAtHand<'a>>)
        ensures kept { self.new.doors ≡ self.old.doors }
    {}
}
