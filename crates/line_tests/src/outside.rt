//! A source and a sink of somebody's own, which tell nothing.

use super::texts::{is_same, words_of};
use floor_offline::run_offline;
use floor_text::{Failed, MemSource, Sink, Source};
use std::alloc::{AllocError, Global};

/// The most bytes that the source gives at once.
const DROP: usize = 7;

/// A source that gives its bytes a few at a time, and fails at one call, by its number from 1. It tells nothing.
#[derive(Drop)]
pub struct Drops {
    bytes: Vec<u8>,
    given: usize,
    failing: u64,
    calls: u64,
    faults: u64,
}

impl Drops {
    /// Makes a source of these bytes.
    pub fn new(bytes: Vec<u8>, failing: u64) -> Drops {
        Drops {
            bytes,
            given: 0,
            failing,
            calls: 0,
            faults: 0,
        }
    }
}

impl Source for Drops {
    ghost use Rattle.std.specs.Prelude.{None};

    ghost left = { λ _. None };

    ghost faults = { λ s. s.faults };

    fn take(&mut self, buffer: &mut [u8]) -> Result<usize, Failed> {
        self.calls = self.calls.saturating_add(1);
        if self.calls == self.failing {
            self.faults = self.faults.saturating_add(1);
            return Err(Failed);
        }
        let left = self.bytes.get(self.given..).unwrap_or(&[]);
        let count = left.len().min(buffer.len()).min(DROP);
        buffer[..count].copy_from_slice(&left[..count]);
        self.given = self.given.saturating_add(count);
        Ok(count)
    }
}

/// A sink that has `put` alone. It keeps what was put, with a bar behind each put.
#[derive(Drop)]
struct OwnSink {
    text: Vec<u8>,
    faults: u64,
}

impl OwnSink {
    fn new(alloc: Global) -> OwnSink {
        OwnSink {
            text: Vec::new(alloc),
            faults: 0,
        }
    }
}

impl Sink for OwnSink {
    ghost use Rattle.std.specs.Prelude.{None};

    ghost written = { λ _. None };

    ghost faults = { λ s. s.faults };

    fn put(&mut self, bytes: &[u8]) -> Result<(), Failed> {
        if self.text.extend_from_slice(bytes).is_err() || self.text.push(b'|').is_err() {
            self.faults = self.faults.saturating_add(1);
            return Err(Failed);
        }
        Ok(())
    }
}

/// What three lines are answered, of which no line feed ends the last: behind it the source is asked no more.
const ANSWERED: &str =
    "no 2 NoPlan\n|ok\n|no 1 Syntax\n|* report\n* level 0\n* sold 0\n* removed 0\n* added 0\n* rest 0\n* play 0\n* end\n|";

/// Which take fails, and then the status and what is put on out and on err.
static TAKES: [(u64, u8, &str, &str); 4] = [
    (0, 0, ANSWERED, ""),
    (1, 3, "", "read fault\n|"),
    (2, 3, "no 2 NoPlan\n|ok\n|", "read fault\n|"),
    (3, 0, ANSWERED, ""),
];

/// Tells whether three lines over sinks of somebody's own are answered as a row says.
fn is_answered(alloc: Global, row: &(u64, u8, &str, &str)) -> Result<bool, AllocError> {
    let words = words_of(alloc, &["replay"])?;
    let input = b"stop\ngame holdem\nstop ".to_vec(alloc)?;
    let mut source = MemSource::new(input, vec![in alloc; row.0]?);
    let mut out = OwnSink::new(alloc);
    let mut err = OwnSink::new(alloc);
    let status = run_offline(alloc, &words, &mut source, &mut out, &mut err);
    Ok(
        status == row.1
            && is_same(&out.text, row.2.as_bytes())
            && is_same(&err.text, row.3.as_bytes()),
    )
}

#[test]
fn an_own_sink_gets_each_answer_by_one_put(rt: HostRuntime) {
    for row in &TAKES {
        assert!(rt;
            is_answered(rt.alloc(), row).unwrap_or(false),
            "take {}",
            row.0
        );
    }
}
