//! Runs over memory.

use super::texts::{is_same, words_of};
use floor_offline::run_offline;
use floor_text::{MemSink, MemSource, Source};
use std::alloc::{AllocError, Global};

/// Gives the lines of an input that is written in parts.
pub fn input_of(alloc: Global, parts: &[&str]) -> Result<Vec<u8>, AllocError> {
    let mut input = Vec::new(alloc);
    for part in parts {
        input.extend_from_slice(part.as_bytes())?;
    }
    Ok(input)
}

/// The call of each kind that fails, by its number from 1. None of its kind fails where it is 0.
#[derive(Clone, Copy)]
pub struct Failing {
    pub take: u64,
    pub put: u64,
    pub err_put: u64,
}

/// No call fails.
pub const NOTHING: Failing = Failing {
    take: 0,
    put: 0,
    err_put: 0,
};

/// What a run over memory came to.
#[derive(Drop)]
pub struct Ran {
    pub status: u8,
    pub out: MemSink,
    pub err: MemSink,
}

impl Ran {
    /// Tells whether a run ended with this status, and put this on out and on err.
    pub fn is(&self, status: u8, out: &[u8], err: &[u8]) -> bool {
        self.status == status && is_same(self.out.bytes(), out) && is_same(self.err.bytes(), err)
    }
}

/// Makes a sink with room for 4096 bytes, of whose puts one fails.
fn sink(alloc: Global, failing: u64) -> Result<MemSink, AllocError> {
    MemSink::new(alloc, 4096, vec![in alloc; failing]?)
}

/// Runs words over a source, with the puts of these numbers failing.
pub fn run_over<I: Source>(
    alloc: Global,
    words: &[&str],
    source: &mut I,
    failing: Failing,
) -> Result<Ran, AllocError> {
    let words = words_of(alloc, words)?;
    let mut out = sink(alloc, failing.put)?;
    let mut err = sink(alloc, failing.err_put)?;
    let status = run_offline(alloc, &words, source, &mut out, &mut err);
    Ok(Ran { status, out, err })
}

/// Runs words over an input, with the calls of these numbers failing.
pub fn run(
    alloc: Global,
    words: &[&str],
    input: Vec<u8>,
    failing: Failing,
) -> Result<Ran, AllocError> {
    let mut source = MemSource::new(input, vec![in alloc; failing.take]?);
    run_over(alloc, words, &mut source, failing)
}
