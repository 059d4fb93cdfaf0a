//! Bytes that were taken from a source and wait to be handed out.

ghost use Rattle.std.specs.Prelude.{◌≡◌, ◌+◌, ◌-◌, ◌<◌, ◌≤◌, ℕ, List, [], ◌++◌, length, take, drop, slice_range, position, Some, MatchOption, IfSome, IfOk, OnOk, OnErr};
ghost use Rattle.floor_text.specs.HeldBytes.{IsFirstFeed, Fills, Gives};
ghost use Rattle.floor_text.specs.Lines.{HasNoFeed, is_line_feed};
ghost use Rattle.floor_text.specs.Outside.{HasCause};

use crate::limits::{BLOCK, KEPT};
use crate::outside::{Failed, Source};
use memchr::memchr;
use std::alloc::{AllocError, Global};
use std::marker::Model;

/// Bytes that wait, in a buffer of one size. The line handed out last stays in it for a while.
#[derive(Drop)]
pub struct HeldBytes {
    buffer: Vec<u8>,
    start: usize,
    end: usize,
    line_start: usize,
    line_end: usize,
}

impl Model for HeldBytes {
    ghost use Rattle.std.specs.Prelude.{slice_range, vec_len};
    ghost use Rattle.floor_text.specs.HeldBytes.{Holding, IsHolding};

    ghost Value = { Holding };

    ghost view = { λ h. record {
      held = slice_range h.buffer.items h.start h.end;
      line = slice_range h.buffer.items h.line_start h.line_end;
    } };

    ghost invariant = { λ h. IsHolding (vec_len h.buffer) h.start h.end h.line_start h.line_end };
}

fn first_feed(bytes: &[u8]) -> Option<usize>
    ensures { result ≡ position is_line_feed bytes.now }
{
    memchr(b'\n', bytes)
}

fn take_at<S: Source>(
    source: &mut S,
    buffer: &mut [u8],
    at: usize,
    ask: usize,
) -> Result<usize, Failed>
    requires { at + ask ≤ length buffer.old }
    ensures count { IfOk result (λ n. n ≤ ask) }
    ensures front { take at buffer.new ≡ take at buffer.old }
    ensures bytes { IfOk result (λ n. IfSome (S.left source.old)
        (λ bytes. Gives bytes (S.left source.new) (drop at buffer.new) ask n)) }
    ensures left { OnErr result (S.left source.new ≡ S.left source.old) }
    ensures cause { HasCause (S.faults source.old) (S.faults source.new) result }
{
    source.take(&mut buffer[at..at + ask])
}

impl HeldBytes {
    /// Makes a buffer in which no byte waits. It takes the room that it needs.
    pub fn new(alloc: Global) -> Result<HeldBytes, AllocError>
        ensures { IfOk result (λ bytes. (bytes.held ≡ []) × (bytes.line ≡ [])) }
    {
        Ok(HeldBytes {
            buffer: vec![in alloc; 0; BLOCK + KEPT]?,
            start: 0,
            end: 0,
            line_start: 0,
            line_end: 0,
        })
    }

    /// Counts the bytes that wait.
    pub fn len(&self) -> usize
        ensures { result ≡ length self.now.held }
    {
        self.end - self.start
    }

    /// Gives the line handed out last.
    pub fn line(&self) -> &[u8]
        ensures { result.now ≡ self.now.line }
    {
        &self.buffer[self.line_start..self.line_end]
    }

    /// Finds the index of the first line feed from one index up to another.
    pub fn feed_between(&self, from: usize, to: usize) -> Option<usize>
        requires order { from ≤ to }
        requires within { to ≤ length self.now.held }
        ensures { MatchOption result (HasNoFeed (slice_range self.now.held from to))
            (λ at. IsFirstFeed (slice_range self.now.held from to) (at - from) × (from ≤ at)) }
    {
        match first_feed(&self.buffer[self.start + from..self.start + to]) {
            Some(at) => Some(from + at),
            None => None,
        }
    }

    /// Makes the first bytes the line, and lets so many more go.
    pub fn hand_out(&mut self, line: usize, more: usize)
        requires { line + more ≤ length self.old.held }
        ensures line { self.new.line ≡ take line self.old.held }
        ensures held { self.new.held ≡ drop (line + more) self.old.held }
    {
        self.line_start = self.start;
        self.line_end = self.start + line;
        self.start += line + more;
    }

    /// Asks the source for so many bytes and puts them behind the first 401 that wait. Answers how many
    /// came.
    pub fn fill<S: Source>(&mut self, source: &mut S, ask: usize) -> Result<usize, Failed>
        requires { ask ≤ BLOCK }
        ensures count { IfOk result (λ n. (n ≤ ask) × (length self.new.held ≡ length (take KEPT self.old.held) + n)) }
        ensures front { take (length (take KEPT self.old.held)) self.new.held ≡ take KEPT self.old.held }
        ensures bytes { IfOk result (λ n. IfSome (S.left source.old)
            (λ bytes. Fills (take KEPT self.old.held) bytes (S.left source.new) self.new.held ask n)) }
        ensures kept { OnErr result (self.new.held ≡ take KEPT self.old.held) }
        ensures left { OnErr result (S.left source.new ≡ S.left source.old) }
        ensures cause { HasCause (S.faults source.old) (S.faults source.new) result }
    {
        let start = self.start;
        let kept = (self.end - start).min(KEPT);
        self.buffer.copy_within(start..start + kept, 0);
        self.start = 0;
        self.end = kept;
        self.line_start = 0;
        self.line_end = 0;
        let n = take_at(source, &mut self.buffer, kept, ask)?;
        self.end += n;
        Ok(n)
    }
}
