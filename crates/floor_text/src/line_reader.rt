//! Lines read from a source, block by block.

ghost use Rattle.std.specs.Prelude.{◌≡◌, ◌≢◌, ◌≤◌, ◌<◌, ◌-◌, ◌+◌, ◌↔◌, ℕ, List, [], ◌∷◌, ◌++◌, length, take, drop, Some, Ok, Err, MatchOption, is_some, IfOk, IfErr, IfSome, IfNone, OnErr, true, false};
ghost use Rattle.floor_text.specs.HeldBytes.{IsFirstFeed};
ghost use Rattle.std.specs.List.{list_any};
ghost use Rattle.floor_text.specs.Lines.{HasNoFeed, is_line_feed, cut_line, lines_of_bytes};
ghost use Rattle.floor_text.specs.Outside.{Rose};
ghost use Rattle.floor_text.specs.Reading.{bytes_ahead, held_within};

use crate::held_bytes::HeldBytes;
use crate::limits::{BLOCK, LONGEST_LINE};
use crate::outside::{Failed, Source};
use std::alloc::{AllocError, Global};
use std::marker::Model;

/// What a reader found.
#[derive(Clone, Copy, PartialEq, Eq)]
pub enum Next {
    /// A line of at most 400 bytes.
    Line,
    /// A line of more than 400 bytes.
    TooLong,
    /// The end of the source, with no byte before it that was not handed out.
    End,
}

/// Why a reader has no answer.
#[derive(Clone, Copy, PartialEq, Eq)]
pub enum ReadEnd {
    /// The source failed. A later call goes on.
    ReadFault,
    /// More bytes were taken than the limit allows, and each line that ended within it was handed out.
    InputTooLong,
}

/// Reads lines from a source that gives at most a limit of bytes. Contracts see it as the bytes that it
/// took and did not hand out, of a line that is too long the first 401 at least, as the line that it
/// handed out last, as the number of bytes taken, as the limit and as whether it came to the end.
#[derive(Drop)]
pub struct LineReader {
    bytes: HeldBytes,
    limit: u64,
    within: u64,
    over: bool,
    ended: bool,
}

impl Model for LineReader {
    ghost use Rattle.std.specs.Prelude.{◌-◌, ◌+◌, if◌then◌else◌};
    ghost use Rattle.floor_text.specs.Reading.{Reading, IsReading};

    ghost Value = { Reading };

    ghost view = { λ r. record {
      held = r.bytes.held;
      line = r.bytes.line;
      taken = r.limit - r.within + (if r.over then 1 else 0);
      limit = r.limit;
      ended = r.ended;
    } };

    ghost invariant = { λ r. IsReading r.bytes.held r.limit r.within r.over r.ended };
}

impl LineReader {
    ghost use Rattle.floor_text.specs.LineReader.{Reads, GoesOn, lines_of_next};

    /// Makes a reader that took nothing yet, and will take at most one byte more than the limit. It takes the
    /// room that it needs.
    pub fn new(alloc: Global, limit: u64) -> Result<LineReader, AllocError>
        ensures { IfOk result (λ reader. reader
            ≡ record { held = []; line = []; taken = 0; limit = limit; ended = false }) }
    {
        Ok(LineReader {
            bytes: HeldBytes::new(alloc)?,
            limit,
            within: limit,
            over: false,
            ended: false,
        })
    }

    /// Hands out the next line where its line feed is held within the limit, and else nothing. It takes nothing.
    pub fn next_held(&mut self) -> Option<Next>
        ensures held { is_some result ≡ list_any is_line_feed (take (held_within self.old) self.old.held) }
        ensures reads { IfSome result (λ next. (bytes : List ℕ)
            → GoesOn self.old self.new bytes (Some bytes) (lines_of_next (Ok next) self.new.line)) }
        ensures taken { self.new.taken ≡ self.old.taken }
        ensures limit { self.new.limit ≡ self.old.limit }
        ensures line { IfSome result (λ next. next ≢ Next.End) }
        ensures shorter { IfSome result (λ _. bytes_ahead self.new < bytes_ahead self.old) }
        ensures within_limit { IfSome result (λ _. self.new.limit < self.new.taken → 0 < length self.new.held) }
        ensures ended { IfSome result (λ _. self.new.ended ≡ false) }
        ensures none { IfNone result (self.new ≡ self.old) }
    {
        let at = self.feed_from(0)?;
        Some(self.hand_out(at, 1))
    }

    /// Hands out the next line. It takes from the source, in blocks of 65536 bytes, as far as it needs to.
    /// `InputTooLong` comes where more bytes were taken than the limit allows and each line whose line
    /// feed is within the limit was handed out; then nothing more is taken.
    pub fn next_line<S: Source>(&mut self, source: &mut S) -> Result<Next, ReadEnd>
        ensures reads { IfSome (S.left source.old)
            (λ bytes. Reads self.old self.new bytes (S.left source.new) (lines_of_next result self.new.line)) }
        ensures goes_on { self.new.ended ≡ false → IfSome (S.left source.old)
            (λ bytes. GoesOn self.old self.new bytes (S.left source.new) (lines_of_next result self.new.line)) }
        ensures taken { (self.old.taken ≤ self.new.taken) × (self.new.taken ≤ self.new.limit + 1) }
        ensures untouched { list_any is_line_feed (take (held_within self.old) self.old.held) ≡ true
            → source.new ≡ source.old }
        ensures limit { self.new.limit ≡ self.old.limit }
        ensures shorter { IfOk result (λ next. next ≢ Next.End → bytes_ahead self.new < bytes_ahead self.old) }

        // Where the source came to its end, nothing is left, here and in a source that tells.
        ensures end { result ≡ Ok Next.End → self.new.ended ≡ true }
        ensures ended { self.new.ended ≡ true → self.new.held ≡ [] }
        ensures source_end { self.new.ended ≡ true → IfSome (S.left source.old) (λ _. S.left source.new ≡ Some []) }

        // The byte past the limit is never handed out, and it is the cause of `InputTooLong`.
        ensures within_limit { self.new.limit < self.new.taken → 0 < length self.new.held }
        ensures input_too_long { IfErr result
            (λ end. (end ≡ ReadEnd.InputTooLong) ↔ (self.new.limit < self.new.taken)) }
        ensures no_line { IfErr result (λ _. HasNoFeed (take (held_within self.new) self.new.held)) }
        ensures not_ended { IfErr result (λ _. self.new.ended ≡ false) }

        ensures faults { S.faults source.old ≤ S.faults source.new }
        ensures read_fault { result ≡ Err ReadEnd.ReadFault → Rose (S.faults source.old) (S.faults source.new) }
    {
        let mut searched = 0;
        'search: loop {
            if let Some(at) = self.feed_from(searched) {
                return Ok(self.hand_out(at, 1));
            }
            let taken = self.take_more(source)?;
            if taken == 0 {
                return Ok(self.last_line());
            }
            searched = self.len() - taken;
        }
    }

    /// Gives the bytes of the line handed out last, after `Line` until the next call of `next_line`.
    pub fn line(&self) -> &[u8]
        ensures { result.now ≡ self.now.line }
    {
        self.bytes.line()
    }

    /// Tells whether the source had come to its end when the last line was handed out.
    pub fn ended(&self) -> bool
        ensures { result ≡ self.now.ended }
    {
        self.ended
    }

    fn len(&self) -> usize
        ensures { result ≡ length self.now.held }
    {
        self.bytes.len()
    }

    /// Gives the index of the first line feed within the limit, where there is none before the index given.
    fn feed_from(&self, searched: usize) -> Option<usize>
        requires within { searched ≤ held_within self.now }
        requires before { HasNoFeed (take searched self.now.held) }
        ensures found { MatchOption result (HasNoFeed (take (held_within self.now) self.now.held))
            (λ at. (at < held_within self.now) × IsFirstFeed self.now.held at) }
        ensures ended { IfSome result (λ _. self.now.ended ≡ false) }
        ensures most { self.now.taken ≤ self.now.limit + 1 }
    {
        let mut to = self.bytes.len();
        if self.over {
            to -= 1;
        }
        self.bytes.feed_between(searched, to)
    }

    /// Hands out a line, and lets the bytes that end it go.
    fn hand_out(&mut self, line: usize, ending: usize) -> Next
        requires within { line + ending ≤ length self.old.held }
        requires within_limit { self.old.limit < self.old.taken → line + ending < length self.old.held }
        ensures line { lines_of_next (Ok result) self.new.line ≡ cut_line (take line self.old.held) ∷ [] }
        ensures held { self.new.held ≡ drop (line + ending) self.old.held }
        ensures taken { self.new.taken ≡ self.old.taken }
        ensures limit { self.new.limit ≡ self.old.limit }
        ensures ended { self.new.ended ≡ self.old.ended }
        ensures line_or_long { result ≢ Next.End }
    {
        self.bytes.hand_out(line, ending);
        if line > LONGEST_LINE {
            return Next::TooLong;
        }
        Next::Line
    }

    /// Hands out what is held, at the end of the source.
    fn last_line(&mut self) -> Next
        requires within_limit { self.old.taken ≤ self.old.limit }
        requires no_feed { HasNoFeed self.old.held }
        ensures line { lines_of_next (Ok result) self.new.line ≡ lines_of_bytes self.old.held }
        ensures held { self.new.held ≡ [] }
        ensures taken { self.new.taken ≡ self.old.taken }
        ensures limit { self.new.limit ≡ self.old.limit }
        ensures ended { self.new.ended ≡ true }
        ensures some { result ≢ Next.End → 0 < length self.old.held }
    {
        let line = self.bytes.len();
        if line == 0 {
            self.ended = true;
            return Next::End;
        }
        let next = self.hand_out(line, 0);
        self.ended = true;
        next
    }

    /// Takes the next block, and answers how many bytes came.
    fn take_more<S: Source>(&mut self, source: &mut S) -> Result<usize, ReadEnd>
        requires { HasNoFeed (take (held_within self.old) self.old.held) }
        ensures reads { IfSome (S.left source.old) (λ bytes. GoesOn self.old self.new bytes (S.left source.new) []) }
        ensures limit { self.new.limit ≡ self.old.limit }
        ensures ahead { bytes_ahead self.new ≤ bytes_ahead self.old }
        ensures count { IfOk result (λ n. (self.new.taken ≡ self.old.taken + n) × (n ≤ length self.new.held)) }
        ensures taken { self.new.taken ≤ self.new.limit + 1 }
        ensures within_limit { self.new.limit < self.new.taken → 0 < length self.new.held }
        ensures searched { IfOk result (λ n. HasNoFeed (take (length self.new.held - n) self.new.held)) }
        ensures within { IfOk result (λ n. self.old.taken ≤ self.old.limit) }
        ensures source_end { result ≡ Ok 0 → IfSome (S.left source.old) (λ _. S.left source.new ≡ Some []) }
        ensures same { OnErr result (self.new.taken ≡ self.old.taken) }
        ensures input_too_long { IfErr result
            (λ end. (end ≡ ReadEnd.InputTooLong) ↔ (self.new.limit < self.new.taken)) }
        ensures no_line { OnErr result (HasNoFeed (take (held_within self.new) self.new.held)) }
        ensures ended { self.new.ended ≡ false }
        ensures faults { S.faults source.old ≤ S.faults source.new }
        ensures read_fault { result ≡ Err ReadEnd.ReadFault → Rose (S.faults source.old) (S.faults source.new) }
    {
        self.ended = false;
        if self.over {
            return Err(ReadEnd::InputTooLong);
        }
        let ask = if self.within < BLOCK as u64 {
            self.within as usize + 1
        } else {
            BLOCK
        };
        let Ok(taken) = self.bytes.fill(source, ask) else {
            return Err(ReadEnd::ReadFault);
        };
        if taken as u64 > self.within {
            self.within = 0;
            self.over = true;
        } else {
            self.within -= taken as u64;
        }
        Ok(taken)
    }
}
