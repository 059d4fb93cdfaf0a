//! Lines cut from bytes that come one by one.

ghost use Rattle.std.specs.Prelude.{◌≡◌, ◌≤◌, ◌↔◌, ◌<◌, ℕ, List, [], ◌∷◌, ◌++◌, length, Some, IsSome, IfOk};
ghost use Rattle.floor_text.specs.Limits.{longest_line};
ghost use Rattle.floor_text.specs.Lines.{HasNoFeed, cut_line, lines_of_bytes};

use crate::limits::{KEPT, LONGEST_LINE};
use std::alloc::{AllocError, Global};
use std::marker::Model;
use std::mem;

/// What ended at a line feed or at the end.
#[derive(Clone, Copy, PartialEq, Eq)]
pub enum Cut {
    /// A line of at most 400 bytes.
    Line,
    /// A line of more than 400 bytes.
    TooLong,
}

/// Cuts lines from bytes that come one by one. Contracts see it as the bytes that came since the last
/// line feed, of a long line the first 401, and as the line that it handed out last.
#[derive(Drop)]
pub struct LineCutter {
    begun: Vec<u8>,
    line: Vec<u8>,
}

impl Model for LineCutter {
    ghost use Rattle.std.specs.Prelude.{vec_capacity};
    ghost use Rattle.floor_text.specs.Cutting.{Cutting, IsCutting};

    ghost Value = { Cutting };

    ghost view = { λ c. record { begun = c.begun.items; line = c.line.items } };

    ghost invariant = { λ c. IsCutting c.begun.items (vec_capacity c.begun) (vec_capacity c.line) };
}

impl LineCutter {
    ghost use Rattle.floor_text.specs.LineCutter.{lines_of_cut, begun_after};

    /// Makes a cutter to which no byte came. It takes the room that it needs.
    pub fn new(alloc: Global) -> Result<LineCutter, AllocError>
        ensures { IfOk result (λ cutter. (cutter.begun ≡ []) × (cutter.line ≡ [])) }
    {
        Ok(LineCutter {
            begun: Vec::with_capacity(alloc, KEPT)?,
            line: Vec::with_capacity(alloc, KEPT)?,
        })
    }

    /// Takes the next byte. Answers at a line feed alone: `Line` where at most 400 bytes came since the
    /// last one, and else `TooLong`.
    pub fn push(&mut self, byte: u8) -> Option<Cut>
        ensures lines { (rest : List ℕ) → lines_of_bytes (self.old.begun ++ byte ∷ rest)
            ≡ lines_of_cut result self.new.line ++ lines_of_bytes (self.new.begun ++ rest) }
        ensures answers { IsSome result ↔ (byte ≡ 10) }
        ensures short { (result ≡ Some Cut.Line) ↔ ((byte ≡ 10) × (length self.old.begun ≤ longest_line)) }
        ensures line { result ≡ Some Cut.Line → self.new.line ≡ self.old.begun }
        ensures begun { self.new.begun ≡ begun_after self.old.begun byte }
    {
        if byte == b'\n' {
            return Some(self.cut());
        }
        if self.begun.len() < KEPT {
            let _ = self.begun.push(byte);
        }
        None
    }

    /// Takes the end for a line feed where a byte came since the last one, and else answers `None`.
    pub fn end(&mut self) -> Option<Cut>
        ensures lines { lines_of_bytes self.old.begun ≡ lines_of_cut result self.new.line }
        ensures answers { IsSome result ↔ (0 < length self.old.begun) }
        ensures short { (result ≡ Some Cut.Line)
            ↔ ((0 < length self.old.begun) × (length self.old.begun ≤ longest_line)) }
        ensures line { result ≡ Some Cut.Line → self.new.line ≡ self.old.begun }
        ensures begun { self.new.begun ≡ [] }
    {
        if self.begun.is_empty() {
            return None;
        }
        Some(self.cut())
    }

    /// Gives the bytes of the line handed out last. They stay until the next byte comes.
    pub fn line(&self) -> &[u8]
        ensures { result.now ≡ self.now.line }
    {
        &self.line
    }

    /// Ends the line begun.
    fn cut(&mut self) -> Cut
        ensures feed { HasNoFeed self.old.begun }
        ensures line { lines_of_cut (Some result) self.new.line ≡ cut_line self.old.begun ∷ [] }
        ensures short { (result ≡ Cut.Line) ↔ (length self.old.begun ≤ longest_line) }
        ensures begun { self.new.begun ≡ [] }
    {
        if self.begun.len() > LONGEST_LINE {
            self.begun.clear();
            return Cut::TooLong;
        }
        mem::swap(&mut self.begun, &mut self.line);
        self.begun.clear();
        Cut::Line
    }
}
