//! The bytes that a session has taken and not handled yet.

ghost use Rattle.std.specs.Prelude.{◌≡◌, ◌≤◌, ℕ, List, [], ◌++◌, drop, false, is_some, true, length, nat_lt, option_map, IfNone, IfOk, MatchResult};
ghost use Rattle.std.specs.List.{list_any};
ghost use Rattle.floor_text.specs.Lines.{HasNoFeed, is_line_feed, lines_of_bytes};
ghost use Rattle.floor_text.specs.LineCutter.{lines_of_cut};
ghost use Rattle.floor_text.specs.Outside.{HasCause};
ghost use Rattle.session_desk.specs.Inboxes.{IsUnread, gave, is_line_held, line_of_cut, waiting};

use floor_text::{Cut, Failed, LineCutter};
use links::{Link, Taken};
use std::alloc::{AllocError, Global};
use std::marker::Model;

/// How many bytes are taken at once.
const ROOM: usize = 512;

/// The bytes that a session has taken and not handled yet, and the line that it handles.
#[derive(Drop)]
pub(crate) struct Inbox {
    cutter: LineCutter,
    buffer: Vec<u8>,
    start: usize,
    end: usize,
    ended: bool,
}

impl Model for Inbox {
    ghost use Rattle.std.specs.Prelude.{slice_range, vec_len};
    ghost use Rattle.session_desk.specs.Inboxes.{IsInbox, Waiting};

    ghost Value = { Waiting };

    ghost view = { λ inbox. record {
      begun = inbox.cutter.begun;
      unread = slice_range inbox.buffer.items inbox.start inbox.end;
      line = inbox.cutter.line;
      ended = inbox.ended;
    } };

    ghost invariant = { λ inbox. IsInbox inbox.cutter.begun inbox.start inbox.end (vec_len inbox.buffer) };
}

/// Cuts the first line of the bytes, and answers how many it has looked at: all of them where no line ends.
fn cut_first(cutter: &mut LineCutter, bytes: &[u8]) -> (usize, Option<Cut>)
    ensures within { result.0 ≤ length bytes.now }
    ensures all { IfNone result.1 (result.0 ≡ length bytes.now) }
    ensures lines { (rest : List ℕ) → lines_of_bytes (cutter.old.begun ++ (bytes.now ++ rest))
        ≡ lines_of_cut result.1 cutter.new.line
        ++ lines_of_bytes (cutter.new.begun ++ (drop result.0 bytes.now ++ rest)) }
    ensures held { is_some result.1 ≡ list_any is_line_feed bytes.now }
    ensures no_feed { HasNoFeed cutter.old.begun → HasNoFeed cutter.new.begun }
{
    let mut rest = bytes;
    while let Some((byte, behind)) = rest.split_first() {
        rest = behind;
        if let Some(cut) = cutter.push(*byte) {
            return (bytes.len() - rest.len(), Some(cut));
        }
    }
    (bytes.len(), None)
}

impl Inbox {
    /// Makes an empty inbox. It takes the room that it needs.
    pub(crate) fn new(alloc: Global) -> Result<Inbox, AllocError>
        ensures { IfOk result (λ inbox. (waiting inbox ≡ []) × (inbox.ended ≡ false)) }
    {
        Ok(Inbox {
            cutter: LineCutter::new(alloc)?,
            buffer: vec![in alloc; 0; ROOM]?,
            start: 0,
            end: 0,
            ended: false,
        })
    }

    /// Tells whether the link gave its end.
    pub(crate) fn has_ended(&self) -> bool
        ensures { result ≡ self.now.ended }
    {
        self.ended
    }

    /// Hands out the next line that has ended. `None` exactly where no whole line is held.
    pub(crate) fn next_line(&mut self) -> Option<Cut>
        ensures lines { (rest : List ℕ) → lines_of_bytes (waiting self.old ++ rest)
            ≡ lines_of_cut result self.new.line ++ lines_of_bytes (waiting self.new ++ rest) }
        ensures held { is_some result ≡ is_line_held (waiting self.old) }
        ensures none { IfNone result (self.new.unread ≡ []) }
        ensures no_feed { HasNoFeed self.new.begun }
        ensures ended { self.new.ended ≡ self.old.ended }
    {
        let (n, cut) = cut_first(&mut self.cutter, &self.buffer[self.start..self.end]);
        self.start += n;
        cut
    }

    /// Takes once from the link, which has not ended. No line is held.
    pub(crate) fn take<L: Link>(&mut self, link: &mut L) -> Result<Taken, Failed>
        requires unread { self.old.unread ≡ [] }
        requires going { self.old.ended ≡ false }
        ensures told { L.told link.new ≡ option_map (gave result self.new.unread) (L.told link.old) }
        ensures begun { self.new.begun ≡ self.old.begun }
        ensures unread { MatchResult result (λ taken. IsUnread taken self.new.unread) (λ _. self.new.unread ≡ []) }
        ensures ended { self.new.ended ≡ false }
        ensures cause { HasCause (L.faults link.old) (L.faults link.new) result }
    {
        let taken = link.take(&mut self.buffer);
        self.start = 0;
        self.end = match taken {
            Ok(Taken::Bytes(n)) => n,
            _ => 0,
        };
        taken
    }

    /// Hands out the last line, which no line feed ends, once the link gave its end. `None` where no byte is left.
    pub(crate) fn last_line(&mut self) -> Option<Cut>
        requires unread { self.old.unread ≡ [] }
        ensures lines { lines_of_bytes (waiting self.old) ≡ lines_of_cut result self.new.line }
        ensures some { is_some result ≡ nat_lt 0 (length (waiting self.old)) }
        ensures none_left { waiting self.new ≡ [] }
        ensures ended { self.new.ended ≡ true }
    {
        self.ended = true;
        self.cutter.end()
    }

    /// Gives the line handed out last. `None` where it was too long.
    pub(crate) fn line(&self, cut: Cut) -> Option<&[u8]>
        ensures { option_map (λ line. line.now) result ≡ line_of_cut cut self.now.line }
    {
        match cut {
            Cut::Line => Some(self.cutter.line()),
            Cut::TooLong => None,
        }
    }
}
