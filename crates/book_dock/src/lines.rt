//! What the floor tells of the journal.

ghost use Rattle.std.specs.Prelude.{◌≡◌, ◌≤◌, ◌++◌, drop, length, take, vec_len, IfOk, OnErr, OnOk};
ghost use Rattle.line_words.specs.Words.{Extends};
ghost use Rattle.dock_rules.specs.Pieces.{piece_end};
ghost use Rattle.dock_rules.specs.Points.{journal_text};

use crate::hold::BookHold;
use player_view::{JournalEntry, floor_lines};
use std::alloc::AllocError;

/// Writes the lines of entries, one after another. Where memory runs out, `out` has something behind what it had.
fn push_entries(entries: &[JournalEntry], out: &mut Vec<u8>) -> Result<(), AllocError>
    ensures ok { OnOk result (out.new.items ≡ out.old.items ++ journal_text entries.now) }
    ensures kept { Extends out.old.items out.new.items }
{
    for entry in entries {
        floor_lines(entry, out)?;
    }
    Ok(())
}

impl BookHold {
    /// Writes the lines of the entries from a number on, of so many at most, and gives the number of the first that it
    /// left out. After want of memory `out` is as before.
    pub(crate) fn read_lines(
        &self,
        from: u64,
        most: u64,
        out: &mut Vec<u8>,
    ) -> Result<u64, AllocError>
        requires { from ≤ vec_len self.now.journal }
        ensures last { IfOk result (λ last. last ≡ piece_end from most (length self.now.journal.items)) }
        ensures ok { IfOk result (λ last. out.new.items
            ≡ out.old.items ++ journal_text (drop from (take last self.now.journal.items))) }
        ensures err { OnErr result (out.new.items ≡ out.old.items) }
    {
        let before = out.len();
        let count = self.journal.len() as u64;
        let last = from + most.min(count - from);
        let written = push_entries(&self.journal[from as usize..last as usize], out);
        if written.is_err() {
            out.truncate(before);
            return Err(AllocError);
        }
        Ok(last)
    }
}
