//! A connection to one client.
ghost use Rattle.std.specs.Prelude.{◌≡◌, ℕ, Option, IfOk, IfSome, IsTrue, length, option_map};
ghost use Rattle.floor_text.specs.Outside.{HasCause};
ghost use Rattle.links.specs.Telling.{Telling};
ghost use Rattle.links.specs.Links.{FitsBuffer, BringsNoByte, Puts, after_take};

use floor_text::Failed;

/// What a take brought.
#[derive(Clone, Copy, PartialEq, Eq)]
pub enum Taken {
    /// So many bytes, in the first places of the buffer.
    Bytes(usize),
    /// No byte will come any more.
    End,
    /// No byte is there now.
    Idle,
}

/// A connection to one client.
pub trait Link {
    /// The bytes that it gave and that were put, how often it gave Idle and whether it gave End, where it tells them.
    ghost told: { Self → Option Telling };

    /// How often it failed. The count never falls, and stands still at its type's end.
    ghost faults: { Self → ℕ };

    /// Takes what is there now into the first places of the buffer. Where the buffer has room, bytes that come are one
    /// at least. After an End no byte comes any more.
    fn take(&mut self, buffer: &mut [u8]) -> Result<Taken, Failed>
        ensures fits { IfOk result (λ taken. FitsBuffer taken (length buffer.new)) }
        ensures told { told self.new ≡ option_map (after_take result buffer.new) (told self.old) }
        ensures end { IfSome (told self.old) (λ before. IsTrue before.ended → IfOk result BringsNoByte) }
        ensures cause { HasCause (faults self.old) (faults self.new) result };

    /// Puts all the bytes, or where it fails a front of them.
    fn put(&mut self, bytes: &[u8]) -> Result<(), Failed>
        ensures told { IfSome (told self.old) (λ before. Puts before bytes.now (told self.new) result) }
        ensures cause { HasCause (faults self.old) (faults self.new) result };
}
