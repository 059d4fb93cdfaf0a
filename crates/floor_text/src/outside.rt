//! Where bytes come from and where they go.

ghost use Rattle.std.specs.Prelude.{◌≡◌, ◌≤◌, ℕ, List, [], length, Option, Some, IfSome, IfOk, OnOk, OnErr};
ghost use Rattle.floor_text.specs.Outside.{HasCause, Takes, Puts, EndsWith};

/// The outside failed. Its count of faults says so too.
#[derive(Clone, Copy, PartialEq, Eq)]
pub struct Failed;

/// Where bytes come from.
pub trait Source {
    /// The bytes that it has not given yet, where it tells them.
    ghost left: { Self → Option (List ℕ) };

    /// How often it failed. The count never falls, and stands still at its type's end.
    ghost faults: { Self → ℕ };

    /// Puts the next bytes into the front of the buffer and answers how many, at most as many as the
    /// buffer is long. For a buffer with room it gives 0 bytes only at the end.
    fn take(&mut self, buffer: &mut [u8]) -> Result<usize, Failed>
        ensures count { IfOk result (λ n. n ≤ length buffer.new) }
        ensures bytes { IfOk result (λ n. IfSome (left self.old) (λ bytes. Takes bytes (left self.new) buffer.new n)) }
        ensures kept { OnErr result (left self.new ≡ left self.old) }
        ensures cause { HasCause (faults self.old) (faults self.new) result };
}

/// Where bytes go. What is put goes there in the order of the puts. A sink has `put` alone; one that would hold bytes
/// back has `put_later` too.
pub trait Sink {
    /// The bytes that were put, where it tells them.
    ghost written: { Self → Option (List ℕ) };

    /// The bytes that were put and that it still holds back. None, where it does not say otherwise.
    ghost held: { Self → List ℕ } = { λ _. [] };

    /// How often it failed. The count never falls, and stands still at its type's end.
    ghost faults: { Self → ℕ };

    /// Puts all the bytes, and lets go of what was held back before them. Where it fails it has put a front of them.
    fn put(&mut self, bytes: &[u8]) -> Result<(), Failed>
        ensures bytes { IfSome (written self.old) (λ before. Puts before bytes.now (written self.new) result) }
        ensures let_go { OnOk result (held self.new ≡ []) }
        ensures cause { HasCause (faults self.old) (faults self.new) result };

    /// Puts bytes that may be held back until the next `put`. A sink that holds nothing back puts them at once.
    fn put_later(&mut self, bytes: &[u8]) -> Result<(), Failed>
        ensures bytes { IfSome (written self.old) (λ before. Puts before bytes.now (written self.new) result) }
        ensures held_last { OnOk result (IfSome (written self.new) (λ all. EndsWith all (held self.new))) }
        ensures cause { HasCause (faults self.old) (faults self.new) result }
    {
        self.put(bytes)
    }
}
