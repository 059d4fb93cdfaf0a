//! What a value must tell of itself to lie behind a lock.
ghost use Rattle.std.specs.Prelude.{◌≡◌, ℕ, List, length};

/// The caller's number of an entry that stood in the history before the lock was made. No pass has it.
pub const OPENER: u32 = 4_294_967_295;

/// A value that has a history: a list of entries, each with its caller's number.
pub trait Grows {
    /// What stands in the history.
    type Entry;

    /// The history of the value, oldest entry first.
    ghost history: { Self → List Self.Entry };

    /// The number of the pass that made the entry, or `OPENER`.
    ghost caller_of: { Self.Entry → ℕ };

    /// Tells how many entries the history has.
    fn count(&self) -> u64
        ensures { result ≡ length (history self.now) };
}
