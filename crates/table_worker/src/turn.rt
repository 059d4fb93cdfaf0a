//! What a turn of a worker did.

use floor_text::Refusal;

/// What a turn did.
#[derive(Clone, Copy, PartialEq, Eq)]
pub enum Turn {
    /// A hand was brought to the dock.
    Opened,
    /// No hand may begin now: it is refused so.
    NotNow(Refusal),
    /// The hand lies at the dock, and is not over.
    Lying,
    /// The hand was closed and settled.
    Settled,
    /// The order that was owed was carried out.
    Ordered,
    /// The tournament was stopped.
    Ended,
    /// Memory ran out. The next turn tries the same again.
    NoMemory,
}
