//! What a seat at the table knows. No value of these types is made: they exist in proofs alone.
use std::collections::LinkedList;

/// What stands of one pass: its number, the history that it has seen, and its own entries in order.
pub struct Share<E> {
    pub number: u64,
    pub seen: LinkedList<E>,
    pub own: LinkedList<E>,
}

/// A pass has one share. The seat from which the passes are split has those that are not given out yet,
/// and the seat that takes passes in, as the lock is closed, has theirs. A seat that was taken in has none.
pub struct View<E> {
    pub shares: LinkedList<Share<E>>,
    /// How often the pass has drawn a ticket.
    pub holds: u64,
    /// The count that the pass loaded last.
    pub known: u64,
    pub ticket: Option<u64>,
    /// Whether the ticket was found to be the one that is served.
    pub served: bool,
}
