//! What everybody who works is given, and what comes back.

use book_dock::BookPass;
use session_desk::Desk;
use table_dock::TablePass;

/// What the worker of a table is given: the table's number, a pass of the book, and the first pass of the table's dock.
/// It gives the same back.
#[derive(Drop)]
pub(crate) struct Work {
    pub(crate) table: u8,
    pub(crate) book: BookPass,
    pub(crate) dock: TablePass,
}

/// What comes back from a desk: its passes, its door, and whether the door failed.
#[derive(Drop)]
pub(crate) struct Attended<D> {
    pub(crate) desk: Desk,
    pub(crate) door: D,
    pub(crate) failed: bool,
}
