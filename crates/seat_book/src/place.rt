//! A seat of a table.

/// A seat of a table.
#[derive(Clone, Copy, PartialEq, Eq)]
pub struct Place {
    /// The table's number, from 1.
    pub table: u8,
    /// The seat's number, from 1, clockwise.
    pub seat: u8,
}
