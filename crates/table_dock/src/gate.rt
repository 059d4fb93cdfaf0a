//! What is told that a table's lock is held.

/// Is called by each act, while the lock of its table is held.
pub trait Gate {
    /// Is told the number of the table.
    fn held(&self, table: u8);
}
