//! What is left of a table, and how far its lines were told.

use floor_text::List;
use table_engine::Hand;
use view_rules::TableEntry;

/// What was behind the lock of a table.
#[derive(Drop)]
pub struct TableEnd {
    /// Its history.
    pub entries: List<TableEntry>,
    /// The hand that lies there, if one does.
    pub hand: Option<Hand>,
}

/// Memory ran out while lines were told.
#[derive(Clone, Copy, PartialEq, Eq)]
pub struct Untold {
    /// The number of the first entry that was not told. All before it were told whole.
    pub told: u64,
}
