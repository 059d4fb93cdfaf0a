//! The lock.
ghost use Rattle.std.specs.Prelude.{◌≡◌, ◌<◌};
ghost use Rattle.history_lock.specs.Limits.{word_count};

use crate::grows::Grows;
use crate::rule::Board;

/// A lock round a value with a history. Threads share it, and enter by the passes that were made with it.
#[derive(Drop)]
pub struct HistoryLock<V: Grows> {
    pub(crate) table: Board<V>,
    pub(crate) passes: u32,
    ghost counted: { table.shared.key.passes ≡ passes },
    ghost some: { 0 < passes },
    ghost sized: { (table.shared.table_id.words ≡ word_count) × (table.shared.table_id.slots ≡ 1) },
}
