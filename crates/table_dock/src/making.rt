//! How a dock is made. The file of its own is for what the clauses see of a dock, which the file that declares it
//! cannot import.

ghost use Rattle.std.specs.Prelude.{◌≡◌, ◌+◌, ◌<◌, [], IfOk, vec_len};
ghost use Rattle.history_lock.specs.Limits.{most_passes};
ghost use Rattle.history_lock.specs.Passes.{AreFresh};
ghost use Rattle.table_dock.specs.Docks.{dock_id, dock_passes, table_of};

use crate::dock::{TableDock, TablePass};
use crate::hold::TableHold;
use history_lock::make;
use std::alloc::{AllocError, Global};

/// Makes a dock where no hand lies, with a pass for the worker, which is pass 0, and one for each desk.
pub fn make_dock(
    alloc: Global,
    table: u8,
    desks: u32,
) -> Result<(TableDock, Vec<TablePass>), AllocError>
    requires { desks < most_passes }
    ensures table { IfOk result (λ made. table_of made.0 ≡ table) }
    ensures passes { IfOk result (λ made. dock_passes made.0 ≡ desks + 1) }
    ensures count { IfOk result (λ made. vec_len made.1 ≡ desks + 1) }
    ensures fresh { IfOk result (λ made. AreFresh (dock_id made.0) [] made.1.items) }
{
    match make(alloc, TableHold::new(alloc), desks + 1) {
        Ok((lock, passes)) => Ok((TableDock { table, lock }, passes)),
        Err(_) => Err(AllocError),
    }
}
