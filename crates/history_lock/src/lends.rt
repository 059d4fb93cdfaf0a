//! `value_mut` has a file of its own: its clause names the row of `Inside`, which the file that declares it cannot
//! import.
ghost use Rattle.std.specs.Prelude.{◌≡◌};
ghost use Rattle.std.specs.Borrow.{sem};
ghost use Rattle.history_lock.specs.Passes.{value_of};
ghost use Rattle.history_lock.specs.Lending.{LendsValue};

use crate::grows::Grows;
use crate::inside::Inside;

impl<V: Grows> Inside<V> {
    /// Lends the value, to be changed. When the borrow ends, all but the value is as it was.
    pub fn value_mut(&mut self) -> &mut V
        ensures* writes_back { sem 𝓛 (LendsValue V.row V.Entry.row V.Grows self.entry result) }
        ensures value { result.now ≡ value_of self.old }
    {
        &mut self.value
    }
}
