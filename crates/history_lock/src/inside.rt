//! A pass that was let in, with the value.
ghost use Rattle.std.specs.Prelude.{◌≡◌, [], ◌∷◌, None};
ghost use Rattle.history_lock.specs.Entries.{entries_by};
ghost use Rattle.history_lock.specs.Views.{first_share, inside_view};

use crate::grows::Grows;
use crate::rule::LockSeat;

/// A pass while it is inside: it has the slot, which is empty.
pub struct Turn<V: Grows> {
    pub(crate) number: u32,
    pub(crate) known: u64,
    pub(crate) seat: LockSeat<V>,
    ghost empty_slot: { seat.me.1 ≡ (0, None) ∷ [] },
    ghost let_in: { seat.me.0 ≡ inside_view number known seat.me.0 },
    pub ghost mine: { entries_by V.caller_of number (first_share seat.me.0.shares).seen
        ≡ (first_share seat.me.0.shares).own },
}

/// The value of a lock, while one pass is inside. It is not `Drop`: end it by `leave`.
pub struct Inside<V: Grows> {
    pub(crate) value: V,
    pub(crate) turn: Turn<V>,
}

impl<V: Grows> Inside<V> {
    ghost use Rattle.history_lock.specs.Passes.{value_of, inside_number};

    /// Gives the number of the pass that is inside.
    pub fn number(&self) -> u32
        ensures { result ≡ inside_number self.now }
    {
        self.turn.number
    }

    /// Gives the value.
    pub fn value(&self) -> &V
        ensures { result.now ≡ value_of self.now }
    {
        &self.value
    }
}
