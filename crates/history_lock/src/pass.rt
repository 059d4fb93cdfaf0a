//! A pass, which is the right to enter.
ghost use Rattle.std.specs.Prelude.{◌≡◌, []};
ghost use Rattle.history_lock.specs.Entries.{entries_by};
ghost use Rattle.history_lock.specs.Views.{first_share, resting_view};

use crate::grows::Grows;
use crate::rule::LockSeat;

/// The right to enter one lock. A contract sees its number, the history that it has seen, the list of its own
/// entries, the number of its holds and the last count that it loaded. Its own entries are those of the history seen
/// that have its number.
pub struct Pass<V: Grows> {
    pub(crate) number: u32,
    pub(crate) known: u64,
    pub(crate) seat: LockSeat<V>,
    ghost empty_handed: { seat.me.1 ≡ [] },
    ghost at_rest: { seat.me.0 ≡ resting_view number known seat.me.0 },
    pub ghost mine: { entries_by V.caller_of number (first_share seat.me.0.shares).seen
        ≡ (first_share seat.me.0.shares).own },
}

impl<V: Grows> Pass<V> {
    ghost use Rattle.history_lock.specs.Passes.{pass_number};

    /// Gives the number of the pass, below the number of passes of its lock. It is what its own entries have as their
    /// caller.
    pub fn number(&self) -> u32
        ensures { result ≡ pass_number self.now }
    {
        self.number
    }

    pub(crate) fn into_parts(self) -> (u32, u64, LockSeat<V>)
        ensures { (result.0 ≡ self.number) × (result.1 ≡ self.known) × (result.2 ≡ self.seat) }
    {
        let Self {
            number,
            known,
            seat,
        } = self;
        (number, known, seat)
    }
}

impl<V: Grows> Drop for Pass<V> {
    fn drop(self) {
        let Self {
            number: _,
            known: _,
            seat: _,
        } = self;
    }
}
