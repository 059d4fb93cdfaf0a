//! How a lock is opened for good.
ghost use Rattle.std.specs.Prelude.{◌≡◌, ℕ, ◌<◌, ◌↔◌, [], All, Any, IfErr, IfOk, IsErr, None, false, map, vec_len};
ghost use mathlib.Core.List.{IsPrefix};
ghost use Rattle.history_lock.specs.Entries.{entries_by, IsGrownByPasses};
ghost use Rattle.history_lock.specs.Limits.{word_count};
ghost use Rattle.history_lock.specs.Passes.{lock_id, lock_of, opening_value, own, pass_count, pass_number, seen, share_of};

use crate::grows::Grows;
use crate::lock::HistoryLock;
use crate::pass::Pass;
use crate::plays::TakeIn;
use crate::rule::{LockSeat, SLOT, Steps};

/// Not all passes of the lock were given. The lock and those that were come back.
#[derive(Drop)]
pub struct NotAll<V: Grows> {
    pub lock: HistoryLock<V>,
    pub passes: Vec<Pass<V>>,
}

// The seat of the last pass, which takes in the others.
fn take_in<V: Grows>(steps: &Steps<V>, passes: Vec<Pass<V>>) -> LockSeat<V>
    requires table { All (λ p. lock_of p ≡ steps.now.table_id) passes.items
        × (steps.now.table_id.words ≡ word_count) }
    requires some { 0 < vec_len passes }
    ensures table { result.table_id ≡ steps.now.table_id }
    ensures shares { result.me.0.shares ≡ map share_of passes.items }
    ensures at_rest { (result.me.0.ticket ≡ None) × (result.me.0.served ≡ false) × (result.me.1 ≡ []) }
{
    let mut passes = passes;
    let (_, _, mut seat) = passes.pop().unwrap().into_parts();
    while let Some(pass) = passes.pop() {
        let (_, _, other) = pass.into_parts();
        steps.join_seat::<TakeIn>(&mut seat, other);
    }
    seat
}

impl<V: Grows> HistoryLock<V> {
    /// Gives the value, where all passes of the lock are given.
    pub fn close(self, passes: Vec<Pass<V>>) -> Result<V, NotAll<V>>
        requires { All (λ p. lock_of p ≡ lock_id self) passes.items }
        ensures not_all { IsErr result ↔ (vec_len passes < pass_count self) }
        ensures back { IfErr result (λ r. (r.lock ≡ self) × (r.passes ≡ passes)) }

        // The history begins with all that each pass has seen.
        ensures seen { IfOk result (λ value. All (λ p. IsPrefix (seen p) (V.history value)) passes.items) }

        // Its entries of the pass's number are just the pass's own, in order.
        ensures own { IfOk result (λ value. All
            (λ p. entries_by V.caller_of (pass_number p) (V.history value) ≡ own p) passes.items) }

        // Each number below n is that of a pass that was given, and behind the opening all entries are theirs.
        ensures numbers { IfOk result (λ _. (k : ℕ) → k < pass_count self → Any (λ p. pass_number p ≡ k) passes.items) }
        ensures grown { IfOk result (λ value. IsGrownByPasses V.caller_of (pass_count self)
            (V.history (opening_value self)) (V.history value)) }
    {
        if passes.len() < self.passes as usize {
            return Err(NotAll { lock: self, passes });
        }
        let HistoryLock { table, passes: _ } = self;
        let seat = take_in(&table.shared, passes);
        let mut closed = table.close_with(seat);
        let value = closed.take(SLOT).unwrap();
        closed.free();
        Ok(value)
    }
}
