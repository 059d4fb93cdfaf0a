//! How a lock is made, with its passes.
ghost use Rattle.std.specs.Prelude.{◌≡◌, ◌<◌, ◌≤◌, [], ◌∷◌, All, IfErr, IfOk, Some, vec_capacity, vec_len};
ghost use Rattle.history_lock.specs.Limits.{most_passes, opener, word_count};
ghost use Rattle.history_lock.specs.Passes.{lock_id, opening_value, pass_count, AreFresh};
ghost use Rattle.history_lock.specs.Views.{first_share, opening_view};

use crate::grows::Grows;
use crate::lock::HistoryLock;
use crate::pass::Pass;
use crate::plays::Deal;
use crate::rule::{COUNT, LockSeat, Steps, Terms, WORDS};
use atomic_table::{Refused, Table};
use std::alloc::Global;
use std::snapshot::Snapshot;

// Gives out the passes: one is split off for each number but the last, which the seat itself has.
fn deal<V: Grows>(steps: &Steps<V>, seat: LockSeat<V>, passes: Vec<Pass<V>>, n: u32) -> Vec<Pass<V>>
    requires table { (seat.table_id ≡ steps.now.table_id) × (steps.now.table_id.words ≡ word_count) }
    requires all { (seat.me.0 ≡ opening_view n (first_share seat.me.0.shares).seen) × (seat.me.1 ≡ []) × (0 < n) }
    requires room { (passes.items ≡ []) × (n ≤ vec_capacity passes) }
    requires opener { (n ≤ most_passes) × All (λ e. V.caller_of e ≡ opener) (first_share seat.me.0.shares).seen }
    ensures count { vec_len result ≡ n }
    ensures fresh { AreFresh seat.table_id (first_share seat.me.0.shares).seen result.items }
{
    let mut seat = seat;
    let mut passes = passes;
    for number in 0..n - 1 {
        let given = steps.split_seat::<Deal>(&mut seat);
        passes.push_reserved(Pass {
            number,
            known: 0,
            seat: given,
        });
    }
    passes.push_reserved(Pass {
        number: n - 1,
        known: 0,
        seat,
    });
    passes
}

// The value as the list of the one slot. It comes back where there is no memory.
fn one_slot<V>(alloc: Global, value: V) -> Result<Vec<Option<V>>, V>
    ensures ok { IfOk result (λ slots. slots.items ≡ Some value ∷ []) }
    ensures err { IfErr result (λ v. v ≡ value) }
{
    let Ok(mut slots) = Vec::with_capacity(alloc, 1) else {
        return Err(value);
    };
    slots.push_reserved(Some(value));
    Ok(slots)
}

/// Makes a lock round the value, with `n` passes, 1 to 256. The value comes back for want of memory alone.
pub fn make<V: Grows>(alloc: Global, value: V, n: u32) -> Result<(HistoryLock<V>, Vec<Pass<V>>), V>
    requires passes { (0 < n) × (n ≤ most_passes) }
    requires opener { All (λ e. V.caller_of e ≡ opener) (V.history value) }
    ensures lock { IfOk result (λ r. pass_count r.0 ≡ n) }
    ensures opening { IfOk result (λ r. opening_value r.0 ≡ value) }

    // The passes have the numbers from 0 on. Each has seen the history that the value brought, and has done nothing.
    ensures count { IfOk result (λ r. vec_len r.1 ≡ n) }
    ensures fresh { IfOk result (λ r. AreFresh (lock_id r.0) (V.history value) r.1.items) }

    ensures back { IfErr result (λ v. v ≡ value) }
{
    let Ok(passes) = Vec::with_capacity(alloc, n as usize) else {
        return Err(value);
    };
    let terms = Terms {
        passes: n,
        opening: Snapshot::of(&value),
    };
    let count = value.count();
    let slots = match one_slot(alloc, value) {
        Ok(slots) => slots,
        Err(value) => return Err(value),
    };
    let mut words = [0; WORDS];
    words[COUNT] = count;
    match Table::new(alloc, &words, slots, &terms) {
        Ok((table, seat)) => {
            let passes = deal(&table.shared, seat, passes, n);
            Ok((HistoryLock { table, passes: n }, passes))
        }
        Err(refused) => {
            let Refused { mut slots } = refused;
            let value = slots.pop().unwrap().unwrap();
            slots.destroy_empty();
            Err(value)
        }
    }
}
