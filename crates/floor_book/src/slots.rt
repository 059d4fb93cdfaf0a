//! Slots by table number, where each table has one or nothing.

ghost use Rattle.std.specs.Prelude.{◌≡◌, length, replicate, None, IfOk};

use std::alloc::{AllocError, Global};

/// Makes so many empty slots.
pub fn empty_slots<T: Drop>(alloc: Global, count: usize) -> Result<Vec<Option<T>>, AllocError>
    ensures { IfOk result (λ slots. slots.items ≡ replicate count None) }
{
    let mut slots = Vec::new(alloc);
    for _slot in 0..count {
        slots.push(None)?;
    }
    Ok(slots)
}

/// Empties all slots.
#[tactic(auto, using(crate::proofs::Filled::filled))]
pub fn clear_slots<T: Drop>(slots: &mut Vec<Option<T>>)
    ensures { slots.new.items ≡ replicate (length slots.old.items) None }
{
    for index in 0..slots.len() {
        slots[index] = None;
    }
}
