//! The bells of a lock: words that threads sleep on until they are rung.
ghost use Rattle.std.specs.Prelude.{◌≡◌, ◌<◌, ◌≤◌};
ghost use Rattle.history_lock.specs.Limits.{first_bell, word_count};

use crate::grows::Grows;
use crate::plays::Ring;
use crate::rule::{BELLS, FIRST_BELL, LockSeat, Steps};
use std::sync::Wait;
use std::time::Duration;

// A sleep compares the low 32 bits.
const LOW: u64 = 0xffff_ffff;

/// Gives the bell of whoever has drawn this ticket. Of sixteen tickets in a row each has its own.
pub(crate) fn bell_of(ticket: u64) -> usize
    ensures { (first_bell ≤ result) × (result < word_count) }
{
    FIRST_BELL + (ticket % BELLS) as usize
}

/// Sleeps until the bell is rung, unless it was rung since `rings` was read from it, and for so long at most if that is
/// given. It may wake earlier.
pub(crate) fn sleep<V: Grows, R: Wait>(
    rt: &R,
    steps: &Steps<V>,
    bell: usize,
    rings: u64,
    most: Option<Duration>,
)
    requires { bell < steps.now.table_id.words }
{
    let rings = (rings & LOW) as u32;
    match most {
        None => steps.park(rt, bell, rings),
        Some(most) => steps.park_timeout(rt, bell, rings, most),
    }
}

/// Rings a bell, and wakes all who sleep on it.
pub(crate) fn ring<V: Grows>(steps: &Steps<V>, seat: &mut LockSeat<V>, bell: usize)
    requires table { (seat.old.table_id ≡ steps.now.table_id) × (steps.now.table_id.words ≡ word_count) }
    requires bell { (first_bell ≤ bell) × (bell < word_count) }
    ensures same { (seat.new.table_id ≡ seat.old.table_id) × (seat.new.id ≡ seat.old.id)
        × (seat.new.me ≡ seat.old.me) }
{
    steps.fetch_add::<Ring>(seat, bell, 1);
    steps.wake_all(bell);
}
