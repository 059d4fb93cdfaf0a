//! How a pass goes in and comes out.
ghost use Rattle.std.specs.Prelude.{◌≡◌, ◌+◌, ◌++◌, ◌<◌, ◌≤◌, length, [], ◌∷◌, List, None, Some};
ghost use mathlib.Core.List.{IsPrefix};
ghost use Rattle.history_lock.specs.Entries.{entries_by, IsGrownBy};
ghost use Rattle.history_lock.specs.Holds.{IsEntered, IsLeft};
ghost use Rattle.history_lock.specs.Limits.{word_count};
ghost use Rattle.history_lock.specs.Passes.{lock_of, lock_id, pass_number, seen, own, holds, known, value_of, found, inside_lock, inside_number, inside_own, inside_holds, inside_known};
ghost use Rattle.history_lock.specs.Views.{ticketed_view, let_in_view, first_share};
ghost use Rattle.history_lock.specs.Steps.{IsFound, served_view, share_left};

use crate::bells::{bell_of, ring, sleep};
use crate::grows::Grows;
use crate::inside::{Inside, Turn};
use crate::lock::HistoryLock;
use crate::pass::Pass;
use crate::plays::{Draw, Leaving, Look, PassOn, Publish};
use crate::rule::{COUNT, LockSeat, SERVING, SLOT, Steps, TICKET};
use crossbeam_utils::Backoff;
use std::marker::Brand;
use std::snapshot::Snapshot;
use std::sync::Wait;

// How often a thread looks whether its ticket is served before it sleeps: for some fifty microseconds.
const LOOKS: u32 = 24;

// Spins for a moment, or sleeps until the bell is rung once it has looked so often.
fn rest<V: Grows, R: Wait>(
    rt: &R,
    steps: &Steps<V>,
    backoff: &Backoff,
    looks: u32,
    bell: usize,
    rings: u64,
)
    requires { bell < steps.now.table_id.words }
{
    if looks < LOOKS {
        backoff.spin();
    } else {
        sleep(rt, steps, bell, rings, None);
    }
}

// Rings for whoever has the ticket that is served now, unless nobody has drawn it yet.
fn call_next<V: Grows>(steps: &Steps<V>, seat: &mut LockSeat<V>, served: u64)
    requires table { (seat.old.table_id ≡ steps.now.table_id) × (steps.now.table_id.words ≡ word_count) }
    ensures same { (seat.new.table_id ≡ seat.old.table_id) × (seat.new.id ≡ seat.old.id)
        × (seat.new.me ≡ seat.old.me) }
{
    if steps.peek(TICKET) != served {
        ring(steps, seat, bell_of(served));
    }
}

// Waits until the ticket is served, and takes the value out of the slot.
fn wait_turn<V: Grows, R: Wait>(rt: &R, steps: &Steps<V>, seat: &mut LockSeat<V>, ticket: u64) -> V
    requires table { (seat.old.table_id ≡ steps.now.table_id) × (steps.now.table_id.words ≡ word_count)
        × (steps.now.table_id.slots ≡ 1) }
    requires ready { (seat.old.me.0 ≡ ticketed_view ticket seat.old.me.0) × (seat.old.me.1 ≡ []) }
    ensures seat { (seat.new.table_id ≡ seat.old.table_id) × (seat.new.id ≡ seat.old.id) }
    ensures served { seat.new.me
        ≡ (served_view seat.old.me.0 (first_share seat.old.me.0.shares) (V.history result), (0, None) ∷ []) }
    ensures found { IsFound V.history V.caller_of (first_share seat.old.me.0.shares) seat.old.me.0.known result }
{
    let bell = bell_of(ticket);
    let backoff = Backoff::new();
    let mut looks: u32 = 0;
    for _ in rt.forever() {
        let rings = steps.peek(bell);
        if steps.load::<Look>(seat, SERVING) == ticket {
            return steps.exchange(seat, SLOT, None).unwrap();
        }
        looks = looks.saturating_add(1);
        rest(rt, steps, &backoff, looks, bell, rings);
    }
    unreachable!()
}

// Publishes how many entries the history has that is to be left.
fn publish<V: Grows, J: Leaving<V::Entry>>(
    steps: &Steps<V>,
    seat: &mut LockSeat<V>,
    left: &Snapshot<V>,
    count: u64,
)
    requires left { V.history left.now.value ≡ J.left }
    requires count { count ≡ length (V.history left.now.value) }
    requires table { (seat.old.table_id ≡ steps.now.table_id) × (steps.now.table_id.words ≡ word_count)
        × (steps.now.table_id.slots ≡ 1) }
    requires served { (seat.old.me.0 ≡ let_in_view seat.old.me.0) × (seat.old.me.1 ≡ (0, None) ∷ []) }
    requires grown { IsGrownBy V.caller_of (first_share seat.old.me.0.shares).number
        (first_share seat.old.me.0.shares).seen (V.history left.now.value) }
    ensures seat { (seat.new.table_id ≡ seat.old.table_id) × (seat.new.id ≡ seat.old.id) }
    ensures left { seat.new.me
        ≡ (
          record seat.old.me.0 {
            shares = share_left (first_share seat.old.me.0.shares) (V.history left.now.value)
                ∷ [];
          },
          (0, None) ∷ [],
        ) }
{
    steps.store::<Publish<J>>(seat, COUNT, count);
}

impl<V: Grows> HistoryLock<V> {
    /// Waits until the pass is let in, and gives it the value. It takes no memory.
    pub fn enter<R: Wait>(&self, rt: &R, pass: Pass<V>) -> Inside<V>
        requires { lock_of pass ≡ lock_id self.now }
        ensures { IsEntered pass result }
    {
        let (number, known, mut seat) = pass.into_parts();
        let steps = &self.table.shared;
        let ticket = steps.fetch_add::<Draw>(&mut seat, TICKET, 1);
        let value = wait_turn(rt, steps, &mut seat, ticket);
        Inside {
            value,
            turn: Turn {
                number,
                known,
                seat,
            },
        }
    }

    /// Lets the next pass in. The value may have grown by entries of this caller alone. It takes no memory.
    pub fn leave(&self, inside: Inside<V>) -> Pass<V>
        requires lock { inside_lock inside ≡ lock_id self.now }
        requires grown { IsGrownBy V.caller_of (inside_number inside) (found inside) (V.history (value_of inside)) }
        ensures { IsLeft inside result }
    {
        let Inside { value, turn } = inside;
        let Turn {
            number,
            known,
            mut seat,
        } = turn;
        let steps = &self.table.shared;
        let left = Snapshot::of(&value);
        let count = value.count();
        publish::<V, Brand>(steps, &mut seat, &left, count);
        let taken = steps.exchange(&mut seat, SLOT, Some(value));
        let None = taken else { unreachable!() };
        let served = steps.fetch_add::<PassOn>(&mut seat, SERVING, 1);
        call_next(steps, &mut seat, served.wrapping_add(1));
        Pass {
            number,
            known,
            seat,
        }
    }
}
