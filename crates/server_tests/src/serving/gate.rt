//! A table goes on while the lock of another table is held.

use super::callers::{DoorsAtHand, Part};
use super::run::{NONE, replays, run};
use std::alloc::Global;
use std::process::Abort;
use std::sync::Wait;
use std::sync::atomic::{AtomicU64, Ordering};
use std::thread;
use std::thread::Threads;
use table_dock::Gate;

/// Two tables of two seats.
const PLAN: &str = "game = \"holdem\"\ntables = 2\nseats = 2\nstack = 1000\nbuyin = 100\nlate = 1\n\
    blinds = [[100, 200, 100]]\nshares = [700, 300]\nfloor_word = \"f\"\n[words]\nann = \"a\"\nbob = \"b\"\n";

/// The floor lets two players enter at each table, and once a hand is settled at each stops the tournament.
const FLOOR: Part = Part {
    first: b"hello floor f\nenter ann 1 1\nenter bob 2 1\nenter cat 1 2\nenter dan 2 2\n",
    again: b"stop\n",
    least: 2,
    front: b"# settle ",
};

/// ann folds at table 1, where the lock is held meanwhile.
const ANN: Part = Part {
    first: b"hello ann a\n",
    again: b"act 1 fold\n",
    least: 0,
    front: b"# settle 1",
};

/// bob folds at table 2 once that lock is held, and not before.
const BOB: Part = Part {
    first: b"hello bob b\n",
    again: b"act 2 fold\n",
    least: 1,
    front: b"# settle 2",
};

/// What is served at its end.
const REPORT: &[u8] =
    b"stop\n* report\n* level 1\n* sold 4000\n* removed 0\n* added 0\n* rest 4000\n* play 0\n\
    * seat 1 1 ann 900\n* seat 1 2 cat 1100\n* seat 2 1 bob 900\n* seat 2 2 dan 1100\n* end\n";

/// The turns after which the gate opens all the same.
const PATIENCE: u64 = 1_000_000_000;

/// Keeps the lock of table 1 held until the hand of table 2 is settled.
#[derive(Drop)]
struct Slow<'a> {
    /// How often the lock of table 1 was held.
    held: &'a AtomicU64,
    /// How many hands of table 2 are settled.
    settled: &'a AtomicU64,
    /// How often the gate waited in vain.
    late: &'a AtomicU64,
}

impl Gate for Slow<'_> {
    fn held(&self, table: u8) {
        if table != 1 {
            return;
        }
        self.held.fetch_add(1, Ordering::SeqCst);
        for _ in 0..PATIENCE {
            if self.settled.load(Ordering::SeqCst) > 0 {
                return;
            }
            thread::yield_now();
        }
        self.late.fetch_add(1, Ordering::SeqCst);
    }
}

/// Tells whether the hand of table 2 is settled while the lock of table 1 is held, and all that is served replays.
fn goes_on<R: Threads + Wait + Abort + Sync>(rt: &R, alloc: Global) -> bool {
    let held = AtomicU64::new(0);
    let settled = AtomicU64::new(0);
    let late = AtomicU64::new(0);
    let all = AtomicU64::new(0);
    let other = AtomicU64::new(0);
    let mut hall = DoorsAtHand::new(alloc);
    hall.add(rt, alloc, FLOOR, &all, &all);
    hall.add(rt, alloc, ANN, &held, &other);
    hall.add(rt, alloc, BOB, &held, &settled);
    let gate = Slow {
        held: &held,
        settled: &settled,
        late: &late,
    };
    let ran = run(rt, alloc, "serve 7000 3", PLAN, NONE, &mut hall, &gate);
    let out = ran.out.bytes();
    ran.status == 0
        && late.load(Ordering::SeqCst) == 0
        && out.ends_with(REPORT)
        && replays(rt, alloc, out)
}

#[test]
fn a_table_goes_on_while_another_is_held(rt: HostRuntime) {
    assert!(rt; goes_on(&rt, rt.alloc()));
}
