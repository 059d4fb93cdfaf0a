//! A thousand hands at two tables, with eight players' desks beside that of the floor, each in a thread of its own.

use super::callers::{DoorsAtHand, Part, count_lines};
use super::run::{NONE, replays, run};
use crate::sessions::Open;
use std::alloc::Global;
use std::process::Abort;
use std::sync::Wait;
use std::sync::atomic::AtomicU64;
use std::thread::Threads;

/// Two tables of three seats, with stacks so deep that nobody goes out.
const DEEP: &str =
    "game = \"holdem\"\ntables = 2\nseats = 3\nstack = 10000000\nbuyin = 100\nlate = 1\n\
    blinds = [[100, 200, 100]]\nshares = [700, 300]\nfloor_word = \"f\"\n[words]\n\
    ann = \"a\"\nbob = \"b\"\ncat = \"c\"\ndan = \"d\"\neve = \"e\"\nfay = \"f\"\n";

/// How many hands are played at least.
const HANDS: u64 = 1000;

/// The floor lets six players enter, three at each table, and stops the tournament once so many hands are settled.
const FLOOR: Part = Part {
    first: b"hello floor f\nenter ann 1 1\nenter bob 2 1\nenter cat 1 2\nenter dan 2 2\nenter eve 1 3\n\
        enter fay 2 3\n",
    again: b"stop\n",
    least: HANDS,
    front: b"# settle ",
};

/// What a player says who folds wherever he can, and one who calls and checks. Each acts at both tables.
const FOLDS: &[u8] = b"act 1 fold\nact 2 fold\n";

const CALLS: &[u8] = b"act 1 call\nact 1 check\nact 2 call\nact 2 check\n";

/// The players at the desks. ann and bob are at two desks each.
const PLAYERS: [(&[u8], &[u8]); 8] = [
    (b"hello ann a\n", FOLDS),
    (b"hello bob b\n", FOLDS),
    (b"hello cat c\n", FOLDS),
    (b"hello dan d\n", FOLDS),
    (b"hello ann a\n", CALLS),
    (b"hello bob b\n", CALLS),
    (b"hello eve e\n", CALLS),
    (b"hello fay f\n", CALLS),
];

/// Lets all come to their doors.
fn hall_of<'a>(
    rt: &impl Abort,
    alloc: Global,
    settled: &'a AtomicU64,
    other: &'a AtomicU64,
) -> DoorsAtHand<'a> {
    let mut hall = DoorsAtHand::new(alloc);
    hall.add(rt, alloc, FLOOR, settled, settled);
    for (first, again) in PLAYERS {
        let part = Part {
            first,
            again,
            least: 0,
            ..FLOOR
        };
        hall.add(rt, alloc, part, other, other);
    }
    hall
}

/// Tells whether the hands are played, and all that is served replays.
fn are_played<R: Threads + Wait + Abort + Sync>(rt: &R, alloc: Global) -> bool {
    let settled = AtomicU64::new(0);
    let other = AtomicU64::new(0);
    let mut hall = hall_of(rt, alloc, &settled, &other);
    let ran = run(rt, alloc, "serve 7000 9", DEEP, NONE, &mut hall, &Open);
    let out = ran.out.bytes();
    ran.status == 0 && count_lines(out, b"settle ") >= HANDS && replays(rt, alloc, out)
}

#[test]
fn a_thousand_hands_are_played_by_threads(rt: HostRuntime) {
    assert!(rt; are_played(&rt, rt.alloc()));
}
