//! What breaks around the server: its status, what of the text was put, and the line on err.

use super::run::{Failing, NONE, Said, hall_of, replays, run};
use super::texts::{PLAN, text_unplayed};
use crate::sessions::Open;
use std::alloc::Global;
use std::process::Abort;
use std::sync::Wait;
use std::thread::Threads;

/// Two desks, each with a door.
const SERVE: &str = "serve 7000 2";

const USAGE: &str = "usage: replay / view NAME / simulate N / serve PORT DESKS\n";

/// What the floor does: both players enter, and once their first hand has begun the tournament is stopped.
const FLOOR: &str = "> hello floor f
> enter ann 1 1
> enter bob 1 2
? # begin 1 1
> stop
";

/// The floor comes to the first door, and nobody to the second.
const DOORS: &[&[Said]] = &[&[(FLOOR, 0)], &[]];

/// The puts of that text: the nine lines of the plan, two entries, a begin and the stop, and then the report.
const PUTS: u64 = 14;

/// A run in which calls fail, or whose command or plan is wrong, with the status and the line on err.
#[derive(Clone, Copy)]
struct Case<'a> {
    command: &'a str,
    plan: &'a str,
    failing: Failing,
    status: u8,
    line: &'a str,
}

/// A run in which nothing fails.
const WHOLE: Case<'static> = Case {
    command: SERVE,
    plan: PLAN,
    failing: NONE,
    status: 0,
    line: "",
};

/// Tells whether this is what stands in out: the whole text at status 0, at 4 what was put before the put that failed,
/// and nothing at the others.
fn is_what_was_put(out: &[u8], status: u8, put: u64, whole: &[u8]) -> bool {
    match status {
        0 => out == whole,
        4 => {
            let lines = out.iter().filter(|byte| **byte == b'\n').count();
            whole.starts_with(out) && (lines as u64).saturating_add(1) == put
        }
        _ => out.is_empty(),
    }
}

/// Tells whether a run comes to this status, to what stands in out, and to this line on err, where this put of err fails.
fn comes_to<R: Threads + Wait + Abort + Sync>(
    rt: &R,
    alloc: Global,
    case: &Case<'_>,
    tell: u64,
    line: &str,
) -> bool {
    let failing = Failing {
        tell,
        ..case.failing
    };
    let (mut hall, _puts) = hall_of(rt, alloc, DOORS, failing);
    let ran = run(
        rt,
        alloc,
        case.command,
        case.plan,
        failing,
        &mut hall,
        &Open,
    );
    let whole = text_unplayed(rt, alloc);
    ran.status == case.status
        && ran.err.bytes() == line.as_bytes()
        && is_what_was_put(ran.out.bytes(), case.status, case.failing.put, &whole)
}

/// Tells whether a run comes to what is told, with err whole and with a put of err that fails as well, which changes
/// nothing else.
fn is_so<R: Threads + Wait + Abort + Sync>(rt: &R, alloc: Global, case: &Case<'_>) -> bool {
    comes_to(rt, alloc, case, 0, case.line) && comes_to(rt, alloc, case, 1, "")
}

const CASES: &[Case<'static>] = &[
    WHOLE,
    Case {
        failing: Failing { knock: 1, ..NONE },
        line: "door 2 fault\n",
        ..WHOLE
    },
    Case {
        command: "serve 7000",
        status: 2,
        line: USAGE,
        ..WHOLE
    },
    Case {
        command: "replay",
        status: 2,
        line: USAGE,
        ..WHOLE
    },
    Case {
        failing: Failing { take: 1, ..NONE },
        status: 3,
        line: "read fault\n",
        ..WHOLE
    },
    Case {
        failing: Failing { take: 2, ..NONE },
        status: 3,
        line: "read fault\n",
        ..WHOLE
    },
    Case {
        failing: Failing { take: 3, ..NONE },
        ..WHOLE
    },
    Case {
        failing: Failing { doors: 1, ..NONE },
        status: 7,
        line: "hall fault\n",
        ..WHOLE
    },
    Case {
        command: "serve 7000 3",
        status: 7,
        line: "hall fault\n",
        ..WHOLE
    },
    Case {
        plan: "game = 1\n",
        status: 6,
        line: "plan game\n",
        ..WHOLE
    },
    Case {
        plan: UNSPOKEN,
        status: 6,
        line: "plan floor_word\n",
        ..WHOLE
    },
];

/// The plan without a word for the floor.
const UNSPOKEN: &str =
    "game = \"holdem\"\ntables = 1\nseats = 2\nstack = 1000\nbuyin = 100\nlate = 1\n\
    blinds = [[100, 200, 100]]\nshares = [700, 300]\nfloor_word = \"\"\n[words]\nann = \"a\"\n";

#[test]
fn each_fault_has_its_status_and_its_line(rt: HostRuntime) {
    for case in CASES {
        assert!(rt;
            is_so(&rt, rt.alloc(), case),
            "{} {}",
            case.status,
            case.line
        );
    }
}

/// A plan of a byte more than is read.
#[test]
fn a_plan_may_be_too_long(rt: HostRuntime) {
    let plan = "#".repeat(rt.alloc(), 1_048_577).expect(&rt, "memory");
    let case = Case {
        plan: plan.as_str(),
        status: 8,
        line: "input too long\n",
        ..WHOLE
    };
    assert!(rt; is_so(&rt, rt.alloc(), &case));
}

/// Tells what a run comes to in which this put fails.
fn at_put(put: u64) -> Case<'static> {
    let failing = Failing { put, ..NONE };
    if put > PUTS {
        return Case { failing, ..WHOLE };
    }
    Case {
        failing,
        status: 4,
        line: "write fault\n",
        ..WHOLE
    }
}

#[test]
fn a_put_that_fails_leaves_what_was_put_before_it(rt: HostRuntime) {
    for put in 1..PUTS + 2 {
        assert!(rt; is_so(&rt, rt.alloc(), &at_put(put)), "put {put}");
    }
}

#[test]
fn a_stop_in_the_midst_voids_the_hand(rt: HostRuntime) {
    assert!(rt; replays(&rt, rt.alloc(), &text_unplayed(&rt, rt.alloc())));
}
