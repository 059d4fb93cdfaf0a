//! Runs in which a call fails, one call after another until no call is left to fail.

use super::outside::Drops;
use super::plans::{ALL_IN, ALL_IN_TOLD, PLAN, PLANNED, SEVENTH, THREE_OF_NINE, TWO};
use super::runs::{Failing, NOTHING, Ran, input_of, run, run_over};
use super::texts::is_same;
use std::alloc::{AllocError, Global};

/// The calls of which one fails.
#[derive(Clone, Copy)]
enum Calls {
    /// Those that put on out.
    Puts,
    /// Those that take all that is left of the input.
    Takes,
    /// Those that take seven bytes of the input.
    TakesOfSeven,
}

/// What stands on out where a call fails.
#[derive(Clone, Copy)]
enum Out {
    /// So many lines where the first call fails, so many where the second one does, and there are no more calls.
    Lines(&'static [usize]),
    /// Some lines from the front.
    Front,
}

/// A command over an input of which one call fails: the first, the second and so on. A run with a fault ends with this
/// status, with this on err, and with some lines from the front of these on out. The run without one puts them all.
#[derive(Clone, Copy)]
struct Case {
    words: &'static [&'static str],
    input: &'static [&'static str],
    calls: Calls,
    status: u8,
    err: &'static str,
    whole: &'static str,
    out: Out,
}

static CASES: [Case; 7] = [
    Case {
        words: &["replay"],
        input: &[PLAN],
        calls: Calls::Puts,
        status: 4,
        err: "write fault\n",
        whole: PLANNED,
        out: Out::Lines(&[0, 1, 2, 3, 4, 5, 6, 7, 8, 9]),
    },
    Case {
        words: &["replay"],
        input: &[PLAN],
        calls: Calls::Takes,
        status: 3,
        err: "read fault\n",
        whole: PLANNED,
        out: Out::Lines(&[0, 9]),
    },
    // The lines of the plan end behind 12, 21, 29, 40, 50, 57, 76, 91 and 94 bytes.
    Case {
        words: &["replay"],
        input: &[PLAN],
        calls: Calls::TakesOfSeven,
        status: 3,
        err: "read fault\n",
        whole: PLANNED,
        out: Out::Lines(&[0, 0, 1, 2, 2, 3, 4, 4, 5, 6, 6, 7, 7, 8, 9]),
    },
    Case {
        words: &["view", "ann"],
        input: &[PLAN, TWO, ALL_IN],
        calls: Calls::Puts,
        status: 4,
        err: "write fault\n",
        whole: ALL_IN_TOLD,
        out: Out::Front,
    },
    Case {
        words: &["view", "ann"],
        input: &[PLAN, TWO, ALL_IN],
        calls: Calls::Takes,
        status: 3,
        err: "read fault\n",
        whole: ALL_IN_TOLD,
        out: Out::Lines(&[0, 29]),
    },
    Case {
        words: &["simulate", "7"],
        input: &[THREE_OF_NINE],
        calls: Calls::Puts,
        status: 4,
        err: "write fault\n",
        whole: SEVENTH,
        out: Out::Front,
    },
    Case {
        words: &["simulate", "7"],
        input: &[THREE_OF_NINE],
        calls: Calls::Takes,
        status: 3,
        err: "read fault\n",
        whole: SEVENTH,
        out: Out::Lines(&[0, 0]),
    },
];

/// Runs a case with the call of a number failing, and with the put on err of another.
fn run_case(alloc: Global, case: &Case, call: u64, err_put: u64) -> Result<Ran, AllocError> {
    let input = input_of(alloc, case.input)?;
    let failing = Failing { err_put, ..NOTHING };
    match case.calls {
        Calls::Puts => run(
            alloc,
            case.words,
            input,
            Failing {
                put: call,
                ..failing
            },
        ),
        Calls::Takes => run(
            alloc,
            case.words,
            input,
            Failing {
                take: call,
                ..failing
            },
        ),
        Calls::TakesOfSeven => {
            let mut source = Drops::new(input, call);
            run_over(alloc, case.words, &mut source, failing)
        }
    }
}

/// Tells whether what stands on out is what a case says, where this many calls came before the one that failed.
fn is_told(case: &Case, before: usize, out: &[u8]) -> bool {
    let lines = out.iter().filter(|byte| **byte == b'\n').count();
    let counted = match case.out {
        Out::Lines(counts) => counts.get(before) == Some(&lines),
        Out::Front => true,
    };
    counted && case.whole.as_bytes().starts_with(out) && (out.is_empty() || out.ends_with(b"\n"))
}

/// Tells whether there are as many calls as a case says.
fn is_all(case: &Case, calls: usize) -> bool {
    match case.out {
        Out::Lines(counts) => counts.len() == calls,
        Out::Front => 0 < calls,
    }
}

/// Tells whether a run in which a call fails behind this many others ends as a case says, also where err fails too.
fn is_fault(alloc: Global, case: &Case, before: usize) -> Result<bool, AllocError> {
    let call = (before as u64).saturating_add(1);
    let ran = run_case(alloc, case, call, 0)?;
    let untold = run_case(alloc, case, call, 1)?;
    Ok(
        ran.status == case.status
            && is_same(ran.err.bytes(), case.err.as_bytes())
            && is_told(case, before, ran.out.bytes())
            && untold.is(case.status, ran.out.bytes(), b""),
    )
}

/// Tells whether a run in which no call fails behind this many ends well, and puts all.
fn is_whole(alloc: Global, case: &Case, calls: usize) -> Result<bool, AllocError> {
    let ran = run_case(alloc, case, (calls as u64).saturating_add(1), 0)?;
    Ok(ran.is(0, case.whole.as_bytes(), b""))
}

/// Counts the calls of a case, each of which fails in a run of its own.
fn count_faults(alloc: Global, case: &Case) -> Result<usize, AllocError> {
    for before in 0..1000 {
        if !is_fault(alloc, case, before)? {
            return Ok(before);
        }
    }
    Ok(1000)
}

/// Tells whether the calls of a case fail as it says, one after another, until none is left.
fn fails_so(alloc: Global, case: &Case) -> Result<bool, AllocError> {
    let calls = count_faults(alloc, case)?;
    Ok(is_all(case, calls) && is_whole(alloc, case, calls)?)
}

#[test]
fn a_run_ends_where_a_call_fails(rt: HostRuntime) {
    for case in &CASES {
        assert!(rt;
            fails_so(rt.alloc(), case).unwrap_or(false),
            "{:?}",
            case.words
        );
    }
}
