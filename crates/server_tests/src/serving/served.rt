//! A hand is served, at two doors or at one, and what follows where a link fails.

use super::run::{NONE, Said, hall_of, replays, run};
use super::texts::{ENTERED, PLAN, UNPLAYED, begin_line};
use crate::sessions::Open;
use std::alloc::Global;
use std::process::Abort;
use std::sync::Wait;
use std::thread::Threads;

/// The floor lets both players enter, and once their first hand is settled stops the tournament.
const FLOOR: &str = "> hello floor f
= ok
> begin 1
= no 1 Syntax
> enter ann 1 1
= ok
> enter bob 1 2
= ok
? # settle 1
> stop
= ok
";

/// The same, where the hand may not be settled.
const FLOOR_IN_VAIN: &str = "> hello floor f
= ok
> begin 1
= no 1 Syntax
> enter ann 1 1
= ok
> enter bob 1 2
= ok
& # settle 1
> stop
= ok
";

/// Somebody who says `quit` alone.
const QUIT: &str = "> quit\n= ok\n";

/// ann folds her first hand.
const ANN: &str = "> act 1 fold
= who
> hello ann a
= ok
> watch 1
= ok
? 1: hand 1
> act 1 fold
= ok
> quit
= ok
";

/// ann's first two lines are taken and replied: the third take of her link is its fifth call.
const ANN_IN_VAIN: &str = "> act 1 fold
= who
> hello ann a
= ok
";

/// The same hand at one door, where one comes after another: ann is early, and no order is owed once the hand is settled.
const EARLY: &str = "> hello ann a
= ok
> act 1 fold
= no 14 NotPlaying
> quit
= ok
";

const ENTERS: &str = "> hello floor f
= ok
> enter ann 1 1
= ok
> enter bob 1 2
= ok
> quit
= ok
";

const STOPS: &str = "> hello floor f
= ok
? # settle 1
> next
= none
> stop
= ok
";

/// A run, and whether the hand is played in it.
#[derive(Clone, Copy)]
struct Case {
    shows: &'static str,
    command: &'static str,
    doors: &'static [&'static [Said]],
    played: bool,
}

const CASES: &[Case] = &[
    Case {
        shows: "a hand is served",
        command: "serve 7000 2",
        doors: &[&[(FLOOR, 0)], &[(QUIT, 0), (ANN, 0)]],
        played: true,
    },
    Case {
        shows: "a hand is served at one desk",
        command: "serve 7000 1",
        doors: &[&[(EARLY, 0), (ENTERS, 0), (ANN, 0), (STOPS, 0)]],
        played: true,
    },
];

/// A run in which ann's link fails.
const IN_VAIN: Case = Case {
    shows: "a link that fails ends its session alone",
    command: "serve 7000 2",
    doors: &[&[(FLOOR_IN_VAIN, 0)], &[(QUIT, 0), (ANN_IN_VAIN, 5)]],
    played: false,
};

/// What stands behind the begin of the hand that ann folds, and the stop with the report once she has.
const FOLD: &[u8] = b"act 1 ann fold\nsettle 1\n";

const FOLDED: &[u8] =
    b"stop\n* report\n* level 1\n* sold 2000\n* removed 0\n* added 0\n* rest 2000\n* play 0\n\
    * seat 1 1 ann 900\n* seat 1 2 bob 1100\n* end\n";

/// Gives what stands in a text behind the fold in the first hand.
fn behind_fold<'a>(rt: &impl Abort, alloc: Global, text: &'a [u8]) -> Option<&'a [u8]> {
    let begun = text.strip_prefix(ENTERED)?;
    let begin = begin_line(rt, alloc, 11);
    begun.strip_prefix(begin.as_slice())?.strip_prefix(FOLD)
}

/// Tells whether a text is that of the one hand. A second one may have begun before the stop.
fn is_played(rt: &impl Abort, alloc: Global, text: &[u8]) -> bool {
    match behind_fold(rt, alloc, text) {
        Some(rest) => {
            let second = begin_line(rt, alloc, 13);
            rest.strip_prefix(second.as_slice()).unwrap_or(rest) == FOLDED
        }
        None => false,
    }
}

/// Tells whether a run is served: each client is replied so, nothing stands on err, and what stands in out is played or
/// not, and replays.
fn is_served<R: Threads + Wait + Abort + Sync>(rt: &R, alloc: Global, case: &Case) -> bool {
    let (mut hall, puts) = hall_of(rt, alloc, case.doors, NONE);
    let ran = run(rt, alloc, case.command, PLAN, NONE, &mut hall, &Open);
    for put in &puts {
        if !put.has_replies(rt, alloc) {
            return false;
        }
    }
    let out = ran.out.bytes();
    let told = if case.played {
        is_played(rt, alloc, out)
    } else {
        out.ends_with(UNPLAYED)
    };
    ran.status == 0 && ran.err.bytes().is_empty() && told && replays(rt, alloc, out)
}

#[test]
fn a_link_that_fails_ends_its_session_alone(rt: HostRuntime) {
    assert!(rt; is_served(&rt, rt.alloc(), &IN_VAIN));
}

#[test]
fn a_hand_is_served_and_replays(rt: HostRuntime) {
    for case in CASES {
        assert!(rt; is_served(&rt, rt.alloc(), case), "{}", case.shows);
    }
}
