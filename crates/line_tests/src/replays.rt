//! Whole runs with antes, fixed limit and re-entries: what each line is answered, how the tournament is reported, and
//! what a player is told.

use super::plans::{PLAN, THREE, TWO};
use super::runs::{NOTHING, input_of, run};
use std::alloc::{AllocError, Global};

/// Lines in parts, each answered by what stands behind ` : ` and else by `ok`, and the report behind the answers.
struct Replay {
    shows: &'static str,
    parts: &'static [&'static str],
    report: &'static str,
}

/// ann folds, and bob is all-in against cat. The board is 3s 4c 4d 4s 5d; bob has 2c As, a straight, and cat Ah 3c,
/// fours full.
const BOB_IS_OUT: &str = "\
begin 1 2cAh2hAs3c3d3h3s4c4d4h4s5c5d5h5s6c6d6h6s7c7d7h7s8c8d8h8s9c9d9h9sTcTdThTsJcJdJhJsQcQdQhQsKcKdKhKsAcAd2d2s
act 1 ann fold
act 1 bob allin
act 1 cat call
settle 1
";

/// A hand that begins with the sorted deck.
const BEGIN: &str = "\
begin 1 2c2d2h2s3c3d3h3s4c4d4h4s5c5d5h5s6c6d6h6s7c7d7h7s8c8d8h8s9c9d9h9sTcTdThTsJcJdJhJsQcQdQhQsKcKdKhKsAcAdAhAs
";

/// ann and bob fold, and cat has the blinds.
const FOLDS: &str = "act 1 ann fold
act 1 bob fold
settle 1
";

/// A plan with an ante.
const WITH_ANTE: &str = "game holdem
tables 1
seats 6
stack 1000
buyin 100
late 1
blinds 100 200 100 200
shares 700 300
go
";

/// A plan with an ante, where a stack is one big blind and half of the ante.
const SHORT_STACKS: &str = "game holdem
tables 1
seats 6
stack 300
buyin 100
late 1
blinds 100 200 100 200
shares 700 300
go
";

/// A plan with an ante, where the stack is one big blind.
const ONE_BLIND: &str = "game holdem
tables 1
seats 6
stack 200
buyin 100
late 1
blinds 100 200 100 200
shares 700 300
go
";

/// A plan of a fixed limit, with lines that are wrong.
const WITH_LIMIT: &str = "reenter ann 1 1 : no 2 NoPlan
limit 0 : no 4 PlanWrong limit
limit 10 : no 4 PlanWrong limit
limit 4
limit 4 : no 4 PlanWrong limit
limit 5 : no 4 PlanWrong limit
game holdem
tables 1
seats 6
stack 5000
buyin 100
late 1
blinds 100 200 100 50 : no 4 PlanWrong blinds
blinds 100 200 100 0 : no 1 Syntax
blinds 100 200 100
shares 700 300
go
limit 4 : no 3 PlanLate
";

/// A plan of two levels, where entry ends with the first.
const TWO_LEVELS: &str = "game holdem
tables 1
seats 6
stack 1000
buyin 100
late 1
blinds 100 200 100
blinds 200 400 100
shares 700 300
go
";

static REPLAYS: [Replay; 8] = [
    Replay {
        shows: "who is out enters again",
        parts: &[
            PLAN,
            THREE,
            BOB_IS_OUT,
            "enter bob 1 4 : no 6 NameKnown
reenter dan 1 2 : no 7 NameUnknown
reenter bob 2 4 : no 8 NoTable
reenter bob 1 7 : no 9 NoSeat
reenter bob 1 6 : no 10 SeatTaken
reenter cat 1 2 : no 45 StillIn
reenter bob 1 4
reenter bob 1 2 : no 45 StillIn
stop
reenter bob 1 4 : no 5 Stopped
",
        ],
        report: "* report
* level 1
* sold 4000
* removed 0
* added 0
* rest 4000
* play 0
* seat 1 1 ann 1000
* seat 1 4 bob 1000
* seat 1 6 cat 2000
* end
",
    },
    Replay {
        shows: "who is out stays out",
        parts: &[PLAN, THREE, BOB_IS_OUT, "stop\n"],
        report: "* report
* level 1
* sold 3000
* removed 0
* added 0
* rest 3000
* play 0
* seat 1 1 ann 1000
* seat 1 6 cat 2000
* out 3 bob 0
* end
",
    },
    Replay {
        shows: "entry is closed",
        parts: &[
            TWO_LEVELS,
            THREE,
            BOB_IS_OUT,
            "level
reenter dan 1 4 : no 7 NameUnknown
reenter bob 1 6 : no 10 SeatTaken
reenter bob 1 4 : no 12 LateClosed
reenter cat 1 2 : no 12 LateClosed
",
        ],
        report: "* report
* level 2
* sold 3000
* removed 0
* added 0
* rest 3000
* play 0
* seat 1 1 ann 1000
* seat 1 6 cat 2000
* out 3 bob 0
* end
",
    },
    Replay {
        shows: "nobody enters again once one player is left",
        parts: &[
            PLAN,
            TWO,
            BEGIN,
            // The board is 3d 3h 3s 4d 4s; bob has 2c 2h, and ann 2d 2s: they share, and nobody is out.
            "act 1 ann allin
act 1 bob call
settle 1
reenter bob 1 2 : no 45 StillIn
",
            // ann has the big blind now, and is dealt to first: 2c 2h against Ah As of bob.
            "\
begin 1 2cAh2hAs3c3d3h3s4c4d4h4s5c5d5h5s6c6d6h6s7c7d7h7s8c8d8h8s9c9d9h9sTcTdThTsJcJdJhJsQcQdQhQsKcKdKhKsAcAd2d2s
act 1 bob allin
act 1 ann call
settle 1
reenter ann 1 1 : no 43 Over
reenter bob 1 1 : no 43 Over
",
        ],
        report: "* report
* level 1
* sold 2000
* removed 0
* added 0
* rest 2000
* play 0
* seat 1 4 bob 2000
* out 1 bob 140
* out 2 ann 60
* end
",
    },
    Replay {
        shows: "the big blind has the ante back where all fold",
        parts: &[WITH_ANTE, THREE, BEGIN, FOLDS],
        report: "* report
* level 1
* sold 3000
* removed 0
* added 0
* rest 3000
* play 0
* seat 1 1 ann 1000
* seat 1 4 bob 900
* seat 1 6 cat 1100
* end
",
    },
    Replay {
        shows: "a call does not meet the ante",
        parts: &[
            WITH_ANTE,
            THREE,
            BEGIN,
            // The board is 3s 4c 4d 4s 5d; bob has 2c 2s, cat 2d 3c and ann 2h 3d: cat and ann share 800.
            "act 1 ann call
act 1 bob call
act 1 cat check
settle 1 : no 23 NotOver
act 1 bob check
act 1 cat check
act 1 ann check
act 1 bob check
act 1 cat check
act 1 ann check
act 1 bob check
act 1 cat check
act 1 ann check
settle 1
",
        ],
        report: "* report
* level 1
* sold 3000
* removed 0
* added 0
* rest 3000
* play 0
* seat 1 1 ann 1200
* seat 1 4 bob 800
* seat 1 6 cat 1000
* end
",
    },
    Replay {
        shows: "the bets of a fixed limit",
        parts: &[
            WITH_LIMIT,
            THREE,
            BEGIN,
            "act 1 ann raise 300 : no 28 TooSmall
act 1 ann raise 500 : no 30 PastPot
act 1 ann raise 400
act 1 bob raise 600
act 1 cat raise 800
act 1 ann raise 1000 : no 30 PastPot
act 1 ann allin : no 30 PastPot
act 1 ann call
act 1 bob call
act 1 bob check
act 1 cat check
act 1 ann check
act 1 bob bet 200 : no 28 TooSmall
act 1 bob bet 400
stop
",
        ],
        report: "* report
* level 1
* sold 15000
* removed 0
* added 0
* rest 15000
* play 0
* seat 1 1 ann 5000
* seat 1 4 bob 5000
* seat 1 6 cat 5000
* end
",
    },
    Replay {
        shows: "chips with an ante are in play",
        parts: &[WITH_ANTE, TWO, BEGIN, "act 1 bob call : no 21 NotTurn\n"],
        report: "* report
* level 1
* sold 2000
* removed 0
* added 0
* rest 0
* play 2000
* seat 1 1 ann play
* seat 1 4 bob play
* end
",
    },
];

/// Adds a line.
fn add(text: &mut Vec<u8>, line: &str) -> Result<(), AllocError> {
    text.extend_from_slice(line.as_bytes())?;
    text.push(b'\n')?;
    Ok(())
}

/// Adds the lines of a part, and what they are answered.
fn add_part(input: &mut Vec<u8>, out: &mut Vec<u8>, part: &str) -> Result<(), AllocError> {
    for row in part.lines() {
        let (line, answer) = row.split_once(" : ").unwrap_or((row, "ok"));
        add(input, line)?;
        add(out, answer)?;
    }
    Ok(())
}

/// Tells whether lines are answered so, and the tournament is reported so.
fn is_replayed(alloc: Global, replay: &Replay) -> Result<bool, AllocError> {
    let mut input = Vec::new(alloc);
    let mut out = Vec::new(alloc);
    for part in replay.parts {
        add_part(&mut input, &mut out, part)?;
    }
    out.extend_from_slice(replay.report.as_bytes())?;
    Ok(run(alloc, &["replay"], input, NOTHING)?.is(0, &out, b""))
}

#[test]
fn lines_are_answered_and_reported(rt: HostRuntime) {
    for replay in &REPLAYS {
        assert!(rt;
            is_replayed(rt.alloc(), replay).unwrap_or(false),
            "{}",
            replay.shows
        );
    }
}

/// A name, lines in parts, how what he is told begins, and how it ends.
type View = (
    &'static str,
    &'static [&'static str],
    &'static str,
    &'static str,
);

static VIEWS: [View; 4] = [
    // The ante is told behind the blinds.
    (
        "cat",
        &[WITH_ANTE, THREE, BEGIN, FOLDS],
        "# game holdem
# tables 1
# seats 6
# stack 1000
# buyin 100
# late 1
# blinds 100 200 100 200
# shares 700 300
# go
",
        "# enter cat 1 6
# begin 1 1
1: hand 1 1 4 6
1: seat 1 ann 1000
1: seat 4 bob 1000
1: seat 6 cat 1000
1: post bob 100
1: post cat 200
1: ante cat 200
1: hole 2d3c
1: ann fold
1: bob fold
1: win cat 500
# settle 1
# stack 1 1 ann 1000
# stack 1 4 bob 900
# stack 1 6 cat 1100
",
    ),
    // What is left behind the blind is the ante.
    (
        "ann",
        &[SHORT_STACKS, THREE, BEGIN, FOLDS],
        "# game holdem
",
        "1: post bob 100
1: post cat 200
1: ante cat 100
1: hole 2h3d
1: ann fold
1: bob fold
1: win cat 400
# settle 1
# stack 1 1 ann 300
# stack 1 4 bob 200
# stack 1 6 cat 400
",
    ),
    // Where nothing is left there is no ante, and no line of it.
    (
        "dan",
        &[ONE_BLIND, THREE, BEGIN, FOLDS],
        "# game holdem
",
        "1: post bob 100
1: post cat 200
1: ann fold
1: bob fold
1: win cat 300
# settle 1
# stack 1 1 ann 200
# stack 1 4 bob 100
# stack 1 6 cat 300
",
    ),
    // A re-entry is told to all, by its line.
    (
        "bob",
        &[PLAN, THREE, BOB_IS_OUT, "reenter bob 1 4\nstop\n"],
        "# game holdem
",
        "1: show cat Ah3c
1: flop 3s4c4d
1: turn 4s
1: river 5d
1: win cat 2000
# settle 1
# stack 1 1 ann 1000
# stack 1 4 bob 0
# stack 1 6 cat 2000
# reenter bob 1 4
# stop
",
    ),
];

/// Tells whether a player is told so.
fn is_seen(alloc: Global, view: &View) -> Result<bool, AllocError> {
    let input = input_of(alloc, view.1)?;
    let ran = run(alloc, &["view", view.0], input, NOTHING)?;
    let told = ran.out.bytes();
    Ok(
        ran.is(0, told, b"")
            && told.starts_with(view.2.as_bytes())
            && told.ends_with(view.3.as_bytes()),
    )
}

#[test]
fn players_are_told_of_antes_and_re_entries(rt: HostRuntime) {
    for view in &VIEWS {
        assert!(rt; is_seen(rt.alloc(), view).unwrap_or(false), "{}", view.0);
    }
}
