//! Sessions of one player, of one who has not entered, and of the floor that watches two tables.

use super::entered::{ENTER_BOTH, ENTER_FOUR, FOUR_SEATS, PAIR};
use super::scene::{Deed, Scene, wrong_one};
use crate::client::FINE;
use session_desk::{SessionEnd, Step};
use table_worker::Turn;

/// What the desk lists where ann has folded at table 1.
const ANNS_FOLD: &str = "ann: act 1 ann fold\n";

/// ann watches, and is too early with a check. She comes again, watches nothing before she asks to, is told of the
/// floor from its begin, and folds.
const ANN_COMES_AGAIN: &[Deed<'static>] = &[
    ENTER_BOTH,
    Deed::First(Turn::Opened),
    Deed::Session(
        SessionEnd::Quit,
        FINE,
        "> hello ann a
= ok
> watch 1
# PLAN
# enter ann 1 1
# enter bob 1 2
# begin 1 1
= ok
> act 1 check
1: hand 1 1 1 2
1: seat 1 ann 1000
1: seat 2 bob 1000
1: post ann 100
1: post bob 200
1: hole 7c3h
= no 24 CheckFacing
> quit
= ok
",
    ),
    Deed::Lists(""),
    Deed::Session(
        SessionEnd::Ended,
        FINE,
        "> hello ann a
= ok
> act 1 fold
# PLAN
# enter ann 1 1
# enter bob 1 2
# begin 1 1
= ok
> watch 1
= ok
> watch 1
1: hand 1 1 1 2
1: seat 1 ann 1000
1: seat 2 bob 1000
1: post ann 100
1: post bob 200
1: hole 7c3h
1: ann fold
1: win bob 300
= ok
.
",
    ),
    Deed::Lists(ANNS_FOLD),
];

/// ann waits at one desk for what she does at the other.
const ANN_WAITS: &[Deed<'static>] = &[
    ENTER_BOTH,
    Deed::First(Turn::Opened),
    Deed::Change,
    Deed::Comes(
        "> hello ann a
= ok
> watch 1
# PLAN
# enter ann 1 1
# enter bob 1 2
# begin 1 1
= ok
? 1: ann fold
1: hand 1 1 1 2
1: seat 1 ann 1000
1: seat 2 bob 1000
1: post ann 100
1: post bob 200
1: hole 7c3h
1: ann fold
1: win bob 300
> act 1 fold
= no 22 HandOver
.
",
    ),
    Deed::Until(Step::Idled),
    Deed::Session(
        SessionEnd::Ended,
        FINE,
        "> hello ann a
= ok
> act 1 fold
# PLAN
# enter ann 1 1
# enter bob 1 2
# begin 1 1
= ok
> watch 1
= ok
> watch 1
1: hand 1 1 1 2
1: seat 1 ann 1000
1: seat 2 bob 1000
1: post ann 100
1: post bob 200
1: hole 7c3h
1: ann fold
1: win bob 300
= ok
.
",
    ),
    Deed::Until(Step::Idled),
    Deed::Until(Step::Over(SessionEnd::Ended)),
    Deed::Lists(ANNS_FOLD),
    Deed::Change,
    Deed::Lists(""),
];

/// eve has a word and no seat, and sees no cards but those that are tabled, as the floor does. bob sees his own cards:
/// the first of the deck, and the third.
const EACH_WATCHES: &[Deed<'static>] = &[
    ENTER_BOTH,
    Deed::First(Turn::Opened),
    Deed::Session(
        SessionEnd::Quit,
        FINE,
        "> hello eve e
= ok
> act 1 fold
# PLAN
# enter ann 1 1
# enter bob 1 2
# begin 1 1
= no 20 NotDealt
> watch 1
= ok
> act 1 call
1: hand 1 1 1 2
1: seat 1 ann 1000
1: seat 2 bob 1000
1: post ann 100
1: post bob 200
= no 20 NotDealt
> quit
= ok
",
    ),
    Deed::Session(
        SessionEnd::Quit,
        FINE,
        "> hello bob b
= ok
> watch 1
# PLAN
# enter ann 1 1
# enter bob 1 2
# begin 1 1
= ok
> act 1 check
1: hand 1 1 1 2
1: seat 1 ann 1000
1: seat 2 bob 1000
1: post ann 100
1: post bob 200
1: hole QcAd
= no 21 NotTurn
> quit
= ok
",
    ),
    Deed::Session(
        SessionEnd::Ended,
        FINE,
        "> hello floor f
= ok
> watch 1
# PLAN
# enter ann 1 1
# enter bob 1 2
# begin 1 1
= ok
> next
1: hand 1 1 1 2
1: seat 1 ann 1000
1: seat 2 bob 1000
1: post ann 100
1: post bob 200
= none
.
",
    ),
    Deed::Lists(""),
];

/// ann has said hello before the floor lets her enter.
const ANN_IS_EARLY: &[Deed<'static>] = &[
    Deed::Change,
    Deed::Comes(
        "> hello ann a
= ok
> act 1 fold
# PLAN
= no 14 NotPlaying
? # enter bob 1 2
# enter ann 1 1
# enter bob 1 2
> watch 1
= ok
? 1: hand
# begin 1 1
1: hand 1 1 1 2
1: seat 1 ann 1000
1: seat 2 bob 1000
1: post ann 100
1: post bob 200
1: hole 7c3h
> act 1 fold
1: ann fold
1: win bob 300
= ok
.
",
    ),
    Deed::Until(Step::Idled),
    Deed::Session(
        SessionEnd::Ended,
        FINE,
        "> hello floor f
= ok
> begin 1
# PLAN
= no 1 Syntax
> enter ann 1 1
# enter ann 1 1
= ok
> enter bob 1 2
# enter bob 1 2
= ok
.
",
    ),
    Deed::Until(Step::Idled),
    Deed::Until(Step::Idled),
    Deed::First(Turn::Opened),
    Deed::Until(Step::Idled),
    Deed::Until(Step::Over(SessionEnd::Ended)),
    Deed::Change,
    Deed::Lists(ANNS_FOLD),
];

/// A hand begins at table 2 and then at table 1. At one desk the floor watches table 2 and then table 1, and is told
/// what is new at once by the number of the table. At the other bob folds at table 2, and then ann at table 1.
const WATCHES: &[Deed<'static>] = &[
    ENTER_FOUR,
    Deed::Second(Turn::Opened),
    Deed::First(Turn::Opened),
    Deed::Change,
    Deed::Comes(
        "> hello floor f
= ok
> watch 2
# PLAN
# enter ann 1 1
# enter bob 2 1
# enter cat 1 2
# enter dan 2 2
# begin 2 1
# begin 1 2
= ok
> watch 1
2: hand 1 1 1 2
2: seat 1 bob 1000
2: seat 2 dan 1000
2: post bob 100
2: post dan 200
= ok
> watch 2
1: hand 2 1 1 2
1: seat 1 ann 1000
1: seat 2 cat 1000
1: post ann 100
1: post cat 200
= ok
? 2: bob fold
1: ann fold
1: win cat 300
2: bob fold
2: win dan 300
.
",
    ),
    Deed::Until(Step::Idled),
    Deed::Session(
        SessionEnd::Ended,
        FINE,
        "> hello bob b
= ok
> act 2 fold
# PLAN
# enter ann 1 1
# enter bob 2 1
# enter cat 1 2
# enter dan 2 2
# begin 2 1
# begin 1 2
= ok
.
",
    ),
    Deed::Session(
        SessionEnd::Ended,
        FINE,
        "> hello ann a
= ok
> act 1 fold
# PLAN
# enter ann 1 1
# enter bob 2 1
# enter cat 1 2
# enter dan 2 2
# begin 2 1
# begin 1 2
= ok
.
",
    ),
    Deed::Lists("bob: act 2 bob fold\nann: act 1 ann fold\n"),
    Deed::Until(Step::Idled),
    Deed::Until(Step::Over(SessionEnd::Ended)),
    Deed::Change,
    Deed::Lists(""),
];

/// The scenes of these.
const SCENES: &[Scene<'static>] = &[
    Scene {
        shows: "a player comes again at one desk",
        shape: PAIR,
        deeds: ANN_COMES_AGAIN,
        left: "",
    },
    Scene {
        shows: "a player is at two desks",
        shape: PAIR,
        deeds: ANN_WAITS,
        left: "",
    },
    Scene {
        shows: "each is told his own cards",
        shape: PAIR,
        deeds: EACH_WATCHES,
        left: "",
    },
    Scene {
        shows: "a player says hello before he enters",
        shape: PAIR,
        deeds: ANN_IS_EARLY,
        left: "",
    },
    Scene {
        shows: "tables are told in rising number",
        shape: FOUR_SEATS,
        deeds: WATCHES,
        left: "",
    },
];

#[test]
fn each_is_told_his_part(rt: HostRuntime) {
    assert_eq!(rt; wrong_one(&rt, rt.alloc(), SCENES), None);
}
