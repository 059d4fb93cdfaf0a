//! Whole hands that are played on one thread, and what is left of them.

use super::entered::{ENTER_BOTH, ENTER_FOUR, PAIR, SIX_SEATS};
use super::scene::{Deed, Scene, wrong_one};
use crate::client::FINE;
use floor_text::Refusal;
use session_desk::{SessionEnd, Step};
use table_worker::Turn;

/// What the desk lists where ann has folded at table 1.
const ANNS_FOLD: &str = "ann: act 1 ann fold\n";

/// ann folds her hand, and the worker takes it away and settles it. The floor stops the tournament, and stays until its
/// session is closed.
const PLAYED: &[Deed<'static>] = &[
    ENTER_BOTH,
    Deed::First(Turn::Opened),
    Deed::Session(
        SessionEnd::Quit,
        FINE,
        "> act 1 fold
= who
> hello ann a
= ok
> watch 1
# PLAN
# enter ann 1 1
# enter bob 1 2
# begin 1 1
= ok
? 1: hand 1
1: hand 1 1 1 2
1: seat 1 ann 1000
1: seat 2 bob 1000
1: post ann 100
1: post bob 200
1: hole 7c3h
> act 1 fold
1: ann fold
1: win bob 300
= ok
> quit
= ok
",
    ),
    Deed::Lists(ANNS_FOLD),
    Deed::First(Turn::Settled),
    Deed::Session(
        SessionEnd::Closed,
        FINE,
        "> hello floor f
= ok
> stop
# PLAN
# enter ann 1 1
# enter bob 1 2
# begin 1 1
# settle 1
# stack 1 1 ann 900
# stack 1 2 bob 1100
# stop
= ok
",
    ),
    Deed::Lists(ANNS_FOLD),
];

/// What is left then.
const SETTLED: &str = "opened
1: act 1 ann fold
closed
* report
* level 1
* sold 2000
* removed 0
* added 0
* rest 2000
* play 0
* seat 1 1 ann 900
* seat 1 2 bob 1100
* end
";

/// At the other desk the floor stops the tournament in the midst of the hand. ann folds the hand that still lies at the
/// dock, and her session is closed as soon as her link is idle.
const VOID: &[Deed<'static>] = &[
    ENTER_BOTH,
    Deed::First(Turn::Opened),
    Deed::Change,
    Deed::Session(
        SessionEnd::Closed,
        FINE,
        "> hello floor f
= ok
> stop
# PLAN
# enter ann 1 1
# enter bob 1 2
# begin 1 1
# stop
= ok
",
    ),
    Deed::Change,
    Deed::Session(
        SessionEnd::Closed,
        FINE,
        "> hello ann a
= ok
> act 1 fold
# PLAN
# enter ann 1 1
# enter bob 1 2
# begin 1 1
# stop
= ok
",
    ),
    Deed::Lists(ANNS_FOLD),
];

/// What is left of a hand that ann folded and that is void.
const VOIDED: &str = "opened
1: act 1 ann fold
closed
* report
* level 1
* sold 2000
* removed 0
* added 0
* rest 2000
* play 0
* seat 1 1 ann 1000
* seat 1 2 bob 1000
* end
";

/// The stop comes once the hand is over, and before it is settled.
const OVER: &[Deed<'static>] = &[
    ENTER_BOTH,
    Deed::First(Turn::Opened),
    Deed::Asks(BEGUN, "ann a: act 1 fold = ok"),
    Deed::Comes(STOP),
    Deed::Until(Step::Over(SessionEnd::Closed)),
];

/// What is told of the floor before the fold.
const BEGUN: &str = "# PLAN
# enter ann 1 1
# enter bob 1 2
# begin 1 1
";

/// The floor stops the tournament.
const STOP: &str = "> hello floor f
= ok
> stop
# PLAN
# enter ann 1 1
# enter bob 1 2
# begin 1 1
# stop
= ok
";

/// The worker of table 2 makes his turns: a hand is played there, and the table breaks by the draw of the entry with
/// number 15. It has no hand any more.
const BREAKS: &[Deed<'static>] = &[
    ENTER_FOUR,
    Deed::Second(Turn::Opened),
    Deed::Second(Turn::Lying),
    Deed::Asks(BEGUN_AT_TWO, "bob b: act 2 fold = ok"),
    Deed::Second(Turn::Settled),
    Deed::Second(Turn::Ordered),
    Deed::Second(Turn::NotNow(Refusal::NoTable)),
    Deed::Session(
        SessionEnd::Closed,
        FINE,
        "> hello floor f
= ok
> stop
# PLAN
# enter ann 1 1
# enter bob 2 1
# enter cat 1 2
# enter dan 2 2
# begin 2 1
# settle 2
# stack 2 1 bob 900
# stack 2 2 dan 1100
# break 2 1.3,1.4 bob,dan
# stop
= ok
",
    ),
    Deed::Second(Turn::Ended),
];

/// What is told of the floor before the fold at table 2.
const BEGUN_AT_TWO: &str = "# PLAN
# enter ann 1 1
# enter bob 2 1
# enter cat 1 2
# enter dan 2 2
# begin 2 1
";

/// The scenes of these.
const SCENES: &[Scene<'static>] = &[
    Scene {
        shows: "a hand is served",
        shape: PAIR,
        deeds: PLAYED,
        left: SETTLED,
    },
    Scene {
        shows: "an act behind the stop is taken in a void hand",
        shape: PAIR,
        deeds: VOID,
        left: VOIDED,
    },
    Scene {
        shows: "a hand that is over at the stop is void",
        shape: PAIR,
        deeds: OVER,
        left: VOIDED,
    },
    Scene {
        shows: "a table plays a hand and breaks",
        shape: SIX_SEATS,
        deeds: BREAKS,
        left: "",
    },
];

#[test]
fn hands_are_played_by_turns(rt: HostRuntime) {
    assert_eq!(rt; wrong_one(&rt, rt.alloc(), SCENES), None);
}
