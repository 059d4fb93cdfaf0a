//! Each refusal of an act and of a called time, as it is replied.

use super::entered::{ENTER_BOTH, OMAHA, PAIR};
use super::scene::{Deed, Scene, wrong_one};
use table_worker::Turn;

/// What is told of the floor before the first hand of ann and bob.
const ENTERED: &str = "# PLAN
# enter ann 1 1
# enter bob 1 2
";

/// What is replied where no hand lies.
const NO_HAND: &str = "ann a: act 1 fold = no 14 NotPlaying
eve e: act 1 fold = no 14 NotPlaying
floor f: time 1 = no 14 NotPlaying
ann a: act 0 fold = no 8 NoTable
ann a: act 2 fold = no 8 NoTable
ann a: act 9007199254740991 fold = no 8 NoTable
floor f: time 2 = no 8 NoTable
floor f: time 0 = no 8 NoTable
ann a: watch 0 = no 8 NoTable
floor f: watch 2 = no 8 NoTable
ann a: act 9007199254740992 fold = no 1 Syntax
ann a: act 1 ann fold = no 1 Syntax
floor f: act 1 fold = no 1 Syntax
";

/// ann and bob enter, and ann folds the first hand. Then the second lies at the dock: ann has the big blind and 900
/// chips, bob the button, the small blind and 1,100.
const FIRST: &str = "# PLAN
# enter ann 1 1
# enter bob 1 2
# begin 1 1
";

/// What is told of the floor once the second hand has begun. ann has folded the first.
const SECOND: &str = "# PLAN
# enter ann 1 1
# enter bob 1 2
# begin 1 1
# settle 1
# stack 1 1 ann 900
# stack 1 2 bob 1100
# begin 1 2
";

/// What is replied before the flop, and at the flop.
const ACTS: &str = "eve e: act 1 fold = no 20 NotDealt
ann a: act 1 fold = no 21 NotTurn
bob b: act 1 check = no 24 CheckFacing
bob b: act 1 bet 400 = no 26 BetFacing
bob b: act 1 raise 300 = no 28 TooSmall
bob b: act 1 raise 1200 = no 29 PastStack
bob b: act 1 raise 700 = no 30 PastPot
bob b: act 1 allin = no 30 PastPot
bob b: act 1 raise 450 = no 32 NotUnit
bob b: act 1 call = ok
ann a: act 1 call = no 25 NothingToCall
ann a: act 1 check = ok
ann a: act 1 raise 400 = no 27 NothingToRaise
ann a: act 1 bet 100 = no 28 TooSmall
ann a: act 1 bet 800 = no 29 PastStack
ann a: act 1 bet 500 = no 30 PastPot
ann a: act 1 bet 250 = no 32 NotUnit
ann a: act 1 bet 200 = ok
bob b: act 1 raise 600 = ok
ann a: act 1 allin = ok
bob b: act 1 raise 900 = no 31 NotReopened
bob b: act 1 allin = no 31 NotReopened
bob b: act 1 call = ok
bob b: act 1 fold = no 22 HandOver
ann a: act 1 fold = no 22 HandOver
eve e: act 1 fold = no 20 NotDealt
floor f: time 1 = no 22 HandOver
";

/// What is replied to who calls time.
const TIMES: &str = "ann a: time 1 = no 1 Syntax
floor f: time 1 = ok
floor f: time 1 = no 22 HandOver
";

/// The acts that are taken of these.
const SIX_ACTS: &str = "ann: act 1 ann fold
bob: act 1 bob call
ann: act 1 ann check
ann: act 1 ann bet 200
bob: act 1 bob raise 600
ann: act 1 ann allin
bob: act 1 bob call
";

/// bob's fold, by a time that the floor called.
const CALLED: &str = "ann: act 1 ann fold
the floor: act 1 bob fold by time
";

/// Both act in the second hand.
const ACTING: &[Deed<'static>] = &[
    ENTER_BOTH,
    Deed::First(Turn::Opened),
    Deed::Asks(FIRST, "ann a: act 1 fold = ok"),
    Deed::First(Turn::Settled),
    Deed::First(Turn::Opened),
    Deed::Asks(SECOND, ACTS),
    Deed::Lists(SIX_ACTS),
];

/// Time is called there.
const CALLING: &[Deed<'static>] = &[
    ENTER_BOTH,
    Deed::First(Turn::Opened),
    Deed::Asks(FIRST, "ann a: act 1 fold = ok"),
    Deed::First(Turn::Settled),
    Deed::First(Turn::Opened),
    Deed::Asks(SECOND, TIMES),
    Deed::Lists(CALLED),
];

/// The scenes of these.
const SCENES: &[Scene<'static>] = &[
    Scene {
        shows: "nothing is done where no hand lies",
        shape: PAIR,
        deeds: &[ENTER_BOTH, Deed::Asks(ENTERED, NO_HAND)],
        left: "",
    },
    Scene {
        shows: "each refusal of an act is replied",
        shape: OMAHA,
        deeds: ACTING,
        left: "",
    },
    Scene {
        shows: "time is called for the floor",
        shape: OMAHA,
        deeds: CALLING,
        left: "",
    },
];

#[test]
fn each_refusal_is_replied(rt: HostRuntime) {
    assert_eq!(rt; wrong_one(&rt, rt.alloc(), SCENES), None);
}
