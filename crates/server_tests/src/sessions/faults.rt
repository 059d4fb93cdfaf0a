//! Links that fail.

use super::entered::{ENTER_BOTH, PAIR};
use super::scene::{Deed, Scene, is_so};
use crate::client::{FINE, Fault};
use session_desk::SessionEnd;
use std::alloc::Global;
use std::process::Abort;
use std::sync::Wait;
use table_worker::Turn;

/// What the desk lists where ann has folded at table 1.
const ANNS_FOLD: &str = "ann: act 1 ann fold\n";

/// ann's session, a part for each take from her link, with an empty line between two: she speaks before her hello,
/// watches the table, waits for her hand and folds it. The deck begins with Qc, 7c, Ad and 3h, and the second card and
/// the fourth are hers.
const ANN: &str = "> act 1 fold
= who

> hello ann a
= ok

> watch 1
# PLAN
# enter ann 1 1
# enter bob 1 2
# begin 1 1
= ok

? 1: hand 1
1: hand 1 1 1 2
1: seat 1 ann 1000
1: seat 2 bob 1000
1: post ann 100
1: post bob 200
1: hole 7c3h

> act 1 fold
1: ann fold
1: win bob 300
= ok

> quit
= ok";

/// Why ann's session is over and which call of her link fails, how many of her parts were put by then, and whether her
/// fold stands. The odd calls are takes, and the even ones puts. No session makes the last.
const FAULTS: [(SessionEnd, u64, usize, bool); 13] = [
    (SessionEnd::LinkRead, 1, 0, false),
    (SessionEnd::LinkWrite, 2, 0, false),
    (SessionEnd::LinkRead, 3, 1, false),
    (SessionEnd::LinkWrite, 4, 1, false),
    (SessionEnd::LinkRead, 5, 2, false),
    (SessionEnd::LinkWrite, 6, 2, false),
    (SessionEnd::LinkRead, 7, 3, false),
    (SessionEnd::LinkWrite, 8, 3, false),
    (SessionEnd::LinkRead, 9, 4, false),
    (SessionEnd::LinkWrite, 10, 4, true),
    (SessionEnd::LinkRead, 11, 5, true),
    (SessionEnd::LinkWrite, 12, 5, true),
    (SessionEnd::Quit, 13, 6, true),
];

/// What is left of the void hand, with her fold and without.
const FOLDED: &str = "opened
1: act 1 ann fold
closed
* report
* level 1
* sold 2000
* removed 0
* added 0
* rest 2000
* play 0
* seat 1 1 ann 1000
* seat 1 2 bob 1000
* end
";

const UNPLAYED: &str = "opened
closed
* report
* level 1
* sold 2000
* removed 0
* added 0
* rest 2000
* play 0
* seat 1 1 ann 1000
* seat 1 2 bob 1000
* end
";

/// Tells whether ann's session is over so where this call fails, so many parts were put, and her fold stands where that
/// is told.
fn fails_so<R: Wait + Abort>(
    rt: &R,
    alloc: Global,
    end: SessionEnd,
    call: u64,
    parts: usize,
    folded: bool,
) -> bool {
    let (listed, left) = if folded {
        (ANNS_FOLD, FOLDED)
    } else {
        ("", UNPLAYED)
    };
    let fault = Fault {
        call,
        parts,
        ..FINE
    };
    let scene = Scene {
        shows: "",
        shape: PAIR,
        deeds: &[
            ENTER_BOTH,
            Deed::First(Turn::Opened),
            Deed::Session(end, fault, ANN),
            Deed::Lists(listed),
        ],
        left,
    };
    is_so(rt, alloc, &scene)
}

#[test]
fn a_session_ends_where_its_link_fails(rt: HostRuntime) {
    for (end, call, parts, folded) in FAULTS {
        assert!(rt;
            fails_so(&rt, rt.alloc(), end, call, parts, folded),
            "call {call}"
        );
    }
}

/// There is room for 20 bytes more than are put.
const LITTLE_ROOM: Fault = Fault { bytes: 20, ..FINE };

/// ann watches her table, and her link has no room for all that she is told as her hand begins: there is room for the
/// line of the hand, of 15 bytes and a line feed, and for four bytes more. She comes again, and is told all from its
/// begin.
const CUT: &[Deed<'static>] = &[
    ENTER_BOTH,
    Deed::First(Turn::Opened),
    Deed::Session(
        SessionEnd::LinkWrite,
        LITTLE_ROOM,
        "> hello ann a
= ok
> watch 1
# PLAN
# enter ann 1 1
# enter bob 1 2
# begin 1 1
= ok
? 1: hand 1
",
    ),
    Deed::Session(
        SessionEnd::Ended,
        FINE,
        "> hello ann a
= ok
> watch 1
# PLAN
# enter ann 1 1
# enter bob 1 2
# begin 1 1
= ok
> act 1 fold
1: hand 1 1 1 2
1: seat 1 ann 1000
1: seat 2 bob 1000
1: post ann 100
1: post bob 200
1: hole 7c3h
1: ann fold
1: win bob 300
= ok
.
",
    ),
    Deed::Lists(ANNS_FOLD),
];

#[test]
fn a_link_that_is_full_in_the_midst_of_news_is_put_none_of_them(rt: HostRuntime) {
    let scene = Scene {
        shows: "",
        shape: PAIR,
        deeds: CUT,
        left: "",
    };
    assert!(rt; is_so(&rt, rt.alloc(), &scene));
}
