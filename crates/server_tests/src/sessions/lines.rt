//! The lines of a session, wherever they are cut, and what its turns come to.

use super::entered::PAIR;
use super::scene::{Deed, Scene, wrong_one};
use crate::client::FINE;
use session_desk::{SessionEnd, Step};

/// Lines before a right hello, and hellos behind it.
const HELLOS: &[Deed<'static>] = &[Deed::Session(
    SessionEnd::Quit,
    FINE,
    "> watch 1
= who
> act 1 fold
= who
> next
= who
> hello ann b
= who
> hello ann f
= who
> hello floor a
= who
> hello dan d
= who
> hello Ann a
= who
> hello ann
= who
> * a note
= who
> 
= who
> hello ann a
= ok
> hello ann a
# PLAN
= no 1 Syntax
> hello bob b
= no 1 Syntax
> hello floor f
= no 1 Syntax
> * a note
= no 1 Syntax
> 
= no 1 Syntax
> next
= no 1 Syntax
> stop
= no 1 Syntax
> time 1
= no 1 Syntax
> enter ann 1 1
= no 1 Syntax
> act 1 ann fold
= no 1 Syntax
> act 1 fold
= no 14 NotPlaying
> quit
= ok
> watch 1
",
)];

/// Lines that come in pieces. One waits for news in the midst of a line.
const PIECES: &[Deed<'static>] = &[Deed::Session(
    SessionEnd::Ended,
    FINE,
    "~ hel
~ lo ann\x20
> a
= ok
~ watc
? # go
# PLAN
> h 1
= ok
> act 2 fold
= no 8 NoTable
.
",
)];

/// Sessions that are short: a quit before a hello, nothing at all, a last line without a line feed, and one that is a
/// quit.
const SHORT: &[Deed<'static>] = &[
    Deed::Session(SessionEnd::Quit, FINE, "> quit\n= ok\n"),
    Deed::Session(SessionEnd::Ended, FINE, ".\n"),
    Deed::Session(
        SessionEnd::Ended,
        FINE,
        "> hello ann a\n= ok\n~ act 1 fo\n.\n# PLAN\n= no 1 Syntax\n",
    ),
    Deed::Session(SessionEnd::Quit, FINE, "~ quit\n.\n= ok\n"),
];

/// Two lines come at once, and the last line has no line feed.
const LAST_LINE: &[Deed<'static>] = &[
    Deed::Comes(
        "~ hello ann a|watch 1|
! 1: hand
~ act 1 fo
.
",
    ),
    Deed::Goes(Step::Took, ""),
    Deed::Goes(
        Step::Replied,
        "= ok
",
    ),
    Deed::Goes(
        Step::Replied,
        "# PLAN
= ok
",
    ),
    Deed::Goes(Step::Idled, ""),
    Deed::Goes(Step::Took, ""),
    Deed::Goes(
        Step::Replied,
        "= no 1 Syntax
",
    ),
    Deed::Goes(Step::Over(SessionEnd::Ended), ""),
];

/// A line comes at once with the quit before it.
const QUIT_BEFORE: &[Deed<'static>] = &[
    Deed::Comes(
        "~ hello ann a|quit|watch 1|
",
    ),
    Deed::Goes(Step::Took, ""),
    Deed::Goes(
        Step::Replied,
        "= ok
",
    ),
    Deed::Goes(
        Step::Over(SessionEnd::Quit),
        "# PLAN
= ok
",
    ),
];

/// Lines of 401, 400, 511 and 900 letters.
const LONG_LINES: &[Deed<'static>] = &[
    Deed::Comes(
        "> %%%%x
> hello ann a
> %%%%
> %%%%%xxxxxxxxxxx
> %%%%%%%%%
.
",
    ),
    Deed::Goes(Step::Took, ""),
    Deed::Goes(
        Step::Replied,
        "= who
",
    ),
    Deed::Goes(Step::Took, ""),
    Deed::Goes(
        Step::Replied,
        "= ok
",
    ),
    Deed::Goes(Step::Took, ""),
    Deed::Goes(
        Step::Replied,
        "# PLAN
= no 1 Syntax
",
    ),
    Deed::Goes(Step::Took, ""),
    Deed::Goes(
        Step::Replied,
        "= no 1 Syntax
",
    ),
    Deed::Goes(Step::Took, ""),
    Deed::Goes(Step::Took, ""),
    Deed::Goes(
        Step::Replied,
        "= no 1 Syntax
",
    ),
    Deed::Goes(Step::Over(SessionEnd::Ended), ""),
];

/// The scenes of these.
const SCENES: &[Scene<'static>] = &[
    Scene {
        shows: "lines are replied, before the hello and behind it",
        shape: PAIR,
        deeds: HELLOS,
        left: "",
    },
    Scene {
        shows: "lines come in pieces",
        shape: PAIR,
        deeds: PIECES,
        left: "",
    },
    Scene {
        shows: "sessions may be short",
        shape: PAIR,
        deeds: SHORT,
        left: "",
    },
    Scene {
        shows: "turns come to what they did",
        shape: PAIR,
        deeds: LAST_LINE,
        left: "",
    },
    Scene {
        shows: "no line is handled behind a quit",
        shape: PAIR,
        deeds: QUIT_BEFORE,
        left: "",
    },
    Scene {
        shows: "long lines are replied once",
        shape: PAIR,
        deeds: LONG_LINES,
        left: "",
    },
];

#[test]
fn lines_are_replied_wherever_they_are_cut(rt: HostRuntime) {
    assert_eq!(rt; wrong_one(&rt, rt.alloc(), SCENES), None);
}
