//! Desks at doors.

use super::attending::Knocks;
use super::entered::PAIR;
use super::scene::{Deed, Scene, wrong_one};
use session_desk::{SessionEnd, Step};

/// A client quits at once, and then the floor stops the tournament, and stays until its session is closed.
const UNTIL_THE_STOP: &[Deed<'static>] = &[Deed::Door(Knocks {
    clients: [
        "> quit\n= ok\n",
        "> hello floor f\n= ok\n> stop\n# PLAN\n# stop\n= ok\n",
    ],
    fails: 0,
    back: 2,
})];

/// At the other desk the floor stops the tournament, and stays until its session is closed.
const STOP: &str = "> hello floor f\n= ok\n> stop\n# PLAN\n# stop\n= ok\n";

/// A client quits at once, and nobody serves the other.
const BEHIND_THE_STOP: &[Deed<'static>] = &[
    Deed::Comes(STOP),
    Deed::Until(CLOSED),
    Deed::Door(Knocks {
        clients: ["> quit\n= ok\n", "> quit\n"],
        fails: 0,
        back: 1,
    }),
];

/// A session that is closed.
const CLOSED: Step = Step::Over(SessionEnd::Closed);

/// A client whom nobody serves says that he quits, and so does one who is served.
const FIRST_KNOCK: Deed<'static> = Deed::Door(Knocks {
    clients: ["> quit\n", "> quit\n"],
    fails: 1,
    back: 0,
});

const SECOND_KNOCK: Deed<'static> = Deed::Door(Knocks {
    clients: ["> quit\n= ok\n", "> quit\n"],
    fails: 2,
    back: 1,
});

const THIRD_KNOCK: Deed<'static> = Deed::Door(Knocks {
    clients: ["> quit\n= ok\n", "> quit\n= ok\n"],
    fails: 3,
    back: 2,
});

/// The scenes of these.
const SCENES: &[Scene<'static>] = &[
    Scene {
        shows: "a desk works until the stop",
        shape: PAIR,
        deeds: UNTIL_THE_STOP,
        left: "",
    },
    Scene {
        shows: "a desk knocks before it looks for the stop",
        shape: PAIR,
        deeds: BEHIND_THE_STOP,
        left: "",
    },
    Scene {
        shows: "a desk ends where its door fails",
        shape: PAIR,
        deeds: &[FIRST_KNOCK, SECOND_KNOCK, THIRD_KNOCK],
        left: "",
    },
    Scene {
        shows: "a door that fails is told behind the stop",
        shape: PAIR,
        deeds: &[Deed::Comes(STOP), Deed::Until(CLOSED), FIRST_KNOCK],
        left: "",
    },
];

#[test]
fn desks_serve_at_doors(rt: HostRuntime) {
    assert_eq!(rt; wrong_one(&rt, rt.alloc(), SCENES), None);
}
