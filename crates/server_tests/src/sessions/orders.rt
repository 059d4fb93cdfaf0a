//! What the floor asks for, and each refusal of it, as it is replied.

use super::entered::{ENTER_BOTH, ENTER_FOUR, FOUR_SEATS, RISING, RISING_PAIR, THREE};
use super::scene::{Deed, Scene, wrong_one};
use crate::client::FINE;
use session_desk::SessionEnd;
use table_worker::Turn;

/// Entries, levels, races, and what comes behind the stop.
const LEVELS: &[Deed<'static>] = &[
    Deed::Session(
        SessionEnd::Closed,
        FINE,
        "> hello floor f
= ok
> enter ann 3 1
# PLAN
= no 8 NoTable
> enter ann 1 3
= no 9 NoSeat
> enter ann 1 0
= no 9 NoSeat
> enter ann 1 1
# enter ann 1 1
= ok
> enter ann 2 1
= no 6 NameKnown
> reenter ann 2 1
= no 45 StillIn
> reenter bob 2 1
= no 7 NameUnknown
> enter bob 1 1
= no 10 SeatTaken
> enter bob 1 2
= no 11 NotFewest
> enter bob 2 1
# enter bob 2 1
= ok
> race 1
= no 42 NoRace
> level
# level
= ok
> enter cat 1 2
= no 12 LateClosed
> reenter ann 1 2
= no 12 LateClosed
> level
= no 17 RaceDue
> balance 1 2
= no 17 RaceDue
> break 2
= no 17 RaceDue
> next
= none
> race 3
= no 8 NoTable
> race 1
# race 1
# stack 1 1 ann 1000
= ok
> race 1
= no 42 NoRace
> race 2
# race 2
# stack 2 1 bob 1000
= ok
> level
= no 39 LastLevel
> stop
# stop
= ok
> enter cat 1 2
= no 5 Stopped
> reenter ann 1 2
= no 5 Stopped
> balance 1 2
= no 5 Stopped
> break 2
= no 5 Stopped
> level
= no 5 Stopped
> race 1
= no 5 Stopped
> hands on
= no 5 Stopped
> hands off
= no 5 Stopped
> round
= no 5 Stopped
> stop
= no 5 Stopped
> next
= no 5 Stopped
> time 1
= no 14 NotPlaying
> watch 2
= ok
> watch 3
= no 8 NoTable
",
    ),
    Deed::Lists(""),
];

/// A table that is broken. Its one player has one seat to go to.
const BREAK: &[Deed<'static>] = &[Deed::Session(
    SessionEnd::Ended,
    FINE,
    "> hello floor f
= ok
> enter ann 1 1
# PLAN
# enter ann 1 1
= ok
> enter bob 2 1
# enter bob 2 1
= ok
> break 2 1.2 bob
= no 1 Syntax
> break 2
# break 2 1.2 bob
= ok
> break 2
= no 8 NoTable
> break 1
= no 37 NoRoom
> next
= none
.
",
)];

/// Moves of players, none of which is lawful.
const MOVES: &[Deed<'static>] = &[Deed::Session(
    SessionEnd::Ended,
    FINE,
    "> hello floor f
= ok
> enter ann 1 1
# PLAN
# enter ann 1 1
= ok
> enter bob 2 1
# enter bob 2 1
= ok
> enter cat 3 1
# enter cat 3 1
= ok
> enter dan 1 2
# enter dan 1 2
= ok
> enter eve 2 2
# enter eve 2 2
= ok
> balance 1 4
= no 8 NoTable
> balance 4 1
= no 8 NoTable
> balance 3 1
= no 33 NotFullest
> balance 1 2
= no 34 NotShortest
> balance 1 3
= no 35 EvenEnough
> break 4
= no 8 NoTable
> break 2
= no 36 NotNextToBreak
> break 3
= no 37 NoRoom
> next
= none
> level
= no 39 LastLevel
.
",
)];

/// What is told before the fold at table 1, and before that at table 2.
const TABLE_1: &str = "# PLAN
# enter ann 1 1
# enter bob 2 1
# enter cat 1 2
# enter dan 2 2
# hands on
# begin 1 1
";

const TABLE_2: &str = "# PLAN
# enter ann 1 1
# enter bob 2 1
# enter cat 1 2
# enter dan 2 2
# hands on
# begin 1 1
# settle 1
# stack 1 1 ann 900
# stack 1 2 cat 1100
# begin 2 2
";

/// The floor switches hand-for-hand on before any hand, and asks for what is refused while table 1
/// plays and once it has played. Once both tables have played, the draw of the break is that of the entry with number
/// 20.
const ROUND: &[Deed<'static>] = &[
    ENTER_FOUR,
    Deed::Session(
        SessionEnd::Ended,
        FINE,
        "> hello floor f
= ok
> round
# PLAN
# enter ann 1 1
# enter bob 2 1
# enter cat 1 2
# enter dan 2 2
= no 41 SwitchWrong
> hands off
= no 41 SwitchWrong
> hands on
# hands on
= ok
> hands on
= no 41 SwitchWrong
.
",
    ),
    Deed::First(Turn::Opened),
    Deed::Session(
        SessionEnd::Ended,
        FINE,
        "> hello floor f
= ok
> hands off
# PLAN
# enter ann 1 1
# enter bob 2 1
# enter cat 1 2
# enter dan 2 2
# hands on
# begin 1 1
= no 40 RoundOpen
> round
= no 40 RoundOpen
> balance 1 2
= no 13 Playing
> break 1
= no 13 Playing
> race 1
= no 13 Playing
> race 2
= no 42 NoRace
.
",
    ),
    Deed::Asks(TABLE_1, "ann a: act 1 fold = ok"),
    Deed::First(Turn::Settled),
    Deed::Session(
        SessionEnd::Ended,
        FINE,
        "> hello floor f
= ok
> round
# PLAN
# enter ann 1 1
# enter bob 2 1
# enter cat 1 2
# enter dan 2 2
# hands on
# begin 1 1
# settle 1
# stack 1 1 ann 900
# stack 1 2 cat 1100
= no 40 RoundOpen
> balance 1 2
= no 35 EvenEnough
> break 1
= no 36 NotNextToBreak
> break 2
= no 40 RoundOpen
> next
= none
.
",
    ),
    Deed::Second(Turn::Opened),
    Deed::Asks(TABLE_2, "bob b: act 2 fold = ok"),
    Deed::Second(Turn::Settled),
    Deed::Session(
        SessionEnd::Ended,
        FINE,
        "> hello floor f
= ok
> round
# PLAN
# enter ann 1 1
# enter bob 2 1
# enter cat 1 2
# enter dan 2 2
# hands on
# begin 1 1
# settle 1
# stack 1 1 ann 900
# stack 1 2 cat 1100
# begin 2 2
# settle 2
# stack 2 1 bob 900
# stack 2 2 dan 1100
# round
= ok
> hands off
# hands off
= ok
> hands off
= no 41 SwitchWrong
> next
# break 2 1.4,1.3 bob,dan
= ok
> next
= none
> break 1
= no 37 NoRoom
.
",
    ),
];

/// Both put in all.
const ALL_IN: &str = "ann a: act 1 allin = ok\nbob b: act 1 allin = ok\n";

/// What is told of the floor before, with the next level and without.
const RAISED: &str = "# PLAN
# enter ann 1 1
# enter bob 1 2
# begin 1 1
# level
";

const BEGUN: &str = "# PLAN
# enter ann 1 1
# enter bob 1 2
# begin 1 1
";

/// The floor takes the next level in the midst of the hand in which bob goes out. The deck is 6s Td 5d Qc, then a
/// burned card, Tc Jd 5c, another, Jh, another and 7h: ann has two pair with tens, and bob two pair with fives.
const OVER_WITH_A_RACE: &[Deed<'static>] = &[
    ENTER_BOTH,
    Deed::First(Turn::Opened),
    Deed::Session(
        SessionEnd::Ended,
        FINE,
        "> hello floor f
= ok
> level
# PLAN
# enter ann 1 1
# enter bob 1 2
# begin 1 1
# level
= ok
> race 1
= no 13 Playing
> level
= no 17 RaceDue
.
",
    ),
    Deed::Asks(RAISED, ALL_IN),
    Deed::First(Turn::Settled),
    Deed::Session(
        SessionEnd::Ended,
        FINE,
        "> hello floor f
= ok
> race 1
# PLAN
# enter ann 1 1
# enter bob 1 2
# begin 1 1
# level
# settle 1
# stack 1 1 ann 2000
# stack 1 2 bob 0
= no 43 Over
> race 2
= no 8 NoTable
> hands on
= no 43 Over
> hands off
= no 41 SwitchWrong
> round
= no 41 SwitchWrong
> level
= no 17 RaceDue
> enter cat 1 2
= no 12 LateClosed
> next
= none
.
",
    ),
];

/// The same hand at the first level, and what the floor asks for once one player is left.
const OVER: &[Deed<'static>] = &[
    ENTER_BOTH,
    Deed::First(Turn::Opened),
    Deed::Asks(BEGUN, ALL_IN),
    Deed::First(Turn::Settled),
    Deed::Session(
        SessionEnd::Ended,
        FINE,
        "> hello floor f
= ok
> enter cat 1 2
# PLAN
# enter ann 1 1
# enter bob 1 2
# begin 1 1
# settle 1
# stack 1 1 ann 2000
# stack 1 2 bob 0
= no 43 Over
> enter bob 1 2
= no 6 NameKnown
> level
= no 43 Over
> balance 1 1
= no 35 EvenEnough
> break 1
= no 37 NoRoom
> next
= none
.
",
    ),
];

/// The scenes of these.
const SCENES: &[Scene<'static>] = &[
    Scene {
        shows: "entries, levels and races are replied",
        shape: RISING,
        deeds: LEVELS,
        left: "",
    },
    Scene {
        shows: "a break is drawn",
        shape: RISING,
        deeds: BREAK,
        left: "",
    },
    Scene {
        shows: "moves are refused",
        shape: THREE,
        deeds: MOVES,
        left: "",
    },
    Scene {
        shows: "hand-for-hand is replied",
        shape: FOUR_SEATS,
        deeds: ROUND,
        left: "",
    },
    Scene {
        shows: "no race is made once one player is left",
        shape: RISING_PAIR,
        deeds: OVER_WITH_A_RACE,
        left: "",
    },
    Scene {
        shows: "nobody enters once one player is left",
        shape: RISING_PAIR,
        deeds: OVER,
        left: "",
    },
];

#[test]
fn orders_are_replied(rt: HostRuntime) {
    assert_eq!(rt; wrong_one(&rt, rt.alloc(), SCENES), None);
}
