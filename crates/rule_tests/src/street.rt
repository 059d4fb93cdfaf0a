//! One street: who is due, what each act comes to, and what a player faces.

ghost use Rattle.std.specs.Prelude.{◌≡◌, ◌+◌, ◌<◌, ◌^◌, Some, nat_lt};

use crate::rows::are_right;
use betting_round::{Act, Bettor, Bounds, Done, Facing, NoLimit, PotLimit, Round};
use floor_text::Refusal;

/// What is answered to an act of a seat.
type Answered = (u8, Act, Result<Done, Refusal>);

/// A street with a big blind of 200, and acts one after another.
struct Script {
    /// What each player has put in and has behind, by the seats from 1. Behind the last nobody plays.
    chips: &'static [(u16, u16)],
    after: u8,
    opening: u16,
    unit: u8,
    counted: u16,
    rows: &'static [Answered],
}

/// Streets before the flop.
static BEFORE_THE_FLOP: [Script; 4] = [
    // two players
    Script {
        chips: &[(100, 900), (0, 0), (0, 0), (200, 800)],
        after: 4,
        opening: 200,
        unit: 100,
        counted: 0,
        rows: &[
            (4, Act::Check, Err(Refusal::NotTurn)),
            (1, Act::Check, Err(Refusal::CheckFacing)),
            (1, Act::Bet(400), Err(Refusal::BetFacing)),
            (1, Act::Raise(300), Err(Refusal::TooSmall)),
            (1, Act::Raise(1100), Err(Refusal::PastStack)),
            (1, Act::Raise(450), Err(Refusal::NotUnit)),
            (1, Act::Raise(400), Ok(Done::RaisedTo(400))),
            (4, Act::Raise(500), Err(Refusal::TooSmall)),
            (4, Act::Call, Ok(Done::Called(200))),
            (4, Act::Check, Err(Refusal::HandOver)),
        ],
    },
    // a short all-in does not reopen
    Script {
        chips: &[
            (100, 4900),
            (200, 4800),
            (0, 5000),
            (0, 800),
            (0, 5000),
            (0, 1000),
        ],
        after: 2,
        opening: 200,
        unit: 100,
        counted: 0,
        rows: &[
            (3, Act::Raise(600), Ok(Done::RaisedTo(600))),
            (4, Act::AllIn, Ok(Done::RaisedTo(800))),
            (5, Act::Call, Ok(Done::Called(800))),
            (6, Act::Fold, Ok(Done::Folded)),
            (1, Act::Fold, Ok(Done::Folded)),
            (2, Act::Fold, Ok(Done::Folded)),
            (3, Act::Raise(1200), Err(Refusal::NotReopened)),
            (3, Act::AllIn, Err(Refusal::NotReopened)),
            (3, Act::Call, Ok(Done::Called(200))),
            (5, Act::Check, Err(Refusal::HandOver)),
        ],
    },
    // two short all-ins reopen together
    Script {
        chips: &[
            (100, 4900),
            (200, 4800),
            (0, 5000),
            (0, 800),
            (0, 5000),
            (0, 1000),
        ],
        after: 2,
        opening: 200,
        unit: 100,
        counted: 0,
        rows: &[
            (3, Act::Raise(600), Ok(Done::RaisedTo(600))),
            (4, Act::AllIn, Ok(Done::RaisedTo(800))),
            (5, Act::Call, Ok(Done::Called(800))),
            (6, Act::AllIn, Ok(Done::RaisedTo(1000))),
            (1, Act::Fold, Ok(Done::Folded)),
            (2, Act::Fold, Ok(Done::Folded)),
            (3, Act::Raise(1300), Err(Refusal::TooSmall)),
            (3, Act::Raise(1400), Ok(Done::RaisedTo(1400))),
        ],
    },
    // all that is behind below, at and above the level
    Script {
        chips: &[(0, 150), (0, 300), (0, 500), (200, 800)],
        after: 4,
        opening: 200,
        unit: 50,
        counted: 0,
        rows: &[
            (1, Act::Raise(150), Err(Refusal::TooSmall)),
            (1, Act::AllIn, Ok(Done::Called(150))),
            (2, Act::Raise(300), Ok(Done::RaisedTo(300))),
            (3, Act::Raise(450), Err(Refusal::TooSmall)),
            (3, Act::Raise(500), Ok(Done::RaisedTo(500))),
            (4, Act::AllIn, Ok(Done::RaisedTo(1000))),
            (1, Act::Check, Err(Refusal::HandOver)),
        ],
    },
];

/// Streets before the flop, by their blinds.
static BLINDS: [Script; 5] = [
    // a short big blind leaves the level
    Script {
        chips: &[(0, 1000), (100, 900), (50, 0)],
        after: 3,
        opening: 200,
        unit: 50,
        counted: 150,
        rows: &[
            (1, Act::Check, Err(Refusal::CheckFacing)),
            (1, Act::Call, Ok(Done::Called(200))),
            (2, Act::Check, Err(Refusal::CheckFacing)),
            (2, Act::Call, Ok(Done::Called(100))),
            (3, Act::Check, Err(Refusal::HandOver)),
        ],
    },
    // who has put in most need not complete
    Script {
        chips: &[(0, 0), (100, 900), (50, 0)],
        after: 3,
        opening: 200,
        unit: 50,
        counted: 150,
        rows: &[
            (2, Act::Call, Err(Refusal::HandOver)),
            (3, Act::Check, Err(Refusal::HandOver)),
        ],
    },
    // the big blind has the option
    Script {
        chips: &[(0, 1000), (100, 900), (200, 800)],
        after: 3,
        opening: 200,
        unit: 100,
        counted: 0,
        rows: &[
            (1, Act::Call, Ok(Done::Called(200))),
            (2, Act::Call, Ok(Done::Called(100))),
            (3, Act::Call, Err(Refusal::NothingToCall)),
            (3, Act::Check, Ok(Done::Checked)),
            (1, Act::Check, Err(Refusal::HandOver)),
        ],
    },
    // the big blind may raise
    Script {
        chips: &[(0, 1000), (100, 900), (200, 800)],
        after: 3,
        opening: 200,
        unit: 100,
        counted: 0,
        rows: &[
            (1, Act::Call, Ok(Done::Called(200))),
            (2, Act::Call, Ok(Done::Called(100))),
            (3, Act::Raise(400), Ok(Done::RaisedTo(400))),
            (1, Act::Check, Err(Refusal::CheckFacing)),
            (1, Act::Fold, Ok(Done::Folded)),
            (2, Act::Call, Ok(Done::Called(200))),
            (3, Act::Check, Err(Refusal::HandOver)),
        ],
    },
    // a table of ten
    Script {
        chips: &[
            (100, 900),
            (200, 800),
            (0, 1000),
            (0, 1000),
            (0, 1000),
            (0, 1000),
            (0, 1000),
            (0, 1000),
            (0, 1000),
            (0, 1000),
        ],
        after: 2,
        opening: 200,
        unit: 100,
        counted: 0,
        rows: &[
            (3, Act::Fold, Ok(Done::Folded)),
            (4, Act::Fold, Ok(Done::Folded)),
            (5, Act::Fold, Ok(Done::Folded)),
            (6, Act::Fold, Ok(Done::Folded)),
            (7, Act::Fold, Ok(Done::Folded)),
            (8, Act::Fold, Ok(Done::Folded)),
            (9, Act::Fold, Ok(Done::Folded)),
            (10, Act::Fold, Ok(Done::Folded)),
            (1, Act::Call, Ok(Done::Called(100))),
            (2, Act::Check, Ok(Done::Checked)),
            (2, Act::Fold, Err(Refusal::HandOver)),
        ],
    },
];

/// Later streets.
static LATER: [Script; 5] = [
    // two players
    Script {
        chips: &[(0, 600), (0, 0), (0, 0), (0, 600)],
        after: 1,
        opening: 0,
        unit: 100,
        counted: 800,
        rows: &[
            (4, Act::Call, Err(Refusal::NothingToCall)),
            (4, Act::Raise(400), Err(Refusal::NothingToRaise)),
            (4, Act::Bet(100), Err(Refusal::TooSmall)),
            (4, Act::Bet(0), Err(Refusal::TooSmall)),
            (4, Act::Bet(250), Err(Refusal::NotUnit)),
            (4, Act::Bet(700), Err(Refusal::PastStack)),
            (1, Act::Check, Err(Refusal::NotTurn)),
            (4, Act::Check, Ok(Done::Checked)),
            (1, Act::Raise(400), Err(Refusal::NothingToRaise)),
            (1, Act::Bet(200), Ok(Done::BetTo(200))),
            (4, Act::Check, Err(Refusal::CheckFacing)),
            (4, Act::Bet(400), Err(Refusal::BetFacing)),
            (4, Act::Raise(300), Err(Refusal::TooSmall)),
            (4, Act::Raise(700), Err(Refusal::PastStack)),
            (4, Act::Raise(450), Err(Refusal::NotUnit)),
            (4, Act::Call, Ok(Done::Called(200))),
            (1, Act::Check, Err(Refusal::HandOver)),
        ],
    },
    // a short all-in does not reopen
    Script {
        chips: &[(0, 5000), (0, 5000), (0, 300)],
        after: 3,
        opening: 0,
        unit: 100,
        counted: 600,
        rows: &[
            (1, Act::Bet(200), Ok(Done::BetTo(200))),
            (2, Act::Call, Ok(Done::Called(200))),
            (3, Act::AllIn, Ok(Done::RaisedTo(300))),
            (1, Act::Raise(600), Err(Refusal::NotReopened)),
            (1, Act::Call, Ok(Done::Called(100))),
            (2, Act::Raise(600), Err(Refusal::NotReopened)),
            (2, Act::Call, Ok(Done::Called(100))),
            (1, Act::Check, Err(Refusal::HandOver)),
        ],
    },
    // a small bet is taken of all that is behind
    Script {
        chips: &[(0, 1000), (0, 1000), (0, 100)],
        after: 3,
        opening: 0,
        unit: 100,
        counted: 600,
        rows: &[
            (1, Act::Check, Ok(Done::Checked)),
            (2, Act::Check, Ok(Done::Checked)),
            (3, Act::Bet(100), Ok(Done::BetTo(100))),
            (1, Act::Raise(200), Err(Refusal::TooSmall)),
            (1, Act::Raise(300), Err(Refusal::NotReopened)),
            (1, Act::Call, Ok(Done::Called(100))),
        ],
    },
    // a raise over a small bet is a full one
    Script {
        chips: &[(0, 1000), (0, 1000), (0, 100)],
        after: 2,
        opening: 0,
        unit: 100,
        counted: 600,
        rows: &[
            (3, Act::Bet(100), Ok(Done::BetTo(100))),
            (1, Act::Raise(200), Err(Refusal::TooSmall)),
            (1, Act::Raise(300), Ok(Done::RaisedTo(300))),
        ],
    },
    // going all-in is a bet where nobody has bet
    Script {
        chips: &[(0, 0), (0, 700), (0, 900)],
        after: 1,
        opening: 0,
        unit: 100,
        counted: 900,
        rows: &[
            (1, Act::Check, Err(Refusal::NotTurn)),
            (2, Act::AllIn, Ok(Done::BetTo(700))),
            (3, Act::Raise(800), Err(Refusal::TooSmall)),
            (3, Act::Call, Ok(Done::Called(700))),
            (2, Act::Check, Err(Refusal::HandOver)),
        ],
    },
];

/// Streets where the pot is the bound.
static TO_THE_POT: [Script; 3] = [
    // a raise
    Script {
        chips: &[(0, 5000), (100, 4900), (200, 4800)],
        after: 3,
        opening: 200,
        unit: 100,
        counted: 0,
        rows: &[
            (1, Act::Raise(800), Err(Refusal::PastPot)),
            (1, Act::AllIn, Err(Refusal::PastPot)),
            (1, Act::Raise(700), Ok(Done::RaisedTo(700))),
            (2, Act::Raise(2400), Err(Refusal::PastPot)),
            (2, Act::Raise(2300), Ok(Done::RaisedTo(2300))),
        ],
    },
    // a bet
    Script {
        chips: &[(0, 4800), (0, 4800), (0, 4800)],
        after: 1,
        opening: 0,
        unit: 100,
        counted: 600,
        rows: &[
            (2, Act::Bet(700), Err(Refusal::PastPot)),
            (2, Act::AllIn, Err(Refusal::PastPot)),
            (2, Act::Bet(600), Ok(Done::BetTo(600))),
            (3, Act::Raise(2500), Err(Refusal::PastPot)),
            (3, Act::Raise(2400), Ok(Done::RaisedTo(2400))),
        ],
    },
    // a short blind counts in full
    Script {
        chips: &[(0, 5000), (100, 4900), (50, 0)],
        after: 3,
        opening: 200,
        unit: 50,
        counted: 150,
        rows: &[
            (1, Act::Raise(750), Err(Refusal::PastPot)),
            (1, Act::Raise(700), Ok(Done::RaisedTo(700))),
        ],
    },
];

/// Gives who plays in a seat with these chips.
fn bettor(seat: u8, put: u16, behind: u16) -> Option<Bettor>
    ensures is { result ≡ Some (record { seat = seat; put = put; behind = behind; live = nat_lt 0 (put + behind) }) }
    ensures few { put + behind < 2 ^ 17 }
{
    let put = u64::from(put);
    let behind = u64::from(behind);
    Some(Bettor {
        seat,
        put,
        behind,
        live: put + behind > 0,
    })
}

/// Gives what the player of an index has put in and has behind.
fn chips_at(chips: &[(u16, u16)], index: usize) -> (u16, u16) {
    match chips.get(index) {
        Some(chips) => *chips,
        None => (0, 0),
    }
}

/// Begins a street with a big blind of 200.
fn street(chips: &[(u16, u16)], after: u8, opening: u16, unit: u8, counted: u16) -> Round
    requires { 0 < unit }
{
    let a = chips_at(chips, 0);
    let b = chips_at(chips, 1);
    let c = chips_at(chips, 2);
    let d = chips_at(chips, 3);
    let e = chips_at(chips, 4);
    let f = chips_at(chips, 5);
    let g = chips_at(chips, 6);
    let h = chips_at(chips, 7);
    let i = chips_at(chips, 8);
    let j = chips_at(chips, 9);
    let bettors = [
        bettor(1, a.0, a.1),
        bettor(2, b.0, b.1),
        bettor(3, c.0, c.1),
        bettor(4, d.0, d.1),
        bettor(5, e.0, e.1),
        bettor(6, f.0, f.1),
        bettor(7, g.0, g.1),
        bettor(8, h.0, h.1),
        bettor(9, i.0, i.1),
        bettor(10, j.0, j.1),
    ];
    Round::start(
        &bettors,
        after,
        u64::from(opening),
        200,
        u64::from(unit),
        u64::from(counted),
    )
}

/// Tells whether acts are answered so one after another, and those that are refused change nothing of who is due and
/// what he faces.
fn are_answered(mut round: Round, bounds: &impl Bounds, rows: &[Answered]) -> bool {
    for (seat, act, wanted) in rows {
        let due = round.due();
        let facing = round.facing(*seat);
        if round.apply(bounds, *seat, *act) != *wanted {
            return false;
        }
        if wanted.is_err() && (round.due() != due || round.facing(*seat) != facing) {
            return false;
        }
    }
    true
}

/// Tells whether a street goes as its script says.
fn is_played(script: &Script, bounds: &impl Bounds) -> bool {
    if script.unit == 0 {
        return false;
    }
    let round = street(
        script.chips,
        script.after,
        script.opening,
        script.unit,
        script.counted,
    );
    are_answered(round, bounds, script.rows)
}

fn is_played_without_limit(script: &Script) -> bool {
    is_played(script, &NoLimit)
}

fn is_played_to_the_pot(script: &Script) -> bool {
    is_played(script, &PotLimit)
}

#[test]
fn before_the_flop(rt: HostRuntime) {
    are_right(&rt, &BEFORE_THE_FLOP, is_played_without_limit);
}

#[test]
fn blinds_before_the_flop(rt: HostRuntime) {
    are_right(&rt, &BLINDS, is_played_without_limit);
}

#[test]
fn on_a_later_street(rt: HostRuntime) {
    are_right(&rt, &LATER, is_played_without_limit);
}

#[test]
fn the_pot_is_the_bound(rt: HostRuntime) {
    are_right(&rt, &TO_THE_POT, is_played_to_the_pot);
}

/// Tells whether seats where nobody plays face just what the level is.
fn are_empty(round: &Round, seats: &[u8], faced: Facing) -> bool {
    let nobody = Facing {
        put: 0,
        behind: 0,
        acted: false,
        ..faced
    };
    seats.iter().all(|seat| round.facing(*seat) == nobody && round.bettor(*seat).is_none())
}

/// Tells whether a player who has raised, and seats where nobody plays, face what they should.
fn is_faced() -> bool {
    let mut bettors = [None; 10];
    bettors[1] = bettor(2, 100, 900);
    bettors[2] = bettor(3, 200, 800);
    let mut round = Round::start(&bettors, 1, 200, 200, 100, 0);
    let raised = round.apply(&NoLimit, 2, Act::Raise(500));
    let faced = Facing {
        level: 500,
        full: 300,
        put: 500,
        behind: 500,
        pot: 700,
        acted: true,
    };
    raised == Ok(Done::RaisedTo(500))
        && round.facing(2) == faced
        && are_empty(&round, &[0, 1, 4, 11], faced)
        && round.bettor(2).is_some_and(|bettor| bettor.behind == 500)
}

#[test]
fn what_a_player_faces(rt: HostRuntime) {
    assert!(rt; is_faced());
}
