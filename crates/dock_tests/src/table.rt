//! The dock of a table, with its worker's pass and that of a desk.

ghost use Rattle.std.specs.Prelude.{◌≡◌, [], true, IfOk};
ghost use Rattle.history_lock.specs.Passes.{lock_of, own, pass_number};
ghost use Rattle.dock_rules.specs.Tables.{lies};
ghost use Rattle.table_dock.specs.Docks.{dock_id, table_of};

use super::desk::{Asked, Row, answered};
use super::hand::fresh_hand;
use super::passes::{both, sent, share};
use betting_round::{Act, Done};
use floor_text::Refusal;
use std::alloc::{AllocError, Global};
use std::process::Abort;
use std::sync::Wait;
use std::test::Fail;
use table_dock::{TableDock, TablePass, make_dock};

/// Makes the dock of table 1, with the worker's pass and that of a desk.
fn open_dock(alloc: Global) -> Result<(TableDock, TablePass, TablePass), AllocError>
    ensures table { IfOk result (λ made. table_of made.0 ≡ 1) }
    ensures worker { IfOk result
        (λ made. (lock_of made.1 ≡ dock_id made.0) × (own made.1 ≡ []) × (pass_number made.1 ≡ 0)) }
    ensures desk { IfOk result (λ made. lock_of made.2 ≡ dock_id made.0) }
{
    let (dock, passes) = make_dock(alloc, 1, 1)?;
    let (worker, desk) = both(passes);
    Ok((dock, worker, desk))
}

/// Opens the worked hand, which the worker's pass has not done before.
fn open_hand<R: Wait>(
    rt: &R,
    alloc: Global,
    dock: &TableDock,
    worker: TablePass,
) -> Result<TablePass, AllocError>
    requires table { table_of dock.now ≡ 1 }
    requires pass { (lock_of worker ≡ dock_id dock.now) × (pass_number worker ≡ 0) × (own worker ≡ []) }
    ensures pass { IfOk result (λ pass. (lock_of pass ≡ dock_id dock.now) × (pass_number pass ≡ 0)) }
    ensures lies { IfOk result (λ pass. lies (own pass) ≡ true) }
{
    let hand = fresh_hand(alloc)?;
    let (worker, back) = dock.open_hand(rt, worker, hand);
    let None = back else {
        return Err(AllocError);
    };
    Ok(worker)
}

/// What a desk asks before a hand lies there.
const BEFORE: &[Row] = &[
    (Asked::Act("ann", Act::Fold), Err(Refusal::NotPlaying)),
    (Asked::Time, Err(Refusal::NotPlaying)),
];

/// Makes the dock of table 1, asks before a hand lies there, and opens the worked hand.
pub fn lying<R: Wait + Abort>(
    rt: &R,
    alloc: Global,
) -> Result<(TableDock, TablePass, TablePass), AllocError>
    ensures table { IfOk result (λ made. table_of made.0 ≡ 1) }
    ensures worker { IfOk result
        (λ made. (lock_of made.1 ≡ dock_id made.0) × (pass_number made.1 ≡ 0) × (lies (own made.1) ≡ true)) }
    ensures desk { IfOk result (λ made. lock_of made.2 ≡ dock_id made.0) }
{
    let (dock, worker, desk) = open_dock(alloc)?;
    let (desk, count) = answered(rt, &dock, desk, BEFORE);
    assert!(rt; count == BEFORE.len());
    share(&dock);
    let worker = open_hand(rt, alloc, &dock, sent(worker))?;
    Ok((dock, worker, desk))
}

/// What a desk asks of the hand that is out of turn, and then the fold that ends it.
const OUT_OF_TURN: &[Row] = &[
    (Asked::Act("cat", Act::Fold), Err(Refusal::NotDealt)),
    (Asked::Act("bob", Act::Fold), Err(Refusal::NotTurn)),
];

/// What a desk asks as the hand ends, and of the hand that is over.
const ENDS: &[Row] = &[
    (Asked::Act("ann", Act::Fold), Ok(Done::Folded)),
    (Asked::Time, Err(Refusal::HandOver)),
];

#[test]
fn a_hand_is_brought_played_and_taken_away(rt: HostRuntime) -> Result<(), Fail> {
    let (dock, worker, desk) = lying(&rt, rt.alloc())?;
    let (desk, refused) = answered(&rt, &dock, desk, OUT_OF_TURN);
    let (worker, early) = dock.close_hand(&rt, worker);
    let None = early else {
        panic!(rt; "the hand is not over")
    };
    let (_desk, ended) = answered(&rt, &dock, desk, ENDS);
    let (worker, hand) = dock.close_hand(&rt, worker);
    let (_worker, nothing) = dock.void_hand(&rt, worker);
    assert!(rt; (refused, ended) == (2, 2) && hand.is_some() && nothing.is_none());
    Ok(())
}

#[test]
fn time_is_called_and_the_hand_is_void(rt: HostRuntime) -> Result<(), Fail> {
    let (dock, worker, desk) = lying(&rt, rt.alloc())?;
    let (_desk, count) = answered(&rt, &dock, desk, &[(Asked::Time, Ok(Done::Folded))]);
    let (_worker, hand) = dock.void_hand(&rt, worker);
    assert!(rt; count == 1 && hand.is_some());
    Ok(())
}

/// What is asked of the hand in turn, with each refusal that can meet it.
const REFUSED: &[Row] = &[
    (Asked::Act("ann", Act::Check), Err(Refusal::CheckFacing)),
    (Asked::Act("ann", Act::Bet(400)), Err(Refusal::BetFacing)),
    (Asked::Act("ann", Act::Raise(300)), Err(Refusal::TooSmall)),
    (Asked::Act("ann", Act::Raise(3100)), Err(Refusal::PastStack)),
    (Asked::Act("ann", Act::Raise(700)), Err(Refusal::PastPot)),
    (Asked::Act("ann", Act::Raise(450)), Err(Refusal::NotUnit)),
    (Asked::Act("ann", Act::Call), Ok(Done::Called(100))),
    (Asked::Act("bob", Act::Call), Err(Refusal::NothingToCall)),
    (Asked::Act("bob", Act::Check), Ok(Done::Checked)),
    (
        Asked::Act("bob", Act::Raise(400)),
        Err(Refusal::NothingToRaise),
    ),
    (Asked::Act("bob", Act::Bet(600)), Err(Refusal::PastPot)),
    (Asked::Act("bob", Act::Bet(200)), Ok(Done::BetTo(200))),
    (Asked::Act("ann", Act::Raise(600)), Ok(Done::RaisedTo(600))),
    (Asked::Act("bob", Act::AllIn), Ok(Done::RaisedTo(700))),
    (
        Asked::Act("ann", Act::Raise(1100)),
        Err(Refusal::NotReopened),
    ),
    (Asked::Act("ann", Act::Call), Ok(Done::Called(100))),
    (Asked::Act("ann", Act::Fold), Err(Refusal::HandOver)),
];

#[test]
fn each_refusal_of_a_hand_is_given_at_its_dock(rt: HostRuntime) -> Result<(), Fail> {
    let (dock, _worker, desk) = lying(&rt, rt.alloc())?;
    let (_desk, count) = answered(&rt, &dock, desk, REFUSED);
    assert!(rt; count == REFUSED.len(), "at {count}");
    Ok(())
}

#[test]
fn opens_with_all_passes_alone(rt: HostRuntime) -> Result<(), Fail> {
    let (dock, worker, desk) = lying(&rt, rt.alloc())?;
    let mut passes = Vec::new(rt.alloc());
    passes.push(worker)?;
    let Err((dock, mut passes)) = dock.close(passes) else {
        panic!(rt; "one pass is not all")
    };
    passes.push(desk)?;
    let Ok(end) = dock.close(passes) else {
        panic!(rt; "both passes are all")
    };
    assert!(rt; end.entries.items().len() == 1 && end.hand.is_some());
    Ok(())
}
