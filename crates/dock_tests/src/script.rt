//! Scripts of what is asked at the dock of the book, and what is answered.

ghost use Rattle.std.specs.Prelude.{◌≡◌, ◌≤◌, IfOk, IfSome, length};
ghost use Rattle.table_engine.specs.Plays.{IsCompletePlay};
ghost use Rattle.history_lock.specs.Passes.{lock_of, pass_number, seen};
ghost use Rattle.dock_rules.specs.Journals.{Has, tale_of};
ghost use Rattle.book_dock.specs.Docks.{book_id};

use betting_round::Act;
use book_dock::{Ask, AskAnswer, BookDock, BookPass, SettleEnd};
use floor_book::BookFault;
use floor_text::{Name, Refusal};
use seat_book::Place;
use std::alloc::{AllocError, Global};
use std::sync::Wait;
use table_engine::{Hand, HandRecord};

/// What is asked, and what it is to be answered.
#[derive(Clone, Copy)]
pub enum Step {
    /// A player asks to enter, at a table and in a seat.
    Enter(&'static str, u64, u64, AskAnswer),
    /// A player asks to enter again, at a table and in a seat.
    Reenter(&'static str, u64, u64, AskAnswer),
    /// So many players enter a hall of 64 tables, which 640 fill.
    EnterAll(u64),
    /// The floor asks.
    Floor(Ask, AskAnswer),
    /// The hand of a table is begun, played and settled: the first players fold, so many, and the others put in all
    /// that they have.
    Hand(u8, u32),
    /// The hand of a table is refused.
    NoHand(u8, Refusal),
    /// It is asked where a player sits.
    Sits(&'static str, Option<Place>),
    /// It is asked whether the tournament was stopped.
    Stopped(bool),
    /// The journal is followed from its first entry on, which tells whether the tournament was stopped, and ends with
    /// this line.
    Follow(bool, &'static str),
}

/// Asks for one thing, and tells whether the answer is the one that is wanted.
pub fn ask_one<R: Wait>(
    rt: &R,
    dock: &BookDock,
    pass: BookPass,
    asked: &Ask,
    wanted: AskAnswer,
) -> (BookPass, bool)
    requires { lock_of pass ≡ book_id dock.now }
    ensures lock { lock_of result.0 ≡ book_id dock.now }
    ensures more { length (seen pass) ≤ length (seen result.0) }
{
    let (pass, found) = dock.order(rt, pass, asked);
    (pass, found == wanted)
}

/// Lets a player enter.
fn enter<R: Wait>(
    rt: &R,
    dock: &BookDock,
    pass: BookPass,
    who: &str,
    place: (u64, u64),
    wanted: AskAnswer,
) -> (BookPass, bool)
    requires { lock_of pass ≡ book_id dock.now }
    ensures { lock_of result.0 ≡ book_id dock.now }
{
    let (table, seat) = place;
    match Name::read(who.as_bytes()) {
        Some(name) => ask_one(rt, dock, pass, &Ask::Enter { name, table, seat }, wanted),
        None => (pass, false),
    }
}

/// Lets a player enter again.
fn reenter<R: Wait>(
    rt: &R,
    dock: &BookDock,
    pass: BookPass,
    who: &str,
    place: (u64, u64),
    wanted: AskAnswer,
) -> (BookPass, bool)
    requires { lock_of pass ≡ book_id dock.now }
    ensures { lock_of result.0 ≡ book_id dock.now }
{
    let (table, seat) = place;
    match Name::read(who.as_bytes()) {
        Some(name) => ask_one(rt, dock, pass, &Ask::Reenter { name, table, seat }, wanted),
        None => (pass, false),
    }
}

/// Lets so many players enter: one in the first seat of each table, then one in the second seat of each, and so on.
fn enter_all<R: Wait>(
    rt: &R,
    alloc: Global,
    dock: &BookDock,
    pass: BookPass,
    count: u64,
) -> (BookPass, bool)
    requires { lock_of pass ≡ book_id dock.now }
    ensures { lock_of result.0 ≡ book_id dock.now }
{
    let mut pass = pass;
    for number in 0..count {
        let Ok(who) = format!(in alloc; "p{number}") else {
            return (pass, false);
        };
        let place = (number % 64 + 1, number / 64 + 1);
        let (next, is_in) = enter(rt, dock, pass, who.as_str(), place, AskAnswer::Ok);
        pass = next;
        if !is_in {
            return (pass, false);
        }
    }
    (pass, true)
}

/// Plays a hand to its end: the first players fold, so many, and the others put in all that they have. `None` if it
/// did not end so.
fn played(hand: Hand, folds: u32) -> Option<HandRecord>
    ensures start { IfSome result (λ done. done.start ≡ hand.start) }
    ensures play { IfSome result IsCompletePlay }
{
    let mut hand = hand;
    for number in 0..100u32 {
        let Some(due) = hand.due() else { break };
        let act = if number < folds {
            Act::Fold
        } else {
            Act::AllIn
        };
        let Ok(_) = hand.act(due, act) else { break };
    }
    if !hand.is_over() {
        return None;
    }
    Some(hand.finish())
}

/// Plays a hand to its end and brings it back, and tells whether it is settled. `None` if it did not end.
pub fn settled<R: Wait>(
    rt: &R,
    dock: &BookDock,
    pass: BookPass,
    hand: Hand,
    folds: u32,
) -> (BookPass, Option<bool>)
    requires lock { lock_of pass ≡ book_id dock.now }
    requires has { Has (pass_number pass) hand.start (tale_of (seen pass)) }
    ensures { lock_of result.0 ≡ book_id dock.now }
{
    let Some(done) = played(hand, folds) else {
        return (pass, None);
    };
    let (pass, end) = dock.settle(rt, pass, done);
    (pass, Some(matches!(end, SettleEnd::Settled)))
}

/// Begins the hand of a table, plays it and settles it.
fn play<R: Wait>(rt: &R, dock: &BookDock, pass: BookPass, table: u8, folds: u32) -> (BookPass, bool)
    requires { lock_of pass ≡ book_id dock.now }
    ensures { lock_of result.0 ≡ book_id dock.now }
{
    let (pass, begun) = dock.begin(rt, pass, table);
    let Ok(hand) = begun else {
        return (pass, false);
    };
    let (pass, is_settled) = settled(rt, dock, pass, hand, folds);
    (pass, is_settled == Some(true))
}

/// Tries to begin the hand of a table, and tells whether it is refused so.
fn refuse_hand<R: Wait>(
    rt: &R,
    dock: &BookDock,
    pass: BookPass,
    table: u8,
    wanted: Refusal,
) -> (BookPass, bool)
    requires { lock_of pass ≡ book_id dock.now }
    ensures { lock_of result.0 ≡ book_id dock.now }
{
    let (pass, begun) = dock.begin(rt, pass, table);
    match begun {
        Err(BookFault::No(found)) => (pass, found == wanted),
        _ => (pass, false),
    }
}

/// Asks where a player sits.
fn find<R: Wait>(
    rt: &R,
    dock: &BookDock,
    pass: BookPass,
    who: &str,
    wanted: Option<Place>,
) -> (BookPass, bool)
    requires { lock_of pass ≡ book_id dock.now }
    ensures { lock_of result.0 ≡ book_id dock.now }
{
    let Some(name) = Name::read(who.as_bytes()) else {
        return (pass, false);
    };
    let (pass, place) = dock.where_is(rt, pass, name);
    (pass, place == wanted)
}

/// Follows the journal from its first entry on.
fn follow<R: Wait>(
    rt: &R,
    alloc: Global,
    dock: &BookDock,
    pass: BookPass,
    is_stopped: bool,
    last: &str,
) -> (BookPass, bool)
    requires { lock_of pass ≡ book_id dock.now }
    ensures { lock_of result.0 ≡ book_id dock.now }
{
    let mut lines = Vec::new(alloc);
    let (pass, found) = dock.follow(rt, pass, 0, u64::MAX, &mut lines);
    let ends = lines.as_slice().ends_with(last.as_bytes());
    (
        pass,
        found.stopped == is_stopped && found.told.is_ok() && ends,
    )
}

/// Takes one step, and tells whether it is answered as is wanted.
fn take_step<R: Wait>(
    rt: &R,
    alloc: Global,
    dock: &BookDock,
    pass: BookPass,
    step: &Step,
) -> (BookPass, bool)
    requires { lock_of pass ≡ book_id dock.now }
    ensures { lock_of result.0 ≡ book_id dock.now }
{
    match *step {
        Step::Enter(who, table, seat, wanted) => enter(rt, dock, pass, who, (table, seat), wanted),
        Step::Reenter(who, table, seat, wanted) => {
            reenter(rt, dock, pass, who, (table, seat), wanted)
        }
        Step::EnterAll(count) => enter_all(rt, alloc, dock, pass, count),
        Step::Floor(asked, wanted) => ask_one(rt, dock, pass, &asked, wanted),
        Step::Hand(table, folds) => play(rt, dock, pass, table, folds),
        Step::NoHand(table, wanted) => refuse_hand(rt, dock, pass, table, wanted),
        Step::Sits(who, wanted) => find(rt, dock, pass, who, wanted),
        Step::Stopped(wanted) => {
            let (pass, found) = dock.stopped(rt, pass);
            (pass, found == wanted)
        }
        Step::Follow(is_stopped, last) => follow(rt, alloc, dock, pass, is_stopped, last),
    }
}

/// Takes one step after another, and tells how many in a row are answered as is wanted.
pub fn followed<R: Wait>(
    rt: &R,
    alloc: Global,
    dock: &BookDock,
    pass: BookPass,
    steps: &[Step],
) -> (BookPass, usize)
    requires { lock_of pass ≡ book_id dock.now }
    ensures { lock_of result.0 ≡ book_id dock.now }
{
    let mut pass = pass;
    for index in 0..steps.len() {
        let (next, is_wanted) = take_step(rt, alloc, dock, pass, &steps[index]);
        pass = next;
        if !is_wanted {
            return (pass, index);
        }
    }
    (pass, steps.len())
}
