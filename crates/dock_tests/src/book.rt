//! The dock of the book, with the passes of the floor and of a worker.

ghost use Rattle.std.specs.Prelude.{◌≡◌, ◌≤◌, IfOk, length};
ghost use Rattle.history_lock.specs.Passes.{lock_of, pass_number, seen};
ghost use Rattle.dock_rules.specs.Journals.{Has, tale_of};
ghost use Rattle.book_dock.specs.Docks.{book_id};

use super::passes::{both, sent, share};
use super::script::Step::{
    self, Enter, EnterAll, Floor, Follow, Hand, NoHand, Reenter, Sits, Stopped,
};
use super::script::{ask_one, followed, settled};
use AskAnswer::{No, NoOrder, Ok as Done};
use book_dock::{Ask, AskAnswer, BookDock, BookEnd, BookPass, make_book};
use floor_events::write_report;
use floor_text::Refusal;
use history_lock::OPENER;
use level_plan::Plan;
use plan_files::plan_from_toml;
use player_view::JournalEntry;
use seat_book::Place;
use std::alloc::{AllocError, Global};
use std::process::Abort;
use std::sync::Wait;
use std::test::Fail;
use table_engine::Hand as BegunHand;

/// Makes the plan of so many tables of so many seats: stacks of 1,000, and two levels, of which the first has an ante
/// and the second greater chips.
fn plan_of(alloc: Global, tables: u64, seats: u64) -> Result<Plan, AllocError> {
    let file = format!(in alloc;
        "game = \"holdem\"\ntables = {tables}\nseats = {seats}\nstack = 1000\nbuyin = 100\nlate = 1\n\
        blinds = [[100, 200, 100, 100], [500, 1000, 500]]\nshares = [700, 300]\n"
    )?;
    match plan_from_toml(alloc, file.as_bytes()) {
        Ok(plan) => Ok(plan),
        Err(_) => Err(AllocError),
    }
}

/// Opens the book of such a plan.
fn open(
    alloc: Global,
    tables: u64,
    seats: u64,
) -> Result<(BookDock, BookPass, BookPass), AllocError>
    ensures floor { IfOk result (λ made. lock_of made.1 ≡ book_id made.0) }
    ensures worker { IfOk result (λ made. lock_of made.2 ≡ book_id made.0) }
{
    let plan = plan_of(alloc, tables, seats)?;
    let made = make_book(alloc, plan, [7; 32], 2)?;
    let (dock, passes) = made;
    let (floor, worker) = both(passes);
    Ok((dock, floor, worker))
}

/// Opens the book of such a plan, and follows a script there. The error is the number of the first step that is not
/// answered as is wanted.
fn follow<R: Wait>(
    rt: &R,
    alloc: Global,
    tables: u64,
    seats: u64,
    steps: &[Step],
) -> Result<(), Fail> {
    let (dock, floor, _worker) = open(alloc, tables, seats)?;
    let (_floor, count) = followed(rt, alloc, &dock, floor, steps);
    if count != steps.len() {
        return Err(count)?;
    }
    Ok(())
}

const ENTRIES: [Step; 9] = [
    Enter("ann", 3, 1, No(Refusal::NoTable)),
    Enter("ann", 1, 3, No(Refusal::NoSeat)),
    Enter("ann", 1, 1, Done),
    Enter("ann", 2, 1, No(Refusal::NameKnown)),
    Enter("bob", 1, 1, No(Refusal::SeatTaken)),
    Enter("bob", 1, 2, No(Refusal::NotFewest)),
    Enter("bob", 2, 1, Done),
    Floor(Ask::Level, Done),
    Enter("cat", 1, 2, No(Refusal::LateClosed)),
];

#[test]
fn entries_are_refused(rt: HostRuntime) -> Result<(), Fail> {
    follow(&rt, rt.alloc(), 2, 2, &ENTRIES)
}

const LEVELS: [Step; 11] = [
    Enter("ann", 1, 1, Done),
    Enter("bob", 2, 1, Done),
    Floor(Ask::Race { table: 1 }, No(Refusal::NoRace)),
    Floor(Ask::Race { table: 3 }, No(Refusal::NoTable)),
    Floor(Ask::Level, Done),
    Floor(Ask::Level, No(Refusal::RaceDue)),
    Floor(Ask::Break { table: 1 }, No(Refusal::RaceDue)),
    Floor(Ask::NextOrder, NoOrder),
    Floor(Ask::Race { table: 1 }, Done),
    Floor(Ask::Race { table: 2 }, Done),
    Floor(Ask::Level, No(Refusal::LastLevel)),
];

#[test]
fn levels_and_races_are_refused(rt: HostRuntime) -> Result<(), Fail> {
    follow(&rt, rt.alloc(), 2, 2, &LEVELS)
}

const STOP: [Step; 6] = [
    Floor(Ask::Stop, Done),
    Floor(Ask::Stop, No(Refusal::Stopped)),
    Floor(Ask::NextOrder, No(Refusal::Stopped)),
    Floor(Ask::Break { table: 1 }, No(Refusal::Stopped)),
    NoHand(1, Refusal::Stopped),
    Stopped(true),
];

#[test]
fn nothing_comes_after_the_stop(rt: HostRuntime) -> Result<(), Fail> {
    follow(&rt, rt.alloc(), 2, 2, &STOP)
}

const MOVES: [Step; 15] = [
    Enter("ann", 1, 1, Done),
    Enter("bob", 2, 1, Done),
    Enter("cat", 3, 1, Done),
    Enter("dan", 1, 2, Done),
    Enter("eve", 2, 2, Done),
    Floor(Ask::Balance { from: 1, to: 4 }, No(Refusal::NoTable)),
    Floor(Ask::Balance { from: 3, to: 1 }, No(Refusal::NotFullest)),
    Floor(Ask::Balance { from: 1, to: 2 }, No(Refusal::NotShortest)),
    Floor(Ask::Balance { from: 1, to: 3 }, No(Refusal::EvenEnough)),
    Floor(Ask::Break { table: 4 }, No(Refusal::NoTable)),
    Floor(Ask::Break { table: 2 }, No(Refusal::NotNextToBreak)),
    Floor(Ask::Break { table: 3 }, No(Refusal::NoRoom)),
    Floor(Ask::NextOrder, NoOrder),
    Sits("dan", Some(Place { table: 1, seat: 2 })),
    Sits("fay", None),
];

#[test]
fn moves_are_refused(rt: HostRuntime) -> Result<(), Fail> {
    follow(&rt, rt.alloc(), 3, 2, &MOVES)
}

const FOLLOWED: [Step; 3] = [
    Follow(false, "# go\n"),
    Floor(Ask::Stop, Done),
    Follow(true, "# stop\n"),
];

#[test]
fn who_follows_learns_of_the_stop(rt: HostRuntime) -> Result<(), Fail> {
    follow(&rt, rt.alloc(), 1, 2, &FOLLOWED)
}

const ROUNDS: [Step; 16] = [
    Enter("ann", 1, 1, Done),
    Enter("bob", 2, 1, Done),
    Enter("cat", 1, 2, Done),
    Enter("dan", 2, 2, Done),
    Floor(Ask::Round, No(Refusal::SwitchWrong)),
    Floor(Ask::Hands(false), No(Refusal::SwitchWrong)),
    Floor(Ask::Hands(true), Done),
    Floor(Ask::Hands(true), No(Refusal::SwitchWrong)),
    Hand(1, 1),
    NoHand(1, Refusal::RoundDone),
    Floor(Ask::Round, No(Refusal::RoundOpen)),
    Floor(Ask::Break { table: 2 }, No(Refusal::RoundOpen)),
    Hand(2, 1),
    Floor(Ask::Round, Done),
    Floor(Ask::Hands(false), Done),
    Floor(Ask::Break { table: 2 }, Done),
];

#[test]
fn rounds_are_refused(rt: HostRuntime) -> Result<(), Fail> {
    follow(&rt, rt.alloc(), 2, 4, &ROUNDS)
}

const HALTED: [Step; 12] = [
    Enter("ann", 1, 1, Done),
    Enter("bob", 2, 1, Done),
    Enter("cat", 1, 2, Done),
    Enter("dan", 2, 2, Done),
    Enter("eve", 1, 3, Done),
    Enter("fay", 2, 3, Done),
    Enter("gus", 1, 4, Done),
    Enter("hal", 2, 4, Done),
    Hand(2, 1),
    NoHand(2, Refusal::Halted),
    Floor(Ask::NextOrder, Done),
    Floor(Ask::NextOrder, NoOrder),
];

#[test]
fn a_short_table_is_halted(rt: HostRuntime) -> Result<(), Fail> {
    follow(&rt, rt.alloc(), 2, 4, &HALTED)
}

const WON: [Step; 7] = [
    NoHand(1, Refusal::NoTable),
    Enter("ann", 1, 1, Done),
    NoHand(1, Refusal::Lone),
    Enter("bob", 1, 2, Done),
    Hand(1, 0),
    Floor(Ask::Level, No(Refusal::Over)),
    Floor(Ask::NextOrder, NoOrder),
];

#[test]
fn the_last_player_has_won(rt: HostRuntime) -> Result<(), Fail> {
    follow(&rt, rt.alloc(), 1, 2, &WON)
}

const FULL: [Step; 5] = [
    EnterAll(640),
    Hand(1, 0),
    Sits("p0", None),
    Enter("late", 1, 1, No(Refusal::ListFull)),
    Reenter("p0", 1, 1, No(Refusal::ListFull)),
];

#[test]
fn no_more_than_640_enter(rt: HostRuntime) -> Result<(), Fail> {
    follow(&rt, rt.alloc(), 64, 10, &FULL)
}

const FILLED: [Step; 8] = [
    EnterAll(639),
    Hand(1, 0),
    Sits("p0", None),
    Sits("p64", None),
    Reenter("p0", 1, 1, Done),
    Sits("p0", Some(Place { table: 1, seat: 1 })),
    Enter("late", 1, 2, No(Refusal::ListFull)),
    Reenter("p64", 1, 2, No(Refusal::ListFull)),
];

#[test]
fn re_entries_count_as_entries(rt: HostRuntime) -> Result<(), Fail> {
    follow(&rt, rt.alloc(), 64, 10, &FILLED)
}

/// At the first table ann and cat put in all, and cat, who posted the ante, is out.
const AGAIN: [Step; 20] = [
    Reenter("cat", 1, 2, No(Refusal::NameUnknown)),
    Enter("ann", 1, 1, Done),
    Enter("bob", 2, 1, Done),
    Enter("cat", 1, 2, Done),
    Enter("dan", 2, 2, Done),
    Reenter("cat", 1, 3, No(Refusal::StillIn)),
    Hand(1, 0),
    Sits("cat", None),
    Enter("cat", 1, 2, No(Refusal::NameKnown)),
    Reenter("cat", 3, 2, No(Refusal::NoTable)),
    Reenter("cat", 1, 5, No(Refusal::NoSeat)),
    Reenter("cat", 1, 1, No(Refusal::SeatTaken)),
    Reenter("cat", 2, 3, No(Refusal::NotFewest)),
    Reenter("cat", 1, 2, Done),
    Follow(false, "# reenter cat 1 2\n"),
    Sits("cat", Some(Place { table: 1, seat: 2 })),
    Reenter("cat", 1, 2, No(Refusal::SeatTaken)),
    Floor(Ask::Level, Done),
    Reenter("cat", 1, 3, No(Refusal::LateClosed)),
    Floor(Ask::Stop, Done),
];

#[test]
fn who_is_out_enters_again(rt: HostRuntime) -> Result<(), Fail> {
    follow(&rt, rt.alloc(), 2, 4, &AGAIN)
}

#[test]
fn news_are_counted(rt: HostRuntime) -> Result<(), Fail> {
    let (dock, floor, _worker) = open(rt.alloc(), 1, 2)?;
    share(&dock);
    let mut floor = dock.await_news(&rt, sent(floor));
    let before = dock.news(&mut floor);
    let entry = [Enter("ann", 1, 1, Done)];
    let (mut floor, count) = followed(&rt, rt.alloc(), &dock, floor, &entry);
    let after = dock.news(&mut floor);
    dock.wake();
    assert!(rt; (before, count, after) == (10, 1, 11));
    Ok(())
}

/// Reads the lines of the entries from a number on.
fn read<R: Wait>(
    rt: &R,
    dock: &BookDock,
    pass: BookPass,
    from: u64,
    lines: &mut Vec<u8>,
) -> Result<(BookPass, u64), AllocError>
    requires lock { lock_of pass ≡ book_id dock.now }
    requires from { from ≤ length (seen pass) }
    ensures lock { IfOk result (λ read. lock_of read.0 ≡ book_id dock.now) }
    ensures count { IfOk result (λ read. read.1 ≤ length (seen read.0)) }
{
    let (pass, count) = dock.read_lines(rt, pass, from, lines);
    match count {
        Ok(count) => Ok((pass, count)),
        Err(fault) => Err(fault),
    }
}

const THREE: [Step; 3] = [
    Enter("ann", 1, 1, Done),
    Enter("bob", 2, 2, Done),
    Enter("cat", 1, 3, Done),
];

const MOVED: [Step; 2] = [
    Floor(Ask::NextOrder, NoOrder),
    Sits("bob", Some(Place { table: 1, seat: 2 })),
];

#[test]
fn the_order_that_is_owed_is_drawn(rt: HostRuntime) -> Result<(), Fail> {
    let (dock, floor, _worker) = open(rt.alloc(), 2, 3)?;
    let (floor, three) = followed(&rt, rt.alloc(), &dock, floor, &THREE);
    let mut lines = Vec::new(rt.alloc());
    let (floor, before) = read(&rt, &dock, floor, 0, &mut lines)?;
    lines.clear();
    let (floor, is_drawn) = ask_one(&rt, &dock, floor, &Ask::NextOrder, Done);
    let (floor, after) = read(&rt, &dock, floor, before, &mut lines)?;
    let moved = followed(&rt, rt.alloc(), &dock, floor, &MOVED).1;
    let is_told = lines.as_slice() == b"# break 2 1.2 bob\n".as_slice();
    assert!(rt; (three, before, after, moved) == (3, 13, 14, 2) && is_drawn && is_told);
    Ok(())
}

/// Opens the lock with the two passes that it was made with. One alone does not open it.
fn closed<R: Abort>(
    rt: &R,
    alloc: Global,
    dock: BookDock,
    floor: BookPass,
    worker: BookPass,
) -> Result<BookEnd, AllocError>
    requires { (lock_of floor ≡ book_id dock) × (lock_of worker ≡ book_id dock) }
{
    let mut some = Vec::new(alloc);
    some.push(worker)?;
    let Err((dock, mut some)) = dock.close(some) else {
        panic!(rt; "one pass is not all")
    };
    some.push(floor)?;
    let Ok(end) = dock.close(some) else {
        panic!(rt; "both passes are all")
    };
    Ok(end)
}

/// Begins the hand of table 1.
fn begun<R: Wait + Abort>(rt: &R, dock: &BookDock, worker: BookPass) -> (BookPass, BegunHand)
    requires { lock_of worker ≡ book_id dock.now }
    ensures lock { lock_of result.0 ≡ book_id dock.now }
    ensures has { Has (pass_number result.0) result.1.start (tale_of (seen result.0)) }
{
    let (worker, hand) = dock.begin(rt, worker, 1);
    let Ok(hand) = hand else {
        panic!(rt; "a hand begins")
    };
    (worker, hand)
}

const TWO: [Step; 2] = [Enter("ann", 1, 1, Done), Enter("bob", 1, 2, Done)];

const PLAYING: [Step; 2] = [
    NoHand(1, Refusal::Playing),
    Floor(Ask::Break { table: 1 }, No(Refusal::Playing)),
];

/// Begins two hands, of which the first is settled, and the second handed back after the stop, and opens the lock.
fn end_of_two_hands<R: Wait + Abort>(rt: &R, alloc: Global) -> Result<BookEnd, AllocError> {
    let (dock, floor, worker) = open(alloc, 1, 2)?;
    let (floor, two) = followed(rt, alloc, &dock, floor, &TWO);
    let (worker, hand) = begun(rt, &dock, worker);
    let (floor, playing) = followed(rt, alloc, &dock, floor, &PLAYING);
    let (worker, first) = settled(rt, &dock, worker, hand, 1);
    let (worker, hand) = begun(rt, &dock, worker);
    let (floor, is_stopped) = ask_one(rt, &dock, floor, &Ask::Stop, Done);
    let (worker, second) = settled(rt, &dock, worker, hand, 1);
    assert!(rt; (two, playing) == (2, 2) && is_stopped);
    assert!(rt; (first, second) == (Some(true), Some(false)));
    closed(rt, alloc, dock, floor, worker)
}

/// Tells whether this is the settle of a hand that ann folds: its caller, its one act, and the stacks that it tells.
fn is_settle(settle: &JournalEntry) -> bool {
    match settle.stacks.items() {
        [ann, bob] => {
            let stacks = (ann.stack, bob.stack) == (900, 1100);
            stacks && settle.caller == 1 && settle.acts.items().len() == 1
        }
        _ => false,
    }
}

/// What is reported where ann folded a hand.
const REPORT: &str = "* report
* level 1
* sold 2000
* removed 0
* added 0
* rest 2000
* play 0
* seat 1 1 ann 900
* seat 1 2 bob 1100
* end
";

/// Tells whether the journal of the two hands begins with the opener's, and has the settle of the first.
fn is_journal(journal: &[JournalEntry]) -> bool {
    journal.len() == 16 && journal[0].caller == OPENER && is_settle(&journal[13])
}

fn is_reported(alloc: Global, end: &BookEnd) -> Result<bool, AllocError> {
    let mut text = Vec::new(alloc);
    write_report(&end.report()?, &mut text)?;
    Ok(text.as_slice() == REPORT.as_bytes())
}

/// Tells whether the end of the two hands is what it is to be.
fn is_end(alloc: Global, end: &BookEnd) -> Result<bool, AllocError> {
    let is_reported = is_reported(alloc, end)?;
    Ok(is_reported && is_journal(end.journal()))
}

#[test]
fn a_hand_is_begun_and_settled(rt: HostRuntime) -> Result<(), Fail> {
    let end = end_of_two_hands(&rt, rt.alloc())?;
    let is_wanted = is_end(rt.alloc(), &end);
    drop(end);
    assert!(rt; is_wanted?);
    Ok(())
}
