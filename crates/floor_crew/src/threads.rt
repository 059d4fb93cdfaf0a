//! Everybody works in a thread of his own.
//!
//! One job is done by a thread beside all the others, by a join that calls itself: first the workers of the tables, and
//! behind the last of them the desks from door 1 on. Where no thread can be started, the job is done by whoever would
//! have started it, behind all that come later, so the tables and the first doors have theirs. The room for what comes
//! back is there before, so nothing is lost, and it comes back in the order of the jobs.

ghost use Rattle.std.specs.Prelude.{◌≡◌, All, length, vec_capacity, vec_len};
ghost use Rattle.std.specs.List.{AllZip};
ghost use Rattle.std.specs.Thread.{IsSend, IsSync};
ghost use Rattle.session_desk.specs.Desks.{AreInOrder};
ghost use Rattle.floor_crew.specs.Rows.{IsEmptyFor};
ghost use Rattle.floor_crew.specs.Working.{HasAttended, HasDone, IsIdle, IsIdleDesk};

use crate::floor::Floor;
use crate::jobs::{Attended, Work};
use links::Door;
use plan_files::Words;
use session_desk::{Desk, work_desk};
use std::alloc::Global;
use std::sync::Wait;
use std::thread::{Threads, join};
use table_dock::Gate;
use table_worker::work_table;

/// Lets a table's worker work until the tournament is stopped.
fn work_at_table<R: Wait>(rt: &R, floor: &Floor, work: Work) -> Work
    requires order { AreInOrder floor.now.docks.items }
    requires idle { IsIdle floor.now work }
    ensures { HasDone work result }
{
    let Work { table, book, dock } = work;
    let here = &floor.docks[usize::from(table) - 1];
    let (book, dock) = work_table(rt, &floor.book, here, book, dock, table);
    Work { table, book, dock }
}

/// Lets a desk serve the clients of its door until the tournament is stopped or the door fails.
fn attend<R: Wait, D: Door, G: Gate>(
    rt: &R,
    alloc: Global,
    floor: &Floor,
    words: &Words,
    gate: &G,
    door: D,
    desk: Desk,
) -> Attended<D>
    requires order { AreInOrder floor.now.docks.items }
    requires desk { IsIdleDesk floor.now desk }
    ensures { HasAttended floor.now D.told D.faults D.L.told D.L.faults words.now door result }
{
    let mut door = door;
    let (desk, failed) = work_desk(
        rt,
        alloc,
        &mut door,
        words,
        &floor.book,
        &floor.docks,
        desk,
        gate,
    );
    Attended { desk, door, failed }
}

/// Lets a desk serve at each door, each in a thread of its own, that of the last door first. There are as many desks as
/// doors, and what comes back from each stands in the order of the doors.
#[cycle(desks)]
fn run_desks<R: Threads + Wait + Sync, D: Door + Send + Drop, G: Gate + Sync>(
    rt: &R,
    alloc: Global,
    floor: &Floor,
    words: &Words,
    gate: &G,
    desks: Vec<Desk>,
    doors: Vec<D>,
    attended: Vec<Attended<D>>,
) -> Vec<Attended<D>>
    requires order { AreInOrder floor.now.docks.items }
    requires desks { All (IsIdleDesk floor.now) desks.items }
    requires doors { length doors.items ≡ length desks.items }
    requires room { IsEmptyFor (vec_len doors) attended }
    ensures doors { AllZip (HasAttended floor.now D.told D.faults D.L.told D.L.faults words.now)
        doors.items result.items }
    ensures room { vec_capacity result ≡ vec_capacity attended }
{
    let mut desks = desks;
    let mut doors = doors;
    let (Some(desk), Some(door)) = (desks.pop(), doors.pop()) else {
        return attended;
    };
    let here = move || -> Attended<D>
        requires { IsSync R.row × (IsSync G.row × (IsSend D.row × (AreInOrder floor.now.docks.items
            × IsIdleDesk floor.now desk))) }
        ensures { HasAttended floor.entry.now D.told D.faults D.L.told D.L.faults words.entry.now door result }
    { attend(rt, alloc, floor, words, gate, door, desk) };
    let others = move || -> Vec<Attended<D>>
        requires { IsSync R.row × (IsSync G.row × (IsSend D.row × (AreInOrder floor.now.docks.items
            × (All (IsIdleDesk floor.now) desks.items
            × ((length doors.items ≡ length desks.items) × IsEmptyFor (vec_len doors) attended))))) }
        ensures { AllZip (HasAttended floor.entry.now D.told D.faults D.L.told D.L.faults words.entry.now)
            doors.items result.items × (vec_capacity result ≡ vec_capacity attended) }
    { run_desks(rt, alloc, floor, words, gate, desks, doors, attended) };
    let (one, mut all) = join(rt, here, others);
    all.push_reserved(one);
    all
}

/// What all give back: the workers, and the desks with their doors.
#[derive(Drop)]
pub(crate) struct Back<D> {
    pub(crate) works: Vec<Work>,
    pub(crate) attended: Vec<Attended<D>>,
}

/// Lets all workers work, each in a thread of his own, and a desk serve at each door beside.
#[cycle(workers)]
fn run_workers<R: Threads + Wait + Sync, D: Door + Send + Drop, G: Gate + Sync>(
    rt: &R,
    alloc: Global,
    floor: &Floor,
    words: &Words,
    gate: &G,
    works: Vec<Work>,
    desks: Vec<Desk>,
    doors: Vec<D>,
    room: Back<D>,
) -> Back<D>
    requires order { AreInOrder floor.now.docks.items }
    requires idle { All (IsIdle floor.now) works.items }
    requires desks { All (IsIdleDesk floor.now) desks.items }
    requires doors { length doors.items ≡ length desks.items }
    requires works_room { IsEmptyFor (vec_len works) room.works }
    requires doors_room { IsEmptyFor (vec_len doors) room.attended }
    ensures works { AllZip HasDone works.items result.works.items }
    ensures doors { AllZip (HasAttended floor.now D.told D.faults D.L.told D.L.faults words.now)
        doors.items result.attended.items }
    ensures room { (vec_capacity result.works ≡ vec_capacity room.works)
        × (vec_capacity result.attended ≡ vec_capacity room.attended) }
{
    let mut works = works;
    let Some(work) = works.pop() else {
        let Back {
            works: done,
            attended,
        } = room;
        return Back {
            works: done,
            attended: run_desks(rt, alloc, floor, words, gate, desks, doors, attended),
        };
    };
    let here = move || -> Work
        requires { IsSync R.row × (AreInOrder floor.now.docks.items × IsIdle floor.now work) }
        ensures { HasDone work result }
    { work_at_table(rt, floor, work) };
    let others = move || -> Back<D>
        requires { IsSync R.row × (IsSync G.row × (IsSend D.row × (AreInOrder floor.now.docks.items
            × (All (IsIdle floor.now) works.items
            × (All (IsIdleDesk floor.now) desks.items
            × ((length doors.items ≡ length desks.items)
            × (IsEmptyFor (vec_len works) room.works × IsEmptyFor (vec_len doors) room.attended))))))) }
        ensures { AllZip HasDone works.items result.works.items
            × (AllZip (HasAttended floor.entry.now D.told D.faults D.L.told D.L.faults words.entry.now)
            doors.items result.attended.items
            × ((vec_capacity result.works ≡ vec_capacity room.works)
            × (vec_capacity result.attended ≡ vec_capacity room.attended))) }
    { run_workers(rt, alloc, floor, words, gate, works, desks, doors, room) };
    let (one, all) = join(rt, here, others);
    let Back {
        works: mut done,
        attended,
    } = all;
    done.push_reserved(one);
    Back {
        works: done,
        attended,
    }
}

/// Lets all workers work and a desk serve at each door, each in a thread of its own: the workers' threads are started
/// first, and then those of the desks from door 1 on. What comes back from each desk stands in the order of the doors.
pub(crate) fn run_all<R: Threads + Wait + Sync, D: Door + Send + Drop, G: Gate + Sync>(
    rt: &R,
    alloc: Global,
    floor: &Floor,
    words: &Words,
    gate: &G,
    works: Vec<Work>,
    desks: Vec<Desk>,
    doors: Vec<D>,
    room: Back<D>,
) -> Back<D>
    requires order { AreInOrder floor.now.docks.items }
    requires idle { All (IsIdle floor.now) works.items }
    requires desks { All (IsIdleDesk floor.now) desks.items }
    requires doors { length doors.items ≡ length desks.items }
    requires works_room { IsEmptyFor (vec_len works) room.works }
    requires doors_room { IsEmptyFor (vec_len doors) room.attended }
    ensures works { AllZip HasDone works.items result.works.items }
    ensures doors { AllZip (HasAttended floor.now D.told D.faults D.L.told D.L.faults words.now)
        doors.items result.attended.items }
    ensures room { (vec_capacity result.works ≡ vec_capacity room.works)
        × (vec_capacity result.attended ≡ vec_capacity room.attended) }
{
    let mut doors = doors;
    doors.reverse();
    let mut back = run_workers(rt, alloc, floor, words, gate, works, desks, doors, room);
    back.attended.reverse();
    back
}
