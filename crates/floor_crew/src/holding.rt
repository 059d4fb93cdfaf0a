//! A tournament is held at doors.

ghost use Rattle.std.specs.Prelude.{◌≡◌, ℕ, List, length, vec_len};
ghost use Rattle.level_plan.specs.Plans.{PlanTerms};
ghost use Rattle.book_dock.specs.Ends.{journal_of};
ghost use Rattle.floor_crew.specs.AtHand.{IsRoomFor};
ghost use Rattle.floor_crew.specs.DoorRuns.{AreRuns, DoorRun};
ghost use Rattle.floor_crew.specs.Held.{HasHeld};
ghost use Rattle.floor_crew.specs.Working.{IsCrewOf, IsFloorOf};

use crate::closing::{Doors, close_locks, collect_works, take_doors};
use crate::floor::{Crew, Floor, Room};
use crate::threads::{Back, run_all};
use crate::writable::events_are_writable;
use book_dock::BookEnd;
use links::Door;
use plan_files::Words;
use std::alloc::Global;
use std::sync::Wait;
use std::thread::Threads;
use table_dock::Gate;

/// Holds a tournament: everybody works until it is stopped, and then the locks are opened for good. Gives the journal
/// with its book, and the doors.
pub fn hold<R: Threads + Wait + Sync, D: Door + Send + Drop, G: Gate + Sync>(
    rt: &R,
    alloc: Global,
    words: &Words,
    gate: &G,
    floor: Floor,
    crew: Crew,
    room: Room<D>,
    doors: Vec<D>,
) -> (BookEnd, Doors<D>)
    requires floor { (plan : PlanTerms) × (seed : List ℕ) × IsFloorOf plan seed (vec_len doors) floor }
    requires crew { IsCrewOf floor (vec_len doors) crew }
    requires room { IsRoomFor (length floor.docks.items) (vec_len doors) room }
    ensures held { (plan : PlanTerms) (seed : List ℕ) → IsFloorOf plan seed (vec_len doors) floor
        → (runs : List (DoorRun D)) × AreRuns runs doors.items result.1.doors.items result.1.failed.items
        × HasHeld D.told D.faults D.L.told D.L.faults plan words.now seed (journal_of result.0) runs }
{
    let Crew { works, desks } = crew;
    let Room {
        works: done,
        attended,
        doors: back,
        failed,
        row,
        mut passes,
    } = room;
    let room = Back {
        works: done,
        attended,
    };
    let Back { works, attended } = run_all(
        rt, alloc, &floor, words, gate, works, desks, doors, room,
    );
    let room = Doors {
        doors: back,
        failed,
    };
    let doors = take_doors(attended, room, &mut passes);
    collect_works(works, row, &mut passes);
    let end = close_locks(floor, passes);
    events_are_writable(&end);
    (end, doors)
}
