//! A tournament is held at the doors of a hall.

ghost use Rattle.std.specs.Prelude.{◌⊎◌, ◌≡◌, ◌<◌, ◌≤◌, ℕ, List, IfErr, IfOk, IfSome, IsErrOf, IsTrue, Some, length};
ghost use Rattle.floor_text.specs.Outside.{Rose};
ghost use Rattle.level_plan.specs.Plans.{PlanTerms, is_right};
ghost use Rattle.links.specs.Telling.{HallTelling};
ghost use Rattle.book_dock.specs.Ends.{journal_of};
ghost use Rattle.command_lines.specs.Limits.{most_desks};
ghost use Rattle.floor_crew.specs.AtHand.{IsRoomFor};
ghost use Rattle.floor_crew.specs.Working.{IsCrewOf, IsFloorOf};
ghost use Rattle.floor_online.specs.Doors.{IsEvenOn};
ghost use Rattle.floor_online.specs.Served.{HasHeldAt};

use crate::doors::open_doors;
use book_dock::BookEnd;
use command_lines::{Fault, Service};
use floor_crew::{Crew, Doors, Floor, Room, hold, open_floor};
use level_plan::Plan;
use links::Hall;
use plan_files::Words;
use std::alloc::Global;
use std::sync::Wait;
use std::thread::Threads;
use table_dock::Gate;

/// Has the hall open the doors that are asked for, holds a tournament at them, and hands them back. Gives the journal
/// with its book, and of each door whether it failed.
fn hold_at_doors<R: Threads + Wait + Sync, H: Hall, G: Gate + Sync>(
    rt: &R,
    alloc: Global,
    words: &Words,
    gate: &G,
    floor: Floor,
    crew: Crew,
    room: Room<H::D>,
    hall: &mut H,
    asked: Service,
) -> Result<(BookEnd, Vec<bool>), Fault>
    requires floor { (plan : PlanTerms) × (seed : List ℕ) × IsFloorOf plan seed asked.desks floor }
    requires crew { IsCrewOf floor asked.desks crew }
    requires room { IsRoomFor (length floor.docks.items) asked.desks room }
    ensures held { (plan : PlanTerms) (seed : List ℕ) → IsFloorOf plan seed asked.desks floor
        → IfOk result (λ ended. HasHeldAt H.D.told H.D.faults H.D.L.told H.D.L.faults plan words.now seed asked.desks
        (journal_of ended.0) ended.1.items (H.told hall.old) (H.told hall.new)) }
    ensures doors { IfSome (H.told hall.old)
        (λ t. (u : HallTelling H.D) × (H.told hall.new ≡ Some u) × IsEvenOn t u) }
    ensures hall { IsErrOf result Fault.Hall → Rose (H.faults hall.old) (H.faults hall.new) }
    ensures others { IfErr result (λ fault. (fault ≡ Fault.Hall) ⊎ (fault ≡ Fault.NoMemory)) }
{
    let doors = open_doors(alloc, hall, asked)?;
    let (end, back) = hold(rt, alloc, words, gate, floor, crew, room, doors);
    let Doors { doors, failed } = back;
    hall.back(doors);
    Ok((end, failed))
}

/// Opens the floor of a plan's tournament, and holds the tournament at the doors of the hall. Gives the journal with
/// its book, and of each door whether it failed.
pub(crate) fn hold_plan<R: Threads + Wait + Sync, H: Hall, G: Gate + Sync>(
    rt: &R,
    alloc: Global,
    plan: Plan,
    words: &Words,
    hall: &mut H,
    gate: &G,
    seed: [u8; 32],
    asked: Service,
) -> Result<(BookEnd, Vec<bool>), Fault>
    requires right { IsTrue (is_right plan) }
    requires desks { (0 < asked.desks) × (asked.desks ≤ most_desks) }
    ensures held { IfOk result (λ ended. HasHeldAt H.D.told H.D.faults H.D.L.told H.D.L.faults plan words.now seed
        asked.desks (journal_of ended.0) ended.1.items (H.told hall.old) (H.told hall.new)) }
    ensures doors { IfSome (H.told hall.old)
        (λ t. (u : HallTelling H.D) × (H.told hall.new ≡ Some u) × IsEvenOn t u) }
    ensures hall { IsErrOf result Fault.Hall → Rose (H.faults hall.old) (H.faults hall.new) }
    ensures others { IfErr result (λ fault. (fault ≡ Fault.Hall) ⊎ (fault ≡ Fault.NoMemory)) }
{
    let (floor, crew, room) = open_floor(alloc, plan, seed, asked.desks)?;
    hold_at_doors(rt, alloc, words, gate, floor, crew, room, hall, asked)
}
