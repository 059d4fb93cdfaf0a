//! The floor of a tournament: the locks round its book and its tables, and all that those who work need.

ghost use Rattle.std.specs.Prelude.{◌≡◌, ◌+◌, ◌<◌, ◌≤◌, [], All, IfOk, IfSome, IsTrue, ℕ, length, slice_get, vec_len};
ghost use Rattle.std.specs.List.{AllZip};
ghost use Rattle.history_lock.specs.Passes.{IsFresh};
ghost use Rattle.level_plan.specs.Plans.{is_right};
ghost use Rattle.rulebook.specs.Limits.{most_tables};
ghost use Rattle.table_dock.specs.Docks.{dock_id, dock_passes};
ghost use Rattle.session_desk.specs.Desks.{AreInOrder};
ghost use Rattle.command_lines.specs.Limits.{most_desks};
ghost use Rattle.floor_crew.specs.AtHand.{IsPack, IsRoomFor};
ghost use Rattle.floor_crew.specs.Working.{IsCrewOf, IsFloorOf};

use crate::jobs::{Attended, Work};
use crate::passes::{Pack, Passes, deal_works};
use crate::rows::{empty_rows, spread, take_last};
use book_dock::{BookDock, make_book};
use level_plan::Plan;
use session_desk::Desk;
use std::alloc::{AllocError, Global};
use table_dock::{TableDock, TablePass, make_dock};

/// The locks of a tournament.
#[derive(Drop)]
pub struct Floor {
    pub(crate) book: BookDock,
    /// The docks of the tables 1, 2 and so on.
    pub(crate) docks: Vec<TableDock>,
}

/// Those who are to work, with the passes that were dealt to them.
#[derive(Drop)]
pub struct Crew {
    pub(crate) works: Vec<Work>,
    pub(crate) desks: Vec<Desk>,
}

/// The room for all that they give back.
#[derive(Drop)]
pub struct Room<D> {
    pub(crate) works: Vec<Work>,
    pub(crate) attended: Vec<Attended<D>>,
    pub(crate) doors: Vec<D>,
    pub(crate) failed: Vec<bool>,
    /// A row for the workers' passes of the docks.
    pub(crate) row: Vec<TablePass>,
    pub(crate) passes: Passes,
}

/// Makes the docks of so many tables, each with a pass for its worker and one for each desk, and rows of their passes.
fn make_docks(
    alloc: Global,
    tables: u8,
    desks: u32,
) -> Result<(Vec<TableDock>, Vec<Vec<TablePass>>), AllocError>
    requires { desks ≤ most_desks }
    ensures order { IfOk result (λ made. AreInOrder made.0.items) }
    ensures count { IfOk result (λ made. length made.0.items ≡ tables) }
    ensures passes { IfOk result (λ made. All (λ dock. dock_passes dock ≡ desks + 1) made.0.items) }
    ensures rows { IfOk result (λ made. length made.1.items ≡ desks + 1) }
    ensures fresh { IfOk result (λ made. (number : ℕ) → IfSome (slice_get made.1.items number)
        (λ row. AllZip (λ dock pass. IsFresh (dock_id dock) number [] pass) made.0.items row.items)) }
{
    let mut docks = Vec::with_capacity(alloc, usize::from(tables))?;
    let mut rows = empty_rows(alloc, desks as usize + 1, usize::from(tables))?;
    for index in 0..tables {
        let (dock, passes) = make_dock(alloc, index + 1, desks)?;
        docks.push_reserved(dock);
        spread(&mut rows, passes);
    }
    Ok((docks, rows))
}

/// Makes the locks of a plan's tournament, with a pass for each table's worker and for each desk.
fn make_locks(
    alloc: Global,
    plan: Plan,
    seed: [u8; 32],
    desks: u32,
) -> Result<(Floor, Pack), AllocError>
    requires right { IsTrue (is_right plan) }
    requires desks { (0 < desks) × (desks ≤ most_desks) }
    ensures floor { IfOk result (λ made. IsFloorOf plan seed desks made.0) }
    ensures pack { IfOk result (λ made. IsPack made.0 made.1) }
    ensures books { IfOk result (λ made. vec_len made.1.books ≡ plan.tables + desks) }
    ensures rows { IfOk result (λ made. vec_len made.1.rows ≡ desks + 1) }
{
    let tables = plan.tables as u8;
    let (docks, rows) = make_docks(alloc, tables, desks)?;
    let (book, books) = make_book(alloc, plan, seed, u32::from(tables) + desks)?;
    Ok((Floor { book, docks }, Pack { books, rows }))
}

/// Deals the passes to a worker for each table and to so many desks.
fn make_crew(alloc: Global, pack: Pack, desks: u32) -> Result<Crew, AllocError>
    requires books { (desks ≤ vec_len pack.books) × (vec_len pack.books ≤ desks + most_tables) }
    requires rows { vec_len pack.rows ≡ desks + 1 }
    requires short { All (λ row. vec_len row + desks ≤ vec_len pack.books) pack.rows.items }
    ensures { (floor : Floor) → IsPack floor pack → IfOk result (IsCrewOf floor desks) }
{
    let mut pack = pack;
    let at_desks = pack.deal_desks(alloc, desks)?;
    let Pack { books, mut rows } = pack;
    let works = deal_works(alloc, books, take_last(&mut rows))?;
    Ok(Crew {
        works,
        desks: at_desks,
    })
}

/// Takes the room for all that comes back from so many tables and desks.
fn make_room<D: Drop>(alloc: Global, tables: u8, desks: u32) -> Result<Room<D>, AllocError>
    requires { desks ≤ most_desks }
    ensures { IfOk result (IsRoomFor tables desks) }
{
    let count = usize::from(tables);
    let at_desks = desks as usize;
    let passes = Passes {
        books: Vec::with_capacity(alloc, count + at_desks)?,
        tables: empty_rows(alloc, count, at_desks + 1)?,
    };
    Ok(Room {
        works: Vec::with_capacity(alloc, count)?,
        attended: Vec::with_capacity(alloc, at_desks)?,
        doors: Vec::with_capacity(alloc, at_desks)?,
        failed: Vec::with_capacity(alloc, at_desks)?,
        row: Vec::with_capacity(alloc, count)?,
        passes,
    })
}

/// Opens the floor of a plan's tournament for so many desks, deals the passes, and takes the room for all that comes
/// back. So nothing is lost on the way back for want of memory.
pub fn open_floor<D: Drop>(
    alloc: Global,
    plan: Plan,
    seed: [u8; 32],
    desks: u32,
) -> Result<(Floor, Crew, Room<D>), AllocError>
    requires right { IsTrue (is_right plan) }
    requires desks { (0 < desks) × (desks ≤ most_desks) }
    ensures floor { IfOk result (λ made. IsFloorOf plan seed desks made.0) }
    ensures crew { IfOk result (λ made. IsCrewOf made.0 desks made.1) }
    ensures room { IfOk result (λ made. IsRoomFor plan.tables desks made.2) }
{
    let tables = plan.tables as u8;
    let (floor, pack) = make_locks(alloc, plan, seed, desks)?;
    let crew = make_crew(alloc, pack, desks)?;
    let room = make_room(alloc, tables, desks)?;
    Ok((floor, crew, room))
}
