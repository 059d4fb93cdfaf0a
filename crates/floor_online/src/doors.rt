//! The doors of a hall, and what is written of those that failed.

ghost use Rattle.std.specs.Prelude.{◌⊎◌, ◌≡◌, ◌≤◌, ◌++◌, [], IfOk, IfSome, IfErr, IsErrOf, OnOk, length, option_map, vec_len};
ghost use Rattle.floor_text.specs.Outside.{Rose};
ghost use Rattle.links.specs.Links.{AreDoorsOut, with_given};
ghost use Rattle.command_lines.specs.Endings.{LetsGo, PutsLine};
ghost use Rattle.command_lines.specs.Limits.{most_desks};
ghost use Rattle.floor_online.specs.Doors.{failed_text, fault_of_hall, line_where_failed};

use command_lines::{Fault, Service};
use floor_text::Sink;
use line_words::{Word, push_line};
use links::{Hall, HallFault};
use std::alloc::{AllocError, Global};

/// Tells why a hall gave no doors, as a fault of the run.
fn hall_fault(fault: HallFault) -> Fault
    ensures { result ≡ fault_of_hall fault }
{
    match fault {
        HallFault::Failed => Fault::Hall,
        HallFault::NoMemory => Fault::NoMemory,
    }
}

/// Has a hall open the doors that are asked for.
pub(crate) fn open_doors<H: Hall>(
    alloc: Global,
    hall: &mut H,
    asked: Service,
) -> Result<Vec<H::D>, Fault>
    ensures count { IfOk result (λ doors. length doors.items ≡ asked.desks) }
    ensures out { IfOk result (λ doors. AreDoorsOut (vec_len doors) (H.told hall.new)) }
    ensures told { IfOk result (λ doors. H.told hall.new ≡ option_map (with_given doors.items) (H.told hall.old)) }
    ensures kept { IfErr result (λ fault. H.told hall.new ≡ H.told hall.old) }
    ensures cause { IsErrOf result Fault.Hall → Rose (H.faults hall.old) (H.faults hall.new) }
    ensures others { IfErr result (λ fault. (fault ≡ Fault.Hall) ⊎ (fault ≡ Fault.NoMemory)) }
{
    hall.doors(alloc, asked.port, asked.desks)
        .map_err(hall_fault)
}

/// Writes the line of the door of a number, where it failed.
fn push_failed(number: u64, failed: bool, text: &mut Vec<u8>) -> Result<(), AllocError>
    ensures { OnOk result (text.new.items ≡ text.old.items ++ line_where_failed number failed) }
{
    if !failed {
        return Ok(());
    }
    push_line(
        text,
        &[
            Word::Text(b"door"),
            Word::Number(number),
            Word::Text(b"fault"),
        ],
    )
}

/// The most bytes of the line of a door that failed.
const LONGEST_LINE: usize = 16;

/// Takes the room for the lines of so many doors, so that none is wanted once the tournament is over.
pub(crate) fn room_for_lines(alloc: Global, doors: u32) -> Result<Vec<u8>, AllocError>
    requires { doors ≤ most_desks }
    ensures { IfOk result (λ room. room.items ≡ []) }
{
    Vec::with_capacity(alloc, doors as usize * LONGEST_LINE)
}

/// Writes a line for each door that failed, by its number from 1 on, into the room for them.
pub(crate) fn failed_lines(failed: &[bool], room: Vec<u8>) -> Result<Vec<u8>, AllocError>
    requires { room.items ≡ [] }
    ensures { IfOk result (λ text. text.items ≡ failed_text 1 failed.now) }
{
    let mut text = room;
    for (index, one) in failed.iter().enumerate() {
        push_failed(index as u64 + 1, *one, &mut text)?;
    }
    Ok(text)
}

/// Puts lines on err, if there are any. A failure of err changes nothing.
pub(crate) fn put_lines<E: Sink>(lines: &[u8], err: &mut E)
    ensures lines { IfSome (E.written err.old)
        (λ before. PutsLine before lines.now (E.written err.new) (E.faults err.old) (E.faults err.new)) }
    ensures let_go { LetsGo E.held err.old err.new ⊎ Rose (E.faults err.old) (E.faults err.new) }
{
    if !lines.is_empty() {
        let _ = err.put(lines);
    }
}
