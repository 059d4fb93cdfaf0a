//! The top call.

ghost use Rattle.std.specs.Prelude.{◌⊎◌, ◌≡◌, ◌≢◌, ◌↔◌, ◌<◌, ◌≤◌, ◌∷◌, [], ℕ, List, map, string_bytes, length, Option, Some, None, Ok, Err, IfErr, IfOk, IfSome, IsErrOf, IsTrue, OnErr, OnOk, Contains, MatchResult};
ghost use Rattle.floor_text.specs.Outside.{Rose};
ghost use Rattle.level_plan.specs.declared.line.PlanItem.{PlanItem};
ghost use Rattle.level_plan.specs.Plans.{is_right};
ghost use Rattle.plan_files.specs.Words.{served_of_file};
ghost use Rattle.links.specs.Telling.{HallTelling};
ghost use Rattle.book_dock.specs.Ends.{journal_of};
ghost use Rattle.command_lines.specs.Commands.{service_of};
ghost use Rattle.command_lines.specs.Endings.{IsOfWriting, LetsGo, PutsLine, fault_line, status_line};
ghost use Rattle.command_lines.specs.Limits.{GivesMore, most_desks, plan_limit};
ghost use Rattle.command_lines.specs.declared.service.Service.{Service};
ghost use Rattle.floor_online.specs.Doors.{IsEvenOn, failed_text};
ghost use Rattle.floor_online.specs.Served.{HasFront, HasServed, HasText, IsFile, IsOfServing, MayHavePut};

use crate::doors::{failed_lines, put_lines, room_for_lines};
use crate::holding::hold_plan;
use crate::text::write_text;
use book_dock::BookEnd;
use command_lines::{Fault, PLAN_LIMIT, Service, finish};
use floor_text::{Sink, Source};
use level_plan::Plan;
use links::Hall;
use plan_files::{Words, read_whole, served_from_toml};
use std::alloc::Global;
use std::sync::Wait;
use std::thread::Threads;
use table_dock::Gate;

/// Reads the plan and the session words that the input is.
fn read_plan<I: Source>(alloc: Global, input: &mut I) -> Result<(Plan, Words), Fault>
    ensures file { IfOk result (λ read. IsFile (I.left input.old) read.0 read.1) }
    ensures right { IfOk result (λ read. IsTrue (is_right read.0)) }
    ensures end { OnOk result (IfSome (I.left input.old) (λ _. I.left input.new ≡ Some [])) }
    ensures within { OnOk result (IfSome (I.left input.old) (λ bytes. length bytes ≤ plan_limit)) }
    ensures plan { (item : PlanItem) → IsErrOf result (Fault.Plan item) → IfSome (I.left input.old)
        (λ bytes. (served_of_file bytes ≡ Err item) × (I.left input.new ≡ Some [])) }
    ensures read { IsErrOf result Fault.Read → Rose (I.faults input.old) (I.faults input.new) }
    ensures too_long { IsErrOf result Fault.InputTooLong
        → GivesMore plan_limit (I.left input.old) (I.left input.new) }
    ensures words { IsErrOf result Fault.Usage → ⊥ }
    ensures write { IsErrOf result Fault.Write → ⊥ }
    ensures hall { IsErrOf result Fault.Hall → ⊥ }
{
    let bytes = read_whole(alloc, input, PLAN_LIMIT)?;
    Ok(served_from_toml(alloc, &bytes)?)
}

/// Writes the text of a tournament that was held, and then gives the lines of the doors that failed, in the room that
/// was taken for them.
fn write_held<O: Sink>(
    alloc: Global,
    end: &BookEnd,
    failed: &[bool],
    room: Vec<u8>,
    out: &mut O,
) -> Result<Vec<u8>, Fault>
    requires { room.items ≡ [] }
    ensures lines { IfOk result (λ lines. lines.items ≡ failed_text 1 failed.now) }
    ensures put { OnOk result (HasText (journal_of end.now) (O.written out.old) (O.written out.new)) }
    ensures front { OnErr result (HasFront (journal_of end.now) (O.written out.old) (O.written out.new)) }
    ensures let_go { OnOk result (O.held out.new ≡ []) }
    ensures faults_let_go { IfErr result (λ fault. fault ≢ Fault.Write → LetsGo O.held out.old out.new) }
    ensures write { IsErrOf result Fault.Write → Rose (O.faults out.old) (O.faults out.new) }
    ensures others { IfErr result IsOfWriting }
{
    write_text(alloc, end, out)?;
    Ok(failed_lines(failed, room)?)
}

/// Holds a plan's tournament at the doors of the hall, and writes its text. Gives the lines of the doors that failed.
fn serve_plan<R: Threads + Wait + Sync, O: Sink, H: Hall, G: Gate + Sync>(
    rt: &R,
    alloc: Global,
    plan: Plan,
    words: &Words,
    out: &mut O,
    hall: &mut H,
    gate: &G,
    seed: [u8; 32],
    asked: Service,
) -> Result<Vec<u8>, Fault>
    requires right { IsTrue (is_right plan) }
    requires desks { (0 < asked.desks) × (asked.desks ≤ most_desks) }
    ensures served { (left : Option (List ℕ)) → IsFile left plan words.now → IfOk result (λ lines.
        HasServed H.D.told H.D.faults H.D.L.told H.D.L.faults left seed asked.desks lines.items
        (record { written = O.written out.old; hall = H.told hall.old })
        (record { written = O.written out.new; hall = H.told hall.new })) }
    ensures let_go { OnOk result (O.held out.new ≡ []) }
    ensures faults_let_go { IfErr result (λ fault. fault ≢ Fault.Write → LetsGo O.held out.old out.new) }
    ensures doors { IfSome (H.told hall.old)
        (λ t. (u : HallTelling H.D) × (H.told hall.new ≡ Some u) × IsEvenOn t u) }

    // A front of the tournament's text was put where out failed or memory ran out, and nothing at any other fault.
    ensures front { (left : Option (List ℕ)) → IsFile left plan words.now
        → OnErr result (MayHavePut left seed (O.written out.old) (O.written out.new)) }
    ensures untouched { IfErr result (λ fault. (fault ≡ Fault.Write) ⊎ ((fault ≡ Fault.NoMemory)
        ⊎ (out.new ≡ out.old))) }

    ensures write { IsErrOf result Fault.Write → Rose (O.faults out.old) (O.faults out.new) }
    ensures hall { IsErrOf result Fault.Hall → Rose (H.faults hall.old) (H.faults hall.new) }
    ensures others { IfErr result IsOfServing }
{
    let room = room_for_lines(alloc, asked.desks)?;
    let (end, failed) = hold_plan(rt, alloc, plan, words, hall, gate, seed, asked)?;
    write_held(alloc, &end, &failed, room, out)
}

/// Reads the command and the plan, holds the plan's tournament, and writes its text. Gives the lines of the doors that
/// failed.
fn run<R: Threads + Wait + Sync, I: Source, O: Sink, H: Hall, G: Gate + Sync>(
    rt: &R,
    alloc: Global,
    words: &Vec<String>,
    input: &mut I,
    out: &mut O,
    hall: &mut H,
    gate: &G,
    seed: [u8; 32],
) -> Result<Vec<u8>, Fault>
    ensures end { OnOk result (IfSome (I.left input.old) (λ _. I.left input.new ≡ Some [])) }
    ensures within { OnOk result (IfSome (I.left input.old) (λ bytes. length bytes ≤ plan_limit)) }
    ensures served { IfOk result (λ lines. (asked : Service)
        → service_of (map string_bytes words.now.items) ≡ Some asked
        → HasServed H.D.told H.D.faults H.D.L.told H.D.L.faults (I.left input.old) seed asked.desks lines.items
        (record { written = O.written out.old; hall = H.told hall.old })
        (record { written = O.written out.new; hall = H.told hall.new })) }
    ensures let_go { OnOk result (O.held out.new ≡ []) }
    ensures faults_let_go { IfErr result (λ fault. fault ≢ Fault.Write → LetsGo O.held out.old out.new) }
    ensures doors { IfSome (H.told hall.old)
        (λ t. (u : HallTelling H.D) × (H.told hall.new ≡ Some u) × IsEvenOn t u) }

    // A front of a tournament's text was put where out failed or memory ran out, and nothing at any other fault.
    ensures front { IfErr result
        (λ fault. MayHavePut (I.left input.old) seed (O.written out.old) (O.written out.new)) }
    ensures untouched { IfErr result (λ fault. (fault ≡ Fault.Write) ⊎ ((fault ≡ Fault.NoMemory)
        ⊎ (out.new ≡ out.old))) }

    ensures words { IsErrOf result Fault.Usage ↔ (service_of (map string_bytes words.now.items) ≡ None) }
    ensures unasked { IsErrOf result Fault.Usage → (input.new ≡ input.old) × ((out.new ≡ out.old)
        × (hall.new ≡ hall.old)) }
    ensures plan { (item : PlanItem) → IsErrOf result (Fault.Plan item) → IfSome (I.left input.old)
        (λ bytes. (served_of_file bytes ≡ Err item) × (I.left input.new ≡ Some [])) }
    ensures read { IsErrOf result Fault.Read → Rose (I.faults input.old) (I.faults input.new) }
    ensures write { IsErrOf result Fault.Write → Rose (O.faults out.old) (O.faults out.new) }
    ensures hall { IsErrOf result Fault.Hall → Rose (H.faults hall.old) (H.faults hall.new) }
    ensures too_long { IsErrOf result Fault.InputTooLong
        → GivesMore plan_limit (I.left input.old) (I.left input.new) }
{
    let asked = Service::read(words).ok_or(Fault::Usage)?;
    let (plan, words) = read_plan(alloc, input)?;
    serve_plan(rt, alloc, plan, &words, out, hall, gate, seed, asked)
}

/// Serves a tournament over a source, two sinks and a hall, and answers the exit status.
///
/// `serve PORT DESKS` reads a plan file with session words from the input, has the hall open as many doors as there are
/// desks, and lets each table's worker and each desk work in a thread of its own, until the floor stops the tournament.
/// Then the doors are handed back to the hall, and the text of the tournament is put on `out`: the lines of its plan
/// and `go`, each event that was accepted, with the acts of each settled hand before its settle, and behind the stop
/// the report. The events of each entry of the journal are put by one put, and the report by another; `out` may hold
/// back all but the report. The gate is told while the lock of a table is held.
///
/// | status | comes | err |
/// |---|---|---|
/// | 0 | the tournament was stopped, and all was written | a line `door I fault` for each desk that its door ended |
/// | 2 | exactly where the words are no written command; nothing is taken, put or opened | the usage line |
/// | 3 | only where the source's count of faults rose | `read fault` |
/// | 4 | only where the count of faults of `out` rose | `write fault` |
/// | 5 | memory ran out before the doors were open, or as the end was written | `out of memory` |
/// | 6 | the input was read to its end and is a plan file of which ITEM is wrong first | `plan ITEM` |
/// | 7 | only where the hall's count of faults rose | `hall fault` |
/// | 8 | only where more than 1,048,576 bytes were taken | `input too long` |
///
/// At every status but 0, 4 and 5 nothing is put to `out`. Doors that were opened are handed back, whatever the status
/// is. A failure of `err` changes no status.
pub fn serve<R: Threads + Wait + Sync, I: Source, O: Sink, E: Sink, H: Hall, G: Gate + Sync>(
    rt: &R,
    alloc: Global,
    words: &Vec<String>,
    input: &mut I,
    out: &mut O,
    err: &mut E,
    hall: &mut H,
    gate: &G,
    seed: [u8; 32],
) -> u8
    ensures statuses { Contains (0 ∷ 2 ∷ 3 ∷ 4 ∷ 5 ∷ 6 ∷ 7 ∷ 8 ∷ []) result }

    // Status 0: the input was read to its end, and a whole tournament over its plan was served: out has its text, what
    // stands there was asked for at the doors, each client was told of it, all doors and links are back, and err holds
    // just the lines of the doors that failed.
    ensures read_to_end { result ≡ 0 → IfSome (I.left input.old) (λ _. I.left input.new ≡ Some []) }
    ensures within_limit { result ≡ 0 → IfSome (I.left input.old) (λ bytes. length bytes ≤ plan_limit) }
    ensures served { result ≡ 0 → (asked : Service) → service_of (map string_bytes words.now.items) ≡ Some asked
        → (lines : List ℕ)
        × HasServed H.D.told H.D.faults H.D.L.told H.D.L.faults (I.left input.old) seed asked.desks lines
        (record { written = O.written out.old; hall = H.told hall.old })
        (record { written = O.written out.new; hall = H.told hall.new })
        × IfSome (E.written err.old)
        (λ before. PutsLine before lines (E.written err.new) (E.faults err.old) (E.faults err.new)) }
    ensures all_let_go { result ≡ 0 → O.held out.new ≡ [] }

    // At every status as many doors are back as the hall gave, and out holds nothing back but at a write fault.
    ensures doors_back { IfSome (H.told hall.old)
        (λ t. (u : HallTelling H.D) × (H.told hall.new ≡ Some u) × IsEvenOn t u) }
    ensures let_go { result ≢ 4 → LetsGo O.held out.old out.new }
    ensures err_let_go { LetsGo E.held err.old err.new ⊎ Rose (E.faults err.old) (E.faults err.new) }

    // Status 2: exactly where the words are no written command, and then nothing is touched but err.
    ensures usage { (result ≡ 2) ↔ (service_of (map string_bytes words.now.items) ≡ None) }
    ensures untouched { result ≡ 2 → (input.new ≡ input.old) × ((out.new ≡ out.old) × (hall.new ≡ hall.old)) }

    // Statuses 4 and 5: a front of the text of a whole tournament was put, or nothing. At 3, 6, 7 and 8 nothing was.
    ensures front_put { Contains (4 ∷ 5 ∷ []) result
        → MayHavePut (I.left input.old) seed (O.written out.old) (O.written out.new) }
    ensures nothing_put { Contains (3 ∷ 6 ∷ 7 ∷ 8 ∷ []) result → out.new ≡ out.old }

    // Status 6: the input was read to its end, and an item of the plan that it is is wrong, which err names.
    ensures plan { result ≡ 6 → (item : PlanItem)
        × (IfSome (E.written err.old) (λ before. PutsLine before (fault_line (Fault.Plan item)) (E.written err.new)
        (E.faults err.old) (E.faults err.new)))
        × IfSome (I.left input.old) (λ bytes. (served_of_file bytes ≡ Err item) × (I.left input.new ≡ Some [])) }

    // The other statuses have their causes.
    ensures read_fault { result ≡ 3 → Rose (I.faults input.old) (I.faults input.new) }
    ensures write_fault { result ≡ 4 → Rose (O.faults out.old) (O.faults out.new) }
    ensures hall_fault { result ≡ 7 → Rose (H.faults hall.old) (H.faults hall.new) }
    ensures input_too_long { result ≡ 8 → GivesMore plan_limit (I.left input.old) (I.left input.new) }

    // With the written command, no fault and no more bytes than the limit, the status tells whether the plan is right,
    // and else only memory can be wanting.
    ensures complete { (asked : Service) → service_of (map string_bytes words.now.items) ≡ Some asked
        → ¬ Rose (I.faults input.old) (I.faults input.new) → ¬ Rose (O.faults out.old) (O.faults out.new)
        → ¬ Rose (H.faults hall.old) (H.faults hall.new)
        → IfSome (I.left input.old) (λ bytes. length bytes ≤ plan_limit
        → MatchResult (served_of_file bytes) (λ file. (result ≡ 0) ⊎ (result ≡ 5))
        (λ item. (result ≡ 6) ⊎ (result ≡ 5))) }

    // Where the status is not 0, err holds the status's line.
    ensures told { result ≢ 0 → result ≢ 6 → IfSome (E.written err.old)
        (λ before. PutsLine before (status_line result) (E.written err.new) (E.faults err.old) (E.faults err.new)) }
{
    match run(rt, alloc, words, input, out, hall, gate, seed) {
        Ok(lines) => {
            put_lines(&lines, err);
            finish(Ok(()), err)
        }
        Err(fault) => finish(Err(fault), err),
    }
}
