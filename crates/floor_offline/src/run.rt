//! The top call.

ghost use Rattle.std.specs.Prelude.{true, ◌⊎◌, ◌≡◌, ◌≢◌, ◌↔◌, ◌≤◌, ◌∷◌, [], ◌++◌, ℕ, List, length, take, map, string_bytes, Some, None, Ok, Err, IfSome, IfErr, OnOk, IsOk, IsErrOf, Contains, MatchResult};
ghost use Rattle.floor_text.specs.Lines.{lines_of_bytes};
ghost use Rattle.floor_text.specs.Outside.{Rose};
ghost use Rattle.level_plan.specs.declared.line.PlanItem.{PlanItem};
ghost use Rattle.floor_offline.specs.Commands.{IsPut, limit_of, telling_of, text_of};
ghost use Rattle.command_lines.specs.Commands.{command_of};
ghost use Rattle.command_lines.specs.Endings.{LetsGo, PutsLine, fault_line, status_line};
ghost use Rattle.command_lines.specs.Limits.{GivesMore};
ghost use Rattle.line_tellers.specs.Limits.{input_limit};
ghost use Rattle.line_tellers.specs.Promise.{TakesAndPuts, IsToldOf};
ghost use Rattle.line_tellers.specs.Told.{ended_told, lines_told};
ghost use Rattle.command_lines.specs.declared.command.Command.{Command};
ghost use Rattle.command_lines.specs.declared.command.Command.TheVariants.{Replay, Simulate};
ghost use Rattle.first_edition.specs.First.{are_first_lines, first_replay_text};

use crate::simulate::simulate;
use command_lines::{Command, Fault, finish};
use floor_text::{Sink, Source};
use line_tellers::{close, replay, view};
use std::alloc::Global;

/// Carries a command out.
fn carry_out<I: Source, O: Sink>(
    alloc: Global,
    command: Command,
    input: &mut I,
    out: &mut O,
) -> Result<(), Fault>
    ensures end { OnOk result (IfSome (I.left input.old) (λ _. I.left input.new ≡ Some [])) }
    ensures text { OnOk result (IfSome (I.left input.old) (λ bytes. IfSome (O.written out.old)
        (λ before. IsPut (text_of command bytes) before (O.written out.new)))) }
    ensures right { OnOk result (IfSome (I.left input.old) (λ bytes. IsOk (text_of command bytes))) }
    ensures within { OnOk result (IfSome (I.left input.old) (λ bytes. length bytes ≤ limit_of command)) }
    ensures let_go { OnOk result (O.held out.new ≡ []) }
    ensures faults_let_go { (fault : Fault) → result ≡ Err fault → fault ≢ Fault.Write
        → LetsGo O.held out.old out.new }
    ensures plan { (item : PlanItem) → result ≡ Err (Fault.Plan item) → IfSome (I.left input.old)
        (λ bytes. (text_of command bytes ≡ Err item) × (I.left input.new ≡ Some [])) }

    // Where a command that tells of lines fails, what it put is told of the bytes that were taken.
    ensures told { IfSome (telling_of command) (λ telling. IfErr result (λ fault. TakesAndPuts (IsToldOf fault telling)
        (I.left input.old) (I.left input.new) (O.written out.old) (O.written out.new))) }

    // What a simulation puts out where it fails.
    ensures untouched { (number : ℕ) (fault : Fault) → command ≡ Simulate number → result ≡ Err fault
        → fault ≢ Fault.Write → out.new ≡ out.old }
    ensures front { (number : ℕ) → command ≡ Simulate number → result ≡ Err Fault.Write
        → IfSome (I.left input.old) (λ bytes. IfSome (O.written out.old)
        (λ before. (n : ℕ) × (text : List ℕ) × (text_of command bytes ≡ Ok text)
        × (O.written out.new ≡ Some (before ++ take n text)))) }

    ensures too_long { result ≡ Err Fault.InputTooLong
        → GivesMore (limit_of command) (I.left input.old) (I.left input.new) }
    ensures read { result ≡ Err Fault.Read → Rose (I.faults input.old) (I.faults input.new) }
    ensures write { result ≡ Err Fault.Write → Rose (O.faults out.old) (O.faults out.new) }
    ensures words { result ≡ Err Fault.Usage → ⊥ }
    ensures hall { result ≡ Err Fault.Hall → ⊥ }
{
    match command {
        Command::Replay => close(replay(alloc, input, out), out),
        Command::View(name) => close(view(alloc, name, input, out), out),
        Command::Simulate(number) => simulate(alloc, number, input, out),
    }
}

/// Runs a command over a source and two sinks, and answers the exit status.
///
/// `replay` answers each line of the input by a line on `out`, and at the end of the input puts the report there,
/// each by one put. Answers may be held back by `out` while further lines are at hand. Where memory runs out in the
/// midst, `out` lets go of them by a put of no bytes. `view NAME` puts there in the same way the lines that tell the
/// player of the name of each line of the input, and no report. `simulate N` reads a plan file from the input, plays
/// the simulated tournament of the number over it, and puts what is told of it on `out` by one put.
///
/// | status | comes | err |
/// |---|---|---|
/// | 0 | the input was read to its end and all was written | nothing |
/// | 2 | exactly where the words are no written command; nothing is taken, and nothing put to `out` | the usage line |
/// | 3 | only where the source's count of faults rose | `read fault` |
/// | 4 | only where the count of faults of `out` rose | `write fault` |
/// | 5 | memory ran out | `out of memory` |
/// | 6 | the input was read to its end and is a plan file of which ITEM is wrong first | `plan ITEM` |
/// | 8 | only where more bytes were taken than a command allows: 268,435,456, and 1,048,576 of a plan file | `input too long` |
///
/// A failure of `err` changes no status.
pub fn run_offline<I: Source, O: Sink, E: Sink>(
    alloc: Global,
    words: &Vec<String>,
    input: &mut I,
    out: &mut O,
    err: &mut E,
) -> u8
    ensures statuses { Contains (0 ∷ 2 ∷ 3 ∷ 4 ∷ 5 ∷ 6 ∷ 8 ∷ []) result }

    // Status 0: the input was read to its end, and what was put is the command's text of it.
    ensures read_to_end { result ≡ 0 → IfSome (I.left input.old) (λ _. I.left input.new ≡ Some []) }
    ensures put { result ≡ 0 → (command : Command) → command_of (map string_bytes words.now.items) ≡ Some command
        → IfSome (I.left input.old) (λ bytes. IfSome (O.written out.old)
        (λ before. IsPut (text_of command bytes) before (O.written out.new))) }
    // A stream whose lines are all of the first edition is answered as it was.
    ensures first_edition { result ≡ 0 → command_of (map string_bytes words.now.items) ≡ Some Replay
        → IfSome (I.left input.old) (λ bytes. are_first_lines bytes ≡ true → IfSome (O.written out.old)
        (λ before. O.written out.new ≡ Some (before ++ first_replay_text bytes))) }
    ensures within_limit { result ≡ 0 → (command : Command)
        → command_of (map string_bytes words.now.items) ≡ Some command
        → IfSome (I.left input.old) (λ bytes. length bytes ≤ limit_of command) }

    // At every status but that of a write fault, out holds nothing back of what was put; and at none err does, unless
    // it failed.
    ensures let_go { result ≢ 4 → LetsGo O.held out.old out.new }
    ensures all_let_go { result ≡ 0 → O.held out.new ≡ [] }
    ensures err_let_go { LetsGo E.held err.old err.new ⊎ Rose (E.faults err.old) (E.faults err.new) }

    // Status 2: exactly where the words are no written command, and then nothing is touched but err.
    ensures usage { (result ≡ 2) ↔ (command_of (map string_bytes words.now.items) ≡ None) }
    ensures untouched { result ≡ 2 → (input.new ≡ input.old) × (out.new ≡ out.old) }

    // Status 6: the input was read to its end, and an item of the plan that it is is wrong, which err names.
    ensures plan { result ≡ 6 → (item : PlanItem)
        × (IfSome (E.written err.old) (λ before. PutsLine before (fault_line (Fault.Plan item)) (E.written err.new)
        (E.faults err.old) (E.faults err.new)))
        × ((command : Command) → command_of (map string_bytes words.now.items) ≡ Some command
        → IfSome (I.left input.old) (λ bytes. (text_of command bytes ≡ Err item) × (I.left input.new ≡ Some []))) }

    // Where a command that tells of lines fails, what it put is told of the bytes that were taken. Status 3: of just
    // all lines that a line feed ends there; 8: of those that one ends within the limit; 5: of a front of the lines,
    // each of them whole; 4: a front of the command's text of the bytes.
    ensures read_fault_told { result ≡ 3 → (command : Command)
        → command_of (map string_bytes words.now.items) ≡ Some command
        → IfSome (telling_of command) (λ telling. TakesAndPuts (λ taken text. text ≡ ended_told telling taken)
        (I.left input.old) (I.left input.new) (O.written out.old) (O.written out.new)) }
    ensures too_long_told { result ≡ 8 → (command : Command)
        → command_of (map string_bytes words.now.items) ≡ Some command
        → IfSome (telling_of command)
        (λ telling. TakesAndPuts (λ taken text. text ≡ ended_told telling (take input_limit taken))
        (I.left input.old) (I.left input.new) (O.written out.old) (O.written out.new)) }
    ensures no_memory_told { result ≡ 5 → (command : Command)
        → command_of (map string_bytes words.now.items) ≡ Some command
        → IfSome (telling_of command) (λ telling. TakesAndPuts
        (λ taken text. (n : ℕ) × (text ≡ lines_told telling (take n (lines_of_bytes taken))))
        (I.left input.old) (I.left input.new) (O.written out.old) (O.written out.new)) }
    ensures write_fault_told { result ≡ 4 → (command : Command)
        → command_of (map string_bytes words.now.items) ≡ Some command
        → IfSome (telling_of command) (λ _. TakesAndPuts
        (λ taken text. (n : ℕ) × (whole : List ℕ) × (text_of command taken ≡ Ok whole) × (text ≡ take n whole))
        (I.left input.old) (I.left input.new) (O.written out.old) (O.written out.new)) }

    // A simulation that fails has put nothing, but where out failed a front of its text.
    ensures simulated_nothing { (number : ℕ) → command_of (map string_bytes words.now.items) ≡ Some (Simulate number)
        → result ≢ 0 → result ≢ 4 → out.new ≡ out.old }
    ensures simulated_front { (number : ℕ) → command_of (map string_bytes words.now.items) ≡ Some (Simulate number)
        → result ≡ 4 → IfSome (I.left input.old) (λ bytes. IfSome (O.written out.old)
        (λ before. (n : ℕ) × (text : List ℕ) × (text_of (Simulate number) bytes ≡ Ok text)
        × (O.written out.new ≡ Some (before ++ take n text)))) }

    // The other statuses have their causes.
    ensures read_fault { result ≡ 3 → Rose (I.faults input.old) (I.faults input.new) }
    ensures write_fault { result ≡ 4 → Rose (O.faults out.old) (O.faults out.new) }
    ensures input_too_long { result ≡ 8 → (command : Command)
        → command_of (map string_bytes words.now.items) ≡ Some command
        → GivesMore (limit_of command) (I.left input.old) (I.left input.new) }

    // With a written command, no fault and no more bytes than its limit, the status tells whether the command has a
    // text, and else only memory can be wanting.
    ensures complete { (command : Command) → command_of (map string_bytes words.now.items) ≡ Some command
        → ¬ Rose (I.faults input.old) (I.faults input.new) → ¬ Rose (O.faults out.old) (O.faults out.new)
        → IfSome (I.left input.old) (λ bytes. length bytes ≤ limit_of command
        → MatchResult (text_of command bytes) (λ text. (result ≡ 0) ⊎ (result ≡ 5))
        (λ item. (result ≡ 6) ⊎ (result ≡ 5))) }

    // Err holds nothing at status 0, and else the status's line.
    ensures quiet { result ≡ 0 → err.new ≡ err.old }
    ensures told { result ≢ 0 → result ≢ 6 → IfSome (E.written err.old)
        (λ before. PutsLine before (status_line result) (E.written err.new) (E.faults err.old) (E.faults err.new)) }
{
    let Some(command) = Command::read(words) else {
        return Fault::Usage.tell(err);
    };
    finish(carry_out(alloc, command, input, out), err)
}
