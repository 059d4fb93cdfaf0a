//! A tournament is simulated over the plan that the input is.

ghost use Rattle.std.specs.Prelude.{◌≡◌, ◌≢◌, ◌≤◌, ◌++◌, ℕ, List, [], length, take, Err, Ok, Some, IfSome, IfErr, OnOk, IsErrOf, IsOk};
ghost use Rattle.floor_text.specs.Outside.{Rose};
ghost use Rattle.level_plan.specs.declared.line.PlanItem.{PlanItem};
ghost use Rattle.floor_offline.specs.Commands.{text_of, IsPut};
ghost use Rattle.command_lines.specs.Limits.{GivesMore, plan_limit};
ghost use Rattle.command_lines.specs.declared.command.Command.TheVariants as commands;

use command_lines::{Fault, PLAN_LIMIT};
use floor_simulation::simulation_text;
use floor_text::{Sink, Source};
use plan_files::{plan_from_toml, read_whole};
use std::alloc::Global;

/// Reads a plan from the input, plays the simulated tournament of a number over it, and puts what is told of it, by one
/// put. Before that nothing is put.
pub fn simulate<I: Source, O: Sink>(
    alloc: Global,
    number: u64,
    input: &mut I,
    out: &mut O,
) -> Result<(), Fault>
    ensures end { OnOk result (IfSome (I.left input.old) (λ _. I.left input.new ≡ Some [])) }
    ensures text { OnOk result (IfSome (I.left input.old) (λ bytes. IfSome (O.written out.old)
        (λ before. IsPut (text_of (commands.Simulate number) bytes) before (O.written out.new)))) }
    ensures right { OnOk result (IfSome (I.left input.old)
        (λ bytes. IsOk (text_of (commands.Simulate number) bytes))) }
    ensures within { OnOk result (IfSome (I.left input.old) (λ bytes. length bytes ≤ plan_limit)) }
    ensures let_go { OnOk result (O.held out.new ≡ []) }

    // A wrong plan is named once the input was read to its end.
    ensures plan { (item : PlanItem) → result ≡ Err (Fault.Plan item) → IfSome (I.left input.old)
        (λ bytes. (text_of (commands.Simulate number) bytes ≡ Err item) × (I.left input.new ≡ Some [])) }

    // Where it failed, nothing was put, but where out failed a front of the text.
    ensures untouched { (fault : Fault) → result ≡ Err fault → fault ≢ Fault.Write → out.new ≡ out.old }
    ensures front { result ≡ Err Fault.Write → IfSome (I.left input.old) (λ bytes. IfSome (O.written out.old)
        (λ before. (n : ℕ) × (text : List ℕ) × (text_of (commands.Simulate number) bytes ≡ Ok text)
        × (O.written out.new ≡ Some (before ++ take n text)))) }

    ensures too_long { IsErrOf result Fault.InputTooLong → GivesMore plan_limit (I.left input.old) (I.left input.new) }
    ensures read { IsErrOf result Fault.Read → Rose (I.faults input.old) (I.faults input.new) }
    ensures out_later { O.faults out.old ≤ O.faults out.new }
    ensures write { IsErrOf result Fault.Write → Rose (O.faults out.old) (O.faults out.new) }
    ensures words { IsErrOf result Fault.Usage → ⊥ }
    ensures hall { IsErrOf result Fault.Hall → ⊥ }
{
    let bytes = read_whole(alloc, input, PLAN_LIMIT)?;
    let plan = plan_from_toml(alloc, &bytes)?;
    let text = simulation_text(alloc, &plan, number)?;
    out.put(&text)?;
    Ok(())
}
