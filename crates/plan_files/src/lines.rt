//! The lines of a plan.

ghost use Rattle.std.specs.Prelude.{◌≡◌, ◌++◌, map, Ok, IfOk, OnOk};
ghost use Rattle.level_plan.specs.Drafts.{empty_draft};
ghost use Rattle.plan_files.specs.PlanLines.{limit_lines, lines_of_plan, plan_of_lines};

use floor_text::List;
use level_plan::{Blind, Plan, PlanLine};
use std::alloc::{AllocError, Global};

/// Gives the lines of a plan in the order of its items, and last that of its fixed limit, if it has one. A draft that
/// is given these lines, and then the end of the plan, makes this plan again.
pub fn plan_lines(alloc: Global, plan: &Plan) -> Result<Vec<PlanLine>, AllocError>
    ensures lines { IfOk result (λ lines. lines.items ≡ lines_of_plan plan.now) }
    ensures again { IfOk result (λ lines. plan_of_lines empty_draft lines.items ≡ Ok plan.now) }
{
    let mut lines = Vec::new(alloc);
    lines.push(PlanLine::Game(plan.game))?;
    lines.push(PlanLine::Tables(plan.tables))?;
    lines.push(PlanLine::Seats(plan.seats))?;
    lines.push(PlanLine::Stack(plan.stack))?;
    lines.push(PlanLine::Buyin(plan.buyin))?;
    lines.push(PlanLine::Late(plan.late))?;
    push_levels(&mut lines, plan.blinds.items())?;
    let shares = Vec::from_slice(alloc, plan.shares.items())?;
    lines.push(PlanLine::Shares(List::from_vec(shares)))?;
    push_limit(&mut lines, plan.cap)?;
    Ok(lines)
}

/// Puts a line for each level behind the lines.
fn push_levels(lines: &mut Vec<PlanLine>, blinds: &[Blind]) -> Result<(), AllocError>
    ensures { OnOk result (lines.new.items ≡ lines.old.items ++ map PlanLine.Blinds blinds.now) }
{
    for blind in blinds {
        lines.push(PlanLine::Blinds(*blind))?;
    }
    Ok(())
}

/// Puts a line for the fixed limit behind the lines, where there is one.
fn push_limit(lines: &mut Vec<PlanLine>, cap: u64) -> Result<(), AllocError>
    ensures { OnOk result (lines.new.items ≡ lines.old.items ++ limit_lines cap) }
{
    if cap > 0 {
        lines.push(PlanLine::Limit(cap))?;
    }
    Ok(())
}
