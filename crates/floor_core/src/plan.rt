//! The lines of the plan and its end.

ghost use Rattle.std.specs.Prelude.{◌≡◌, if◌then◌else◌, IfOk, OnOk, OnErr};
ghost use Rattle.tournament_events.specs.declared.answer.Answer.TheVariants as answers;
ghost use Rattle.tournament_events.specs.declared.event.Event.TheVariants as events;
ghost use Rattle.level_plan.specs.Drafts.{draft_after};
ghost use Rattle.tournament_rules.specs.States.{is_accepted, planning_answer};

use level_plan::{Plan, PlanDraft, PlanFault, PlanLine};
use std::alloc::AllocError;
use tournament_events::Answer;

/// Takes a line of the plan. A refusal and want of memory leave the draft as it was.
pub(crate) fn take_line(draft: &mut PlanDraft, line: &PlanLine) -> Result<Answer, AllocError>
    ensures answer { IfOk result (λ answer. answer ≡ planning_answer draft.old (events.Plan line.now)) }
    ensures state { OnOk result (draft.new ≡ (if is_accepted (planning_answer draft.old (events.Plan line.now))
        then draft_after draft.old line.now else draft.old)) }
    ensures err { OnErr result (draft.new ≡ draft.old) }
    ensures lawful { OnErr result (planning_answer draft.old (events.Plan line.now) ≡ answers.Ok) }
{
    match draft.line(line) {
        Ok(()) => Ok(Answer::Ok),
        Err(PlanFault::Wrong(item)) => Ok(Answer::PlanWrong(item)),
        Err(PlanFault::NoMemory) => Err(AllocError),
    }
}
