//! What a line is answered.

use floor_text::Refusal;
use level_plan::PlanItem;

/// The answer to a line.
#[derive(Clone, Copy, PartialEq, Eq)]
pub enum Answer {
    /// The event is accepted.
    Ok,
    /// The line is refused, and nothing changes.
    No(Refusal),
    /// The plan line is refused as wrong, or the plan at `go`, for this item, and nothing changes.
    PlanWrong(PlanItem),
}
