//! Plans of a tournament, given line by line.
//!
//! It stands on floor_text, card_set and rulebook. `PlanDraft::line` takes a plan line, or names its item where the
//! line is wrong and changes nothing. `PlanDraft::go` names the first item that is missing or wrong, else gives the
//! `Plan`, which is right by its type.
#![tactic(auto)]

mod bounds;
mod checks;
mod draft;
mod line;
mod plan;

pub use bounds::{
    FEWEST_SEATS, GREATEST_AMOUNT, MOST_LEVELS, MOST_SHARES, MOST_WAGERS, WHOLE_POOL,
};
pub use draft::PlanDraft;
pub use line::{PlanFault, PlanItem, PlanLine};
pub use plan::{Blind, Plan};
