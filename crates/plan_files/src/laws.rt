//! A law of plan files.

ghost use Rattle.std.specs.Prelude.{◌≡◌, true, Ok};
ghost use Rattle.toml.specs.Data.{Members};
ghost use Rattle.level_plan.specs.Plans.{PlanTerms, is_right};
ghost use Rattle.plan_files.specs.PlanFiles.{given, plan_in};
ghost use Rattle.plan_files.specs.PlanLines.{whole_draft};

/// A file that gives each item of a right plan is read as this plan, whatever else it says.
pub fn a_right_plan_is_read()
    ensures { (file : Members) (plan : PlanTerms) → is_right plan ≡ true → given file ≡ whole_draft plan
        → plan_in file ≡ Ok plan }
{}
