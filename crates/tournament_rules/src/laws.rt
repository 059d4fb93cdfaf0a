//! What holds of a tournament at every moment.

ghost use Rattle.std.specs.Prelude.{List};
ghost use Rattle.tournament_events.specs.declared.event.Event.{Event};
ghost use Rattle.tournament_rules.specs.States.{first_state, run};
ghost use Rattle.tournament_rules.specs.Valid.{IsValidState};

/// Says that after any list of events, lawful or not, the state is valid: what `IsValidState` says of the plan, the
/// entries, the tables, the hands, those who are out, the chips and the units holds.
pub fn a_state_stays_valid()
    ensures { (events : List Event) → IsValidState (run first_state events) }
{}
