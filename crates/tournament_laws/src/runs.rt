//! Laws of whole lists of events: other forms and orders of them come to the same.

ghost use Rattle.std.specs.Prelude.{ℕ, ◌≡◌, List, [], ◌∷◌, true, false, Some, None, ◌≢◌};
ghost use Rattle.level_plan.specs.Plans.{PlanTerms, is_right};
ghost use Rattle.level_plan.specs.Drafts.{plan_of};
ghost use Rattle.tournament_events.specs.declared.event.Event.{Event};
ghost use Rattle.tournament_events.specs.declared.event.Event.TheVariants.{Go, Stop};
ghost use Rattle.tournament_events.specs.declared.answer.Answer.TheVariants.{Ok};
ghost use Rattle.tournament_rules.specs.States.{first_state, first_play, act_table, answer_to, answers, answers_in_play, run_in_play, state_after, run, State};
ghost use Rattle.tournament_rules.specs.Report.{book_report, report_of};
ghost use Rattle.tournament_rules.specs.Apart.{first_apart, answers_apart, run_apart, seen_of};
ghost use Rattle.tournament_laws.specs.Orders.{is_of_hands, HaveOneOrder};
ghost use Rattle.tournament_laws.specs.Accepted.{are_accepted};

/// Says that a book and the hands that are played, each by itself, run over any list of events, answer as the
/// tournament does, come to the state that it comes to, and report what it reports: as one that begins with the plan,
/// and as any whose plan an accepted `go` has just made whole.
pub fn a_book_and_its_hands_answer_alike()
    ensures plan { (plan : PlanTerms) (events : List Event) → is_right plan ≡ true
        → answers_apart (first_apart plan) events ≡ answers_in_play (first_play plan) events }
    ensures plan_state { (plan : PlanTerms) (events : List Event) → is_right plan ≡ true
        → seen_of (run_apart (first_apart plan) events) ≡ run_in_play (first_play plan) events }
    ensures tournament { (before events : List Event) → (run first_state before).play ≡ None
        → answer_to (run first_state before) Go ≡ Ok
        → answers_apart (first_apart (plan_of (run first_state before).draft)) events
        ≡ answers (state_after (run first_state before) Go) events }
    ensures state { (before events : List Event) → (run first_state before).play ≡ None
        → answer_to (run first_state before) Go ≡ Ok
        → (run (state_after (run first_state before) Go) events).play
        ≡ Some (seen_of (run_apart (first_apart (plan_of (run first_state before).draft)) events)) }
    ensures report { (before events : List Event) → (run first_state before).play ≡ None
        → answer_to (run first_state before) Go ≡ Ok
        → report_of (run (state_after (run first_state before) Go) events)
        ≡ book_report (run_apart (first_apart (plan_of (run first_state before).draft)) events).book }
{}

/// Says that an act or a called time and a neighbor that is not of the hands at its table may change places, whichever
/// of the two comes first: where both are accepted, both are accepted again, and the state after them is the same.
pub fn neighbors_may_change_places()
    ensures accepted { (before : List Event) (act other : Event) (table : ℕ) → act_table act ≡ Some table
        → is_of_hands table other ≡ false
        → are_accepted (run first_state before) (act ∷ other ∷ [])
        ≡ are_accepted (run first_state before) (other ∷ act ∷ []) }
    ensures after { (before : List Event) (act other : Event) (table : ℕ) → act_table act ≡ Some table
        → is_of_hands table other ≡ false
        → are_accepted (run first_state before) (act ∷ other ∷ []) ≡ true
        → run (run first_state before) (act ∷ other ∷ []) ≡ run (run first_state before) (other ∷ act ∷ []) }
{}

/// Says that where every event of a list is accepted, every event of a list with the same order is accepted, and both
/// end in the same state, with the same report.
pub fn one_order_has_one_end()
    ensures accepted { (one other : List Event) → HaveOneOrder one other
        → are_accepted first_state one ≡ true → are_accepted first_state other ≡ true }
    ensures after { (one other : List Event) → HaveOneOrder one other
        → are_accepted first_state one ≡ true → run first_state one ≡ run first_state other }
    ensures report { (one other : List Event) → HaveOneOrder one other
        → are_accepted first_state one ≡ true
        → report_of (run first_state one) ≡ report_of (run first_state other) }
{}

/// Says that after an accepted `stop` no event is accepted, and none changes the state.
pub fn nothing_follows_a_stop()
    ensures refused { (state : State) (after : List Event) (event : Event) → answer_to state Stop ≡ Ok
        → answer_to (run (state_after state Stop) after) event ≢ Ok }
    ensures unchanged { (state : State) (after : List Event) → answer_to state Stop ≡ Ok
        → run (state_after state Stop) after ≡ state_after state Stop }
{}
