//! Laws of the orders that are owed, and of simulated tournaments, over every right plan and every seed.

ghost use Rattle.std.specs.Prelude.{◌≡◌, ◌<◌, ◌≤◌, ◌^◌, ℕ, true, false, List, [], ◌∷◌, ◌++◌, length, Some, None};
ghost use Rattle.seat_book.specs.Seatings.{Seating, IsSeating};
ghost use Rattle.std.specs.List.{All};
ghost use Rattle.std.specs.Option.{option_map_or};
ghost use Rattle.level_plan.specs.Plans.{PlanTerms, is_right};
ghost use Rattle.tournament_events.specs.declared.answer.Answer.TheVariants.{Ok};
ghost use Rattle.tournament_events.specs.declared.event.Event.{Event};
ghost use Rattle.tournament_events.specs.declared.event.Event.TheVariants.{Stop};
ghost use Rattle.floor_director.specs.Orders.{next_order};
ghost use Rattle.tournament_rules.specs.Books.{BookState};
ghost use Rattle.tournament_rules.specs.Checks.{book_refusal};
ghost use Rattle.tournament_rules.specs.States.{answers, book_after, first_state, run};
ghost use Rattle.tournament_rules.specs.Valid.{IsValid};
ghost use Rattle.simulation_rules.specs.Effort.{effort_of_orders};
ghost use Rattle.simulation_rules.specs.Runs.{simulated_run};

/// Says that an order that is owed is accepted while the tournament goes on.
pub fn an_owed_order_is_accepted()
    ensures { (book : BookState) (seed : List ℕ) (number : ℕ) (order : Event) → IsValid book → book.stopped ≡ false
        → next_order book.seating seed number ≡ Some order → book_refusal book order ≡ None }
{}

/// Says that taking one owed order after another comes to an end. Each closes a table and opens none, or keeps all
/// tables open and narrows the spread of their counts, so that a number falls which is at most 416,064.
pub fn owed_orders_come_to_an_end()
    ensures falls { (book : BookState) (seed : List ℕ) (number : ℕ) (order : Event) → IsValid book
        → book.stopped ≡ false → next_order book.seating seed number ≡ Some order
        → effort_of_orders (book_after book order).seating < effort_of_orders book.seating }
    ensures few { (seating : Seating) → IsSeating seating → effort_of_orders seating ≤ 416064 }
{}

/// Says that each event of a simulated tournament is accepted: the lines of its plan, and all that follow them.
pub fn a_simulated_event_is_accepted()
    ensures { (seed : List ℕ) (plan : PlanTerms) → is_right plan ≡ true
        → All (λ answer. answer ≡ Ok) (answers first_state (simulated_run seed plan)) }
{}

/// Says that a simulated tournament comes to its end: after its events it is stopped, the last of them is the stop, and
/// there are fewer than 2 ^ 60 of them.
pub fn a_simulation_ends()
    ensures stopped { (seed : List ℕ) (plan : PlanTerms) → is_right plan ≡ true
        → option_map_or (λ play. play.book.stopped) (run first_state (simulated_run seed plan)).play false ≡ true }
    ensures last { (seed : List ℕ) (plan : PlanTerms) → is_right plan ≡ true
        → (front : List Event) × (simulated_run seed plan ≡ front ++ Stop ∷ []) }
    ensures few { (seed : List ℕ) (plan : PlanTerms) → is_right plan ≡ true
        → length (simulated_run seed plan) < 2 ^ 60 }
{}
