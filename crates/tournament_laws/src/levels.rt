//! Laws of levels, units and chip races.

ghost use Rattle.std.specs.Prelude.{ℕ, ◌≡◌, ◌≢◌, List, true, false, None, ◌≤◌, length};
ghost use Rattle.std.specs.Option.{ForSome};
ghost use Rattle.level_plan.specs.Plans.{unit_of_level};
ghost use Rattle.level_plan.specs.Items.{is_between};
ghost use Rattle.card_set.specs.declared.card.CardRow.{CardRow};
ghost use Rattle.seat_book.specs.Players.{players_at};
ghost use Rattle.seat_book.specs.Tables.{status_at};
ghost use Rattle.tournament_events.specs.declared.event.Event.{Event};
ghost use Rattle.tournament_events.specs.declared.event.Event.TheVariants.{Level, Race};
ghost use Rattle.tournament_events.specs.declared.answer.Answer.TheVariants.{Ok};
ghost use Rattle.tournament_rules.specs.Books.{has_table};
ghost use Rattle.tournament_rules.specs.States.{PlayState, first_state, hand_at, play_after, answer_to, state_after, run};
ghost use Rattle.tournament_rules.specs.Kinds.{is_level};
ghost use Rattle.tournament_rules.specs.Units.{IsRaceTo};
ghost use Rattle.tournament_laws.specs.Accepted.{is_any_accepted};

/// Says that after any list of events, a table where no race is pending has the unit of the current level. A race that
/// is pending goes to that unit, from a smaller one after which it may come next.
pub fn units_follow_the_level()
    ensures own { (events : List Event) (table : ℕ) → ForSome (run first_state events).play (λ play.
        has_table play.book table ≡ true → (status_at play.book.seating.tables table).race ≡ None
        → (status_at play.book.seating.tables table).unit ≡ unit_of_level play.book.plan.blinds play.book.level) }
    ensures new { (events : List Event) (table : ℕ) → ForSome (run first_state events).play (λ play.
        has_table play.book table ≡ true → ForSome (status_at play.book.seating.tables table).race (λ unit.
        unit ≡ unit_of_level play.book.plan.blinds play.book.level)) }
    ensures from { (events : List Event) (table : ℕ) → ForSome (run first_state events).play (λ play.
        has_table play.book table ≡ true → ForSome (status_at play.book.seating.tables table).race (λ unit.
        IsRaceTo unit (status_at play.book.seating.tables table).unit)) }
{}

/// Says that a level changes no hand that is played and no stack at rest.
pub fn a_level_changes_no_hand()
    ensures hands { (play : PlayState) (table : ℕ) → hand_at (play_after play Level) table ≡ hand_at play table }
    ensures players { (play : PlayState)
        → (play_after play Level).book.seating.players ≡ play.book.seating.players }
{}

/// Says that a chip race changes no other table: how it stands, who sits there and with which stacks. It changes no
/// hand.
pub fn a_race_changes_no_other_table()
    ensures tables { (play : PlayState) (table other : ℕ) (row : CardRow) → other ≢ table
        → status_at (play_after play (Race table row)).book.seating.tables other
        ≡ status_at play.book.seating.tables other }
    ensures players { (play : PlayState) (table other : ℕ) (row : CardRow) → other ≢ table
        → players_at (play_after play (Race table row)).book.seating.players other
        ≡ players_at play.book.seating.players other }
    ensures hands { (play : PlayState) (table other : ℕ) (row : CardRow)
        → hand_at (play_after play (Race table row)) other ≡ hand_at play other }
{}

/// Says that after any list of events, a table where a race was accepted has no other one before a level is accepted.
pub fn a_table_races_once_between_levels()
    ensures { (before between : List Event) (table : ℕ) (row other : CardRow)
        → answer_to (run first_state before) (Race table row) ≡ Ok
        → is_any_accepted is_level (state_after (run first_state before) (Race table row)) between ≡ false
        → answer_to (run (state_after (run first_state before) (Race table row)) between) (Race table other) ≢ Ok }
{}

/// Says that the level never falls, that it is one of the plan, and that the plan stays as it is.
pub fn levels_follow_the_plan()
    ensures never_falls { (before after : List Event) → ForSome (run first_state before).play (λ earlier.
        ForSome (run (run first_state before) after).play (λ later. earlier.book.level ≤ later.book.level)) }
    ensures listed { (events : List Event) → ForSome (run first_state events).play (λ play.
        is_between 1 (length play.book.plan.blinds) play.book.level ≡ true) }
    ensures same_plan { (before after : List Event) → ForSome (run first_state before).play (λ earlier.
        ForSome (run (run first_state before) after).play (λ later. later.book.plan ≡ earlier.book.plan)) }
{}
