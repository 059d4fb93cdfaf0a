//! Laws of the tables: who may sit down and move where, and when a hand may begin.

ghost use Rattle.std.specs.Prelude.{ℕ, ◌≡◌, ◌≢◌, ◌+◌, ◌≤◌, List, [], true, false, None};
ghost use Rattle.std.specs.Option.{ForSome};
ghost use Rattle.card_set.specs.declared.card.CardRow.{CardRow};
ghost use Rattle.seat_book.specs.declared.place.Place.{Place};
ghost use Rattle.seat_book.specs.Players.{players_at};
ghost use Rattle.seat_book.specs.Counts.{count_at, is_open};
ghost use Rattle.seat_book.specs.Tables.{status_at};
ghost use Rattle.balance_rule.specs.declared.balance.Move.{Move};
ghost use Rattle.balance_rule.specs.Halting.{is_halted};
ghost use Rattle.balance_rule.specs.Moves.{Balance as ByBalance, Break as ByBreak, IsLawfulMove};
ghost use Rattle.tournament_events.specs.declared.event.Event.{Event};
ghost use Rattle.tournament_events.specs.declared.event.Event.TheVariants.{Enter, Reenter, Begin, Balance, Break, Hands};
ghost use Rattle.tournament_events.specs.declared.answer.Answer.TheVariants.{Ok};
ghost use Rattle.tournament_rules.specs.Books.{start_at};
ghost use Rattle.tournament_rules.specs.Checks.{may_be_entered, is_playing};
ghost use Rattle.tournament_rules.specs.States.{first_state, answer_to, state_after, run, players_of};
ghost use Rattle.tournament_rules.specs.Kinds.{ends_round};
ghost use Rattle.tournament_laws.specs.Accepted.{is_any_accepted};

/// Says that after any list of events and an entry or a re-entry that is accepted, its table has at most one player
/// more than any other that could be entered.
pub fn entries_go_to_the_fewest()
    ensures entry { (events : List Event) (name : List ℕ) (table seat other : ℕ)
        → ForSome (run first_state events).play (λ play.
        answer_to (run first_state events) (Enter name table seat) ≡ Ok → may_be_entered play.book other ≡ true
        → count_at (players_of (state_after (run first_state events) (Enter name table seat))) table
        ≤ count_at (players_of (state_after (run first_state events) (Enter name table seat))) other + 1) }
    ensures reentry { (events : List Event) (name : List ℕ) (table seat other : ℕ)
        → ForSome (run first_state events).play (λ play.
        answer_to (run first_state events) (Reenter name table seat) ≡ Ok → may_be_entered play.book other ≡ true
        → count_at (players_of (state_after (run first_state events) (Reenter name table seat))) table
        ≤ count_at (players_of (state_after (run first_state events) (Reenter name table seat))) other + 1) }
{}

/// Says that after any list of events, each balance and each break that is accepted is a lawful move where it stands.
pub fn moves_are_lawful()
    ensures balances { (events : List Event) (from to : ℕ) → ForSome (run first_state events).play (λ play.
        answer_to (run first_state events) (Balance from to) ≡ Ok
        → (move_ : Move) × IsLawfulMove play.book.seating (ByBalance from to move_)) }
    ensures breaks { (events : List Event) (table : ℕ) (places : List Place) (names : List (List ℕ))
        → ForSome (run first_state events).play (λ play.
        answer_to (run first_state events) (Break table places names) ≡ Ok
        → IsLawfulMove play.book.seating (ByBreak table places names)) }
{}

/// Says that after any list of events and a break that is accepted, nobody sits at the table that broke.
pub fn a_broken_table_is_left()
    ensures { (events : List Event) (table : ℕ) (places : List Place) (names : List (List ℕ))
        → ForSome (run first_state events).play (λ play.
        answer_to (run first_state events) (Break table places names) ≡ Ok
        → players_at (players_of (state_after (run first_state events) (Break table places names))) table ≡ []) }
{}

/// Says that after any list of events, a table that is not open has no players, no hand, no marks and no pending race.
pub fn a_table_that_is_not_open_is_bare()
    ensures players { (events : List Event) (table : ℕ) → ForSome (run first_state events).play (λ play.
        is_open play.book.seating.players table ≡ false → players_at play.book.seating.players table ≡ []) }
    ensures hand { (events : List Event) (table : ℕ) → ForSome (run first_state events).play (λ play.
        is_open play.book.seating.players table ≡ false → start_at play.book.started table ≡ None) }
    ensures marks { (events : List Event) (table : ℕ) → ForSome (run first_state events).play (λ play.
        is_open play.book.seating.players table ≡ false → (status_at play.book.seating.tables table).marks ≡ None) }
    ensures race { (events : List Event) (table : ℕ) → ForSome (run first_state events).play (λ play.
        is_open play.book.seating.players table ≡ false → (status_at play.book.seating.tables table).race ≡ None) }
{}

/// Says that after any list of events, a halted table begins no hand: it waits until the gap is smaller.
pub fn halted_tables_wait()
    ensures { (events : List Event) (table : ℕ) (row : CardRow) → ForSome (run first_state events).play (λ play.
        is_halted play.book.seating table ≡ true → answer_to (run first_state events) (Begin table row) ≢ Ok) }
{}

/// Says that after any list of events, a table that begins a hand while hand-for-hand is on begins no other before the
/// end of a round is accepted. Nor does a table that plays as hand-for-hand is switched on.
pub fn a_table_begins_once_in_a_round()
    ensures once { (before between : List Event) (table : ℕ) (row other : CardRow)
        → ForSome (run first_state before).play (λ play. play.book.seating.hands ≡ true
        → answer_to (run first_state before) (Begin table row) ≡ Ok
        → is_any_accepted ends_round (state_after (run first_state before) (Begin table row)) between ≡ false
        → answer_to (run (state_after (run first_state before) (Begin table row)) between) (Begin table other) ≢ Ok) }
    ensures playing { (before between : List Event) (table : ℕ) (row : CardRow)
        → ForSome (run first_state before).play (λ play. is_playing play.book table ≡ true
        → answer_to (run first_state before) (Hands true) ≡ Ok
        → is_any_accepted ends_round (state_after (run first_state before) (Hands true)) between ≡ false
        → answer_to (run (state_after (run first_state before) (Hands true)) between) (Begin table row) ≢ Ok) }
{}
