//! Laws of the chips: they are kept, and who has them.

ghost use Rattle.std.specs.Prelude.{◌≡◌, ◌≢◌, ◌+◌, ◌<◌, ◌%◌, List, [], ◌∷◌, true, false, map, ℕ, length};
ghost use Rattle.std.specs.List.{All};
ghost use Rattle.std.specs.Option.{ForSome};
ghost use Rattle.card_set.specs.declared.card.CardRow.{CardRow};
ghost use Rattle.seat_book.specs.Tables.{status_at};
ghost use Rattle.tournament_events.specs.declared.event.Event.{Event};
ghost use Rattle.tournament_events.specs.declared.answer.Answer.TheVariants.{Ok};
ghost use Rattle.tournament_events.specs.declared.event.Event.TheVariants.{Race, Enter, Reenter, Begin, Settle};
ghost use Rattle.tournament_rules.specs.Players.{is_in_hand, is_among};
ghost use Rattle.tournament_rules.specs.Checks.{is_over_for_all};
ghost use Rattle.tournament_rules.specs.States.{State, first_state, answer_to, state_after, run, players_of};
ghost use Rattle.tournament_rules.specs.Chips.{sold, removed, added, rest, play, sold_by, rest_in, rest_at};
ghost use Rattle.tournament_rules.specs.Kinds.{is_entry, is_race};
ghost use Rattle.tournament_rules.specs.Racing.{race_at};
ghost use Rattle.tournament_rules.specs.Books.{number_in, start_at, starters_of};
ghost use Rattle.tournament_rules.specs.Dealing.{next_start};
ghost use Rattle.tournament_laws.specs.Stacks.{stack_at_rest, moves_chips};

/// Says that after any list of events, lawful or not, the chips at rest, those in play and those that races took away
/// are those sold and those that races gave.
pub fn chips_are_kept()
    ensures { (events : List Event)
        → rest (run first_state events) + play (run first_state events) + removed (run first_state events)
        ≡ sold (run first_state events) + added (run first_state events) }
{}

/// Says that chips are sold by an entry or a re-entry alone, and that races alone take chips away and give some: what
/// is sold, removed or added is the same after every other event, and after each that is refused.
pub fn entries_and_races_alone_change_the_chips()
    ensures sold { (state : State) (event : Event) → is_entry event ≡ false
        → sold (state_after state event) ≡ sold state }
    ensures removed { (state : State) (event : Event) → is_race event ≡ false
        → removed (state_after state event) ≡ removed state }
    ensures added { (state : State) (event : Event) → is_race event ≡ false
        → added (state_after state event) ≡ added state }
    ensures refused { (state : State) (event : Event) → answer_to state event ≢ Ok → state_after state event ≡ state }
{}

/// Says that after any list of events, a player who sits and is in no started hand has a stack above 0 that is a
/// multiple of the table's unit.
pub fn stacks_are_lawful()
    ensures above { (events : List Event) → ForSome (run first_state events).play (λ play.
        All (λ player. is_in_hand play.book.started player ≡ false → 0 < player.stack) play.book.seating.players) }
    ensures multiple { (events : List Event) → ForSome (run first_state events).play (λ play.
        All (λ player. player.stack % (status_at play.book.seating.tables player.place.table).unit ≡ 0)
        play.book.seating.players) }
{}

/// Says that after any list of events, where the tournament is over one player is in, with all chips: those that were
/// sold and those that races gave, but for those that races took away.
pub fn the_last_player_has_all_chips()
    ensures { (events : List Event) → ForSome (run first_state events).play (λ play.
        is_over_for_all play.book ≡ true → map (λ player. player.stack + play.book.removed) play.book.seating.players
        ≡ (sold_by play.book + play.book.added) ∷ []) }
{}

/// Says that after any list of events, a race that is accepted changes the chips at rest, at its table and in all, by
/// just what it takes away and gives, and that this is recorded.
pub fn a_race_changes_the_chips_by_what_it_records()
    ensures table { (before : List Event) (table : ℕ) (row : CardRow)
        → ForSome (run first_state before).play (λ earlier.
        answer_to (run first_state before) (Race table row) ≡ Ok
        → ForSome (state_after (run first_state before) (Race table row)).play (λ later.
        rest_at later.book table + (race_at earlier.book.seating table row.cards).removed
        ≡ rest_at earlier.book table + (race_at earlier.book.seating table row.cards).added)) }
    ensures all { (before : List Event) (table : ℕ) (row : CardRow) → ForSome (run first_state before).play (λ earlier.
        answer_to (run first_state before) (Race table row) ≡ Ok
        → ForSome (state_after (run first_state before) (Race table row)).play (λ later.
        rest_in later.book + (race_at earlier.book.seating table row.cards).removed
        ≡ rest_in earlier.book + (race_at earlier.book.seating table row.cards).added)) }
    ensures removed { (before : List Event) (table : ℕ) (row : CardRow)
        → ForSome (run first_state before).play (λ earlier. answer_to (run first_state before) (Race table row) ≡ Ok
        → ForSome (state_after (run first_state before) (Race table row)).play (λ later.
        later.book.removed ≡ earlier.book.removed + (race_at earlier.book.seating table row.cards).removed)) }
    ensures added { (before : List Event) (table : ℕ) (row : CardRow)
        → ForSome (run first_state before).play (λ earlier. answer_to (run first_state before) (Race table row) ≡ Ok
        → ForSome (state_after (run first_state before) (Race table row)).play (λ later.
        later.book.added ≡ earlier.book.added + (race_at earlier.book.seating table row.cards).added)) }
{}

/// Says that after any list of events, moves, acts, rounds and levels leave the stack at rest of each player, that an
/// entry leaves those of all who are in, a re-entry those of all but the player who re-enters, a begin those of all who
/// are not dealt in, and a settle those of all who are not in its hand. A player goes by his number; who is out or has
/// not entered has no stack.
pub fn stacks_are_moved_by_their_own_events_alone()
    ensures others { (before : List Event) (event : Event) (number : ℕ) → moves_chips event ≡ false
        → stack_at_rest (players_of (state_after (run first_state before) event)) number
        ≡ stack_at_rest (players_of (run first_state before)) number }
    ensures entry { (before : List Event) (name : List ℕ) (table seat number : ℕ)
        → ForSome (run first_state before).play (λ play. number ≢ length play.book.entries)
        → stack_at_rest (players_of (state_after (run first_state before) (Enter name table seat))) number
        ≡ stack_at_rest (players_of (run first_state before)) number }
    ensures reentry { (before : List Event) (name : List ℕ) (table seat number : ℕ)
        → ForSome (run first_state before).play (λ play. number ≢ number_in play.book name)
        → stack_at_rest (players_of (state_after (run first_state before) (Reenter name table seat))) number
        ≡ stack_at_rest (players_of (run first_state before)) number }
    ensures begin { (before : List Event) (table number : ℕ) (row : CardRow)
        → ForSome (run first_state before).play (λ play.
        is_among number (next_start play.book table row.cards).seats ≡ false)
        → stack_at_rest (players_of (state_after (run first_state before) (Begin table row))) number
        ≡ stack_at_rest (players_of (run first_state before)) number }
    ensures settle { (before : List Event) (table number : ℕ)
        → ForSome (run first_state before).play (λ play.
        is_among number (starters_of (start_at play.book.started table)) ≡ false)
        → stack_at_rest (players_of (state_after (run first_state before) (Settle table))) number
        ≡ stack_at_rest (players_of (run first_state before)) number }
{}
