//! Laws of the hands that are played.

ghost use Rattle.std.specs.Prelude.{ℕ, ◌≡◌, ◌≢◌, List, true, Some, map, filter, is_some, ◌+◌, option_map, false};
ghost use Rattle.std.specs.Option.{ForSome};
ghost use Rattle.card_set.specs.declared.card.CardRow.{CardRow};
ghost use Rattle.seat_book.specs.Players.{sits_at};
ghost use Rattle.table_engine.specs.Starts.{IsLawfulStart};
ghost use Rattle.table_engine.specs.Plays.{IsLawfulPlay};
ghost use Rattle.table_engine.specs.declared.start.StartSeat.{StartSeat};
ghost use Rattle.table_engine.specs.Covers.{is_big_next, is_covered};
ghost use Rattle.table_engine.specs.Hands.{is_over, player_of};
ghost use Rattle.tournament_events.specs.declared.event.Event.{Event};
ghost use Rattle.tournament_events.specs.declared.event.Event.TheVariants.{Begin, Time, Settle};
ghost use Rattle.tournament_events.specs.declared.answer.Answer.TheVariants.{Ok};
ghost use Rattle.tournament_rules.specs.Books.{start_at, starters_of};
ghost use Rattle.tournament_rules.specs.Players.{is_among, is_in_hand, start_seat};
ghost use Rattle.tournament_rules.specs.Dealing.{next_start};
ghost use Rattle.tournament_rules.specs.States.{PlayState, first_state, hand_at, act_table, play_after, answer_to, run, state_after};
ghost use Rattle.tournament_rules.specs.Valid.{without_stack};
ghost use Rattle.tournament_rules.specs.Checks.{is_playing};
ghost use Rattle.tournament_rules.specs.Kinds.{is_begin};
ghost use Rattle.tournament_laws.specs.Accepted.{how_many_accepted};

/// Says that after any list of events, a hand that begins starts lawfully.
pub fn starts_are_lawful()
    ensures { (events : List Event) (table : ℕ) (row : CardRow) → ForSome (run first_state events).play (λ play.
        answer_to (run first_state events) (Begin table row) ≡ Ok
        → IsLawfulStart (next_start play.book table row.cards)) }
{}

/// Says that after any list of events, each hand that is played started lawfully, and its acts are a lawful play of
/// that start.
pub fn hands_are_lawful_plays()
    ensures start { (events : List Event) (table : ℕ) → ForSome (run first_state events).play (λ play.
        ForSome (hand_at play table) (λ hand. IsLawfulStart hand.start)) }
    ensures play { (events : List Event) (table : ℕ) → ForSome (run first_state events).play (λ play.
        ForSome (hand_at play table) IsLawfulPlay) }
{}

/// Says that after any list of events, the players who are in a hand are, in number, name and seat, those of its start,
/// and they have nothing at rest.
pub fn hands_have_their_players()
    ensures { (events : List Event) (table : ℕ) → ForSome (run first_state events).play (λ play.
        map start_seat (filter (is_in_hand play.book.started) (filter (sits_at table) play.book.seating.players))
        ≡ map without_stack (starters_of (start_at play.book.started table))) }
{}

/// Says that after any list of events, nobody is in hands at two tables.
pub fn nobody_is_dealt_in_at_two_tables()
    ensures { (events : List Event) (number table other : ℕ) → ForSome (run first_state events).play (λ play.
        is_among number (starters_of (start_at play.book.started table)) ≡ true
        → is_among number (starters_of (start_at play.book.started other)) ≡ true → table ≡ other) }
{}

/// Says that an act of a player and a called time change the acts of their own table's hand and nothing else: the book
/// stays as it is, and so does each hand at another table.
pub fn acts_stay_at_their_table()
    ensures book { (play : PlayState) (event : Event) (table : ℕ) → act_table event ≡ Some table
        → (play_after play event).book ≡ play.book }
    ensures others { (play : PlayState) (event : Event) (table other : ℕ) → act_table event ≡ Some table
        → other ≢ table → hand_at (play_after play event) other ≡ hand_at play other }
{}

/// Says that after any list of events, a table is playing exactly where the start of a hand is kept.
pub fn a_table_plays_where_a_hand_has_started()
    ensures { (events : List Event) (table : ℕ) → ForSome (run first_state events).play (λ play.
        is_playing play.book table ≡ is_some (start_at play.book.started table)) }
{}

/// Says that hands are numbered 1, 2 and so on as they begin: after any list of events as many hands have begun as
/// begins were accepted, and the next that is accepted has the next number.
pub fn hands_are_numbered_as_they_begin()
    ensures begun { (events : List Event) → ForSome (run first_state events).play (λ play.
        play.book.begun ≡ how_many_accepted is_begin first_state events) }
    ensures number { (before : List Event) (table : ℕ) (row : CardRow)
        → answer_to (run first_state before) (Begin table row) ≡ Ok
        → ForSome (state_after (run first_state before) (Begin table row)).play (λ play.
        option_map (λ start. start.serial) (start_at play.book.started table)
        ≡ Some (how_many_accepted is_begin first_state before + 1)) }
{}

/// Says that after any list of events, no hand that is played is stuck: while it is not over a called time is accepted,
/// and once it is over a settle is.
pub fn no_hand_gets_stuck()
    ensures time { (before : List Event) (table : ℕ) → ForSome (run first_state before).play (λ play.
        ForSome (hand_at play table) (λ hand. is_over hand ≡ false
        → answer_to (run first_state before) (Time table) ≡ Ok)) }
    ensures settle { (before : List Event) (table : ℕ) → ForSome (run first_state before).play (λ play.
        ForSome (hand_at play table) (λ hand. is_over hand ≡ true
        → answer_to (run first_state before) (Settle table) ≡ Ok)) }
{}

/// Says that after any list of events, nobody is dealt in between the small mark and the big one of a hand that is
/// played, and each of its players is covered: some live player has put in during the hand at least as much as he.
pub fn who_folds_in_a_tournament_is_covered()
    ensures next { (events : List Event) (table : ℕ) → ForSome (run first_state events).play (λ play.
        ForSome (hand_at play table) (λ hand. is_big_next hand.start ≡ true)) }
    ensures covered { (events : List Event) (table seat : ℕ) (player : StartSeat)
        → ForSome (run first_state events).play (λ play. ForSome (hand_at play table) (λ hand.
        player_of hand.start seat ≡ Some player → is_covered hand player ≡ true)) }
{}
