//! Laws of the cards that are shown to a player, and of the lines that he is told.

ghost use Rattle.std.specs.Prelude.{◌≡◌, ◌≢◌, ℕ, List, ◌∷◌, ◌++◌, filter, All, Contains, Some, None};
ghost use Rattle.std.specs.Option.{ForSome};
ghost use Rattle.card_set.specs.declared.card.CardRow.{CardRow};
ghost use Rattle.table_engine.specs.declared.start.StartSeat.{StartSeat};
ghost use Rattle.table_engine.specs.Hands.{HandTerms};
ghost use Rattle.table_engine.specs.Starts.{IsLawfulStart};
ghost use Rattle.tournament_events.specs.declared.event.Event.{Event};
ghost use Rattle.tournament_events.specs.declared.event.Event.TheVariants.{Begin};
ghost use Rattle.tournament_rules.specs.States.{first_state, answers, state_after, run};
ghost use Rattle.tournament_rules.specs.Report.{report_of};
ghost use Rattle.view_rules.specs.Shown.{Viewer, hole_places, places_shown};
ghost use Rattle.view_rules.specs.Seen.{cards_at};
ghost use Rattle.view_rules.specs.Agreeing.{AgreeFor, hand_left, places_shown_in};
ghost use Rattle.view_rules.specs.Views.{lines_seen_by};
ghost use Rattle.view_laws.specs.Apart.{AreApart};
ghost use Rattle.view_laws.specs.OwnLines.{is_for_all};
ghost use Rattle.view_laws.specs.CardsTold.{cards_told, cards_shown_at, lines_after};
ghost use Rattle.view_laws.specs.OtherDecks.{CouldBe, CouldChange};
ghost use Rattle.view_laws.specs.Folded.{HasFolded};

/// Says that two lists of events that agree on all that a player may see, or on all that everybody may, are answered
/// alike, end in the same report, and are told alike to him: no answer, no report and no line of his tells anything of
/// a card that is not shown to him.
pub fn agreeing_lists_are_told_alike()
    ensures answers { (who : Viewer) (events entries : List Event) → AgreeFor who events entries
        → answers first_state events ≡ answers first_state entries }
    ensures report { (who : Viewer) (events entries : List Event) → AgreeFor who events entries
        → report_of (run first_state events) ≡ report_of (run first_state entries) }
    ensures lines { (who : Viewer) (events entries : List Event) → AgreeFor who events entries
        → lines_seen_by who events ≡ lines_seen_by who entries }
{}

/// Says that what is shown stays shown: of the hand that is played at a table, each place of the deck that a list of
/// events comes to show to a player is shown to him by the list with more events behind it.
pub fn what_is_shown_stays_shown()
    ensures { (who : Viewer) (before events more : List Event) (table : ℕ)
        → All (Contains (places_shown_in who (run first_state before) table (events ++ more)))
        (places_shown_in who (run first_state before) table events) }
{}

/// Says that a player is told what everybody is told, in the same order, and beside that his own hole cards alone.
pub fn a_player_is_told_what_all_are_told()
    ensures { (who : Viewer) (events : List Event)
        → filter is_for_all (lines_seen_by who events) ≡ lines_seen_by None events }
{}

/// Says that the lines of an event tell no card but those that are shown: each card that they tell of a table is shown
/// to whoever is told, of the hand that is played there after the event.
pub fn lines_tell_cards_that_are_shown()
    ensures { (who : Viewer) (before : List Event) (event : Event) (table : ℕ)
        → All (Contains (cards_shown_at who (state_after (run first_state before) event) table))
        (cards_told table (lines_after who before event)) }
{}

/// Says that a card that is not shown to a player could have been any other, as far as he can tell: with another deck
/// that has the same cards at all places that come to be shown to him of a hand, each event is answered as it was, and
/// he is told the same. Any two cards that are not shown to him could have changed places.
pub fn a_card_that_is_not_shown_could_be_any_other()
    ensures answers { (who : Viewer) (before behind : List Event) (table : ℕ) (row other : CardRow)
        → CouldBe who before table row other behind
        → answers first_state (before ++ Begin table row ∷ behind)
        ≡ answers first_state (before ++ Begin table other ∷ behind) }
    ensures report { (who : Viewer) (before behind : List Event) (table : ℕ) (row other : CardRow)
        → CouldBe who before table row other behind
        → report_of (run first_state (before ++ Begin table row ∷ behind))
        ≡ report_of (run first_state (before ++ Begin table other ∷ behind)) }
    ensures lines { (who : Viewer) (before behind : List Event) (table : ℕ) (row other : CardRow)
        → CouldBe who before table row other behind
        → lines_seen_by who (before ++ Begin table row ∷ behind)
        ≡ lines_seen_by who (before ++ Begin table other ∷ behind) }
    ensures changed { (who : Viewer) (before behind : List Event) (table : ℕ) (row other : CardRow) (one two : ℕ)
        → CouldChange who before table row other one two behind → CouldBe who before table row other behind }
{}

/// Says that no card of a player who has folded is shown to anybody else: no place of the deck from which he got a hole
/// card is among those that his hand shows to others, nor among those that a list of events comes to show of it. So no
/// line that tells others of an event of a hand in which he folds tells one of his cards.
pub fn who_folds_shows_no_card()
    ensures hand { (who : Viewer) (hand : HandTerms) (player : StartSeat) → IsLawfulStart hand.start
        → HasFolded hand player → who ≢ Some player.name
        → AreApart (hole_places hand.start player.seat) (places_shown who hand) }
    ensures events { (who : Viewer) (before events : List Event) (table : ℕ)
        → ForSome (hand_left (run first_state before) table events) (λ hand. (player : StartSeat)
        → HasFolded hand player → who ≢ Some player.name
        → AreApart (hole_places hand.start player.seat) (places_shown who hand)) }
    ensures lines { (who : Viewer) (before : List Event) (event : Event) (behind : List Event) (table : ℕ)
        → ForSome (hand_left (state_after (run first_state before) event) table behind) (λ hand. (player : StartSeat)
        → HasFolded hand player → who ≢ Some player.name
        → AreApart (cards_at hand.start (hole_places hand.start player.seat))
        (cards_told table (lines_after who before event))) }
{}
