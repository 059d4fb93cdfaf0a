//! Laws of the players: who is in, and who went out.

ghost use Rattle.std.specs.Prelude.{ℕ, ◌≡◌, ◌≢◌, ◌⊎◌, ◌+◌, ◌<◌, nat_le, if◌then◌else◌, List, true, false, Some, length, take, count_by, slice_get, Contains};
ghost use Rattle.std.specs.List.{All};
ghost use Rattle.std.specs.Option.{ForSome, option_map_or};
ghost use Rattle.entry_list.specs.Entries.{is_known};
ghost use Rattle.std.specs.Str.{bytes_eq};
ghost use Rattle.rulebook.specs.Pairs.{is_pairwise, are_distinct};
ghost use Rattle.card_set.specs.declared.card.Card.{Card};
ghost use Rattle.betting_round.specs.declared.act.Act.{Act};
ghost use Rattle.place_list.specs.declared.bust.Bust.{Bust};
ghost use Rattle.place_list.specs.Places.{is_ahead, place_of, taken_back};
ghost use Rattle.seat_book.specs.Players.{is_numbered, are_in_order};
ghost use Rattle.tournament_events.specs.declared.event.Event.{Event};
ghost use Rattle.tournament_events.specs.declared.event.Event.TheVariants.{Act as Acts, Settle, Enter, Reenter};
ghost use Rattle.tournament_events.specs.declared.answer.Answer.TheVariants.{Ok};
ghost use Rattle.tournament_rules.specs.Books.{number_in, start_at, starters_of};
ghost use Rattle.tournament_rules.specs.Players.{is_among};
ghost use Rattle.tournament_rules.specs.Dealing.{next_start};
ghost use Rattle.tournament_rules.specs.States.{first_state, answer_to, state_after, run, players_of};
ghost use Rattle.tournament_rules.specs.Kinds.{ends_round, is_reentry};
ghost use Rattle.tournament_rules.specs.Valid.{is_bust_of};
ghost use Rattle.tournament_rules.specs.Checks.{is_over_for_all};
ghost use Rattle.tournament_laws.specs.Accepted.{is_any_accepted};
ghost use Rattle.tournament_laws.specs.Named.{names_in, reenters_as};

/// Says that after any list of events, lawful or not, the players are listed by table, at one table in rising seat, and
/// no two of them sit in one seat.
pub fn players_are_in_order()
    ensures { (events : List Event) → are_in_order (players_of (run first_state events)) ≡ true }
{}

/// Says that after any list of events, each entered player has exactly one seat or exactly one row of those who are
/// out, and never both; nobody else has any, so those who are in and those who are out are as many as entered. Who has
/// a seat sits there under the name with which they entered.
pub fn each_entry_is_in_or_bust()
    ensures one { (events : List Event) → ForSome (run first_state events).play (λ play. (number : ℕ)
        → number < length play.book.entries → count_by (is_numbered number) play.book.seating.players
        + count_by (is_bust_of number) play.book.busts ≡ 1) }
    ensures all { (events : List Event) → ForSome (run first_state events).play (λ play.
        length play.book.seating.players + length play.book.busts ≡ length play.book.entries) }
    ensures named { (events : List Event) → ForSome (run first_state events).play (λ play.
        All (λ player. slice_get play.book.entries player.player ≡ Some player.name) play.book.seating.players) }
{}

/// Says that after any list of events, who is out has no seat, is in no hand that is played, is dealt into no hand that
/// begins and makes no act that is accepted. Whatever events follow, he stays out, with the same stack and in the same
/// group, until a re-entry of his is accepted. While none is of anybody, the list of those who are out only grows.
pub fn who_is_bust_stays_bust_until_he_reenters()
    ensures seat { (events : List Event) → ForSome (run first_state events).play (λ play.
        All (λ bust. count_by (is_numbered bust.player) play.book.seating.players ≡ 0) play.book.busts) }
    ensures hand { (events : List Event) (table : ℕ) → ForSome (run first_state events).play (λ play.
        All (λ bust. is_among bust.player (starters_of (start_at play.book.started table)) ≡ false) play.book.busts) }
    ensures dealt { (events : List Event) (table : ℕ) (cards : List Card)
        → ForSome (run first_state events).play (λ play.
        All (λ bust. is_among bust.player (next_start play.book table cards).seats ≡ false) play.book.busts) }
    ensures act { (events : List Event) (table : ℕ) (act : Act) → ForSome (run first_state events).play (λ play.
        All (λ bust. (name : List ℕ) → slice_get play.book.entries bust.player ≡ Some name
        → answer_to (run first_state events) (Acts table name act) ≢ Ok) play.book.busts) }
    ensures stays { (before after : List Event) (bust : Bust) (name : List ℕ)
        → ForSome (run first_state before).play (λ earlier. Contains earlier.book.busts bust
        → slice_get earlier.book.entries bust.player ≡ Some name
        → is_any_accepted (reenters_as name) (run first_state before) after ≡ false
        → ForSome (run (run first_state before) after).play (λ later. Contains later.book.busts bust)) }
    ensures grows { (before after : List Event) → ForSome (run first_state before).play (λ earlier.
        is_any_accepted is_reentry (run first_state before) after ≡ false
        → ForSome (run (run first_state before) after).play (λ later.
        take (length earlier.book.busts) later.book.busts ≡ earlier.book.busts)) }
{}

/// Says that after any list of events, a re-entry that is accepted is of a player who is out: his row leaves the list
/// of those who are out, the other rows stay as they are, and he keeps his number. So one more is in, and the place of
/// each other who is out moves by one where the player was not ahead, and stays where he was.
pub fn a_reentry_takes_a_row_off_the_list()
    ensures row { (before : List Event) (name : List ℕ) (table seat : ℕ)
        → ForSome (run first_state before).play (λ earlier.
        answer_to (run first_state before) (Reenter name table seat) ≡ Ok
        → count_by (is_bust_of (number_in earlier.book name)) earlier.book.busts ≡ 1) }
    ensures busts { (before : List Event) (name : List ℕ) (table seat : ℕ)
        → ForSome (run first_state before).play (λ earlier.
        answer_to (run first_state before) (Reenter name table seat) ≡ Ok
        → ForSome (state_after (run first_state before) (Reenter name table seat)).play (λ later.
        later.book.busts ≡ taken_back (number_in earlier.book name) earlier.book.busts)) }
    ensures players { (before : List Event) (name : List ℕ) (table seat : ℕ)
        → ForSome (run first_state before).play (λ earlier.
        answer_to (run first_state before) (Reenter name table seat) ≡ Ok
        → ForSome (state_after (run first_state before) (Reenter name table seat)).play (λ later.
        length later.book.seating.players ≡ length earlier.book.seating.players + 1)) }
    ensures entries { (before : List Event) (name : List ℕ) (table seat : ℕ)
        → ForSome (run first_state before).play (λ earlier.
        answer_to (run first_state before) (Reenter name table seat) ≡ Ok
        → ForSome (state_after (run first_state before) (Reenter name table seat)).play (λ later.
        later.book.entries ≡ earlier.book.entries)) }
    ensures places { (before : List Event) (name : List ℕ) (table seat : ℕ) (gone bust : Bust)
        → ForSome (run first_state before).play (λ earlier.
        answer_to (run first_state before) (Reenter name table seat) ≡ Ok
        → Contains earlier.book.busts gone → gone.player ≡ number_in earlier.book name
        → ForSome (state_after (run first_state before) (Reenter name table seat)).play (λ later.
        place_of (length later.book.entries) later.book.busts bust + (if is_ahead gone bust then 1 else 0)
        ≡ place_of (length earlier.book.entries) earlier.book.busts bust + 1)) }
{}

/// Says that after any list of events, who went out later is in the same group or in a later one.
pub fn groups_never_fall()
    ensures { (events : List Event) → ForSome (run first_state events).play (λ play.
        is_pairwise (λ earlier later. nat_le earlier.group later.group) play.book.busts ≡ true) }
{}

/// Says that no group has players of two rounds. Those who go out while hand-for-hand is on, before the end of a round
/// is accepted, are in one group. Each accepted end of a round raises the group by one, so who is out later was out
/// before it, or is in a later group than all who were out before. So is who is out after a settle while hand-for-hand
/// is off.
pub fn a_group_is_of_one_round()
    ensures one { (before during : List Event) → ForSome (run first_state before).play (λ earlier.
        earlier.book.seating.hands ≡ true → is_any_accepted ends_round (run first_state before) during ≡ false
        → ForSome (run (run first_state before) during).play (λ later.
        All (λ bust. Contains earlier.book.busts bust ⊎ (bust.group ≡ earlier.book.group)) later.book.busts)) }
    ensures rises { (before : List Event) (event : Event) → ForSome (run first_state before).play (λ earlier.
        ends_round event ≡ true → answer_to (run first_state before) event ≡ Ok
        → ForSome (state_after (run first_state before) event).play (λ later.
        later.book.group ≡ earlier.book.group + 1)) }
    ensures rounds { (before after : List Event) (event : Event) → ForSome (run first_state before).play (λ earlier.
        ends_round event ≡ true → answer_to (run first_state before) event ≡ Ok
        → ForSome (run (state_after (run first_state before) event) after).play (λ later.
        All (λ other. Contains earlier.book.busts other
        ⊎ All (λ one. one.group < other.group) earlier.book.busts) later.book.busts)) }
    ensures settles { (before after : List Event) (table : ℕ) → ForSome (run first_state before).play (λ play.
        play.book.seating.hands ≡ false → answer_to (run first_state before) (Settle table) ≡ Ok
        → ForSome (state_after (run first_state before) (Settle table)).play (λ earlier.
        ForSome (run (state_after (run first_state before) (Settle table)) after).play (λ later.
        All (λ other. Contains earlier.book.busts other
        ⊎ All (λ one. one.group < other.group) earlier.book.busts) later.book.busts))) }
{}

/// Says that after any list of events, the names of those who entered differ.
pub fn no_two_entered_under_one_name()
    ensures { (events : List Event) → ForSome (run first_state events).play (λ play.
        are_distinct bytes_eq play.book.entries ≡ true) }
{}

/// Says that after any list of events, nobody is named before entering: whoever an act or a break that is accepted
/// names has entered.
pub fn who_is_named_has_entered()
    ensures { (events : List Event) (event : Event) (name : List ℕ) → answer_to (run first_state events) event ≡ Ok
        → Contains (names_in event) name
        → option_map_or (λ play. is_known play.book.entries name) (run first_state events).play false ≡ true }
{}

/// Says that once the tournament is over it stays over, whatever events follow, with the same last player: he keeps his
/// seat and his stack.
pub fn once_over_it_stays_over()
    ensures over { (before after : List Event) → ForSome (run first_state before).play (λ earlier.
        is_over_for_all earlier.book ≡ true → ForSome (run (run first_state before) after).play (λ later.
        is_over_for_all later.book ≡ true)) }
    ensures player { (before after : List Event) → ForSome (run first_state before).play (λ earlier.
        is_over_for_all earlier.book ≡ true → ForSome (run (run first_state before) after).play (λ later.
        later.book.seating.players ≡ earlier.book.seating.players)) }
{}

/// Says that after any list of events, an entry that is accepted adds one to the players who are in and leaves those
/// who are out as they are, so that each of these is placed one lower.
pub fn a_later_entry_moves_each_place_by_one()
    ensures players { (before : List Event) (name : List ℕ) (table seat : ℕ)
        → ForSome (run first_state before).play (λ earlier.
        answer_to (run first_state before) (Enter name table seat) ≡ Ok
        → ForSome (state_after (run first_state before) (Enter name table seat)).play (λ later.
        length later.book.seating.players ≡ length earlier.book.seating.players + 1)) }
    ensures busts { (before : List Event) (name : List ℕ) (table seat : ℕ)
        → ForSome (run first_state before).play (λ earlier.
        answer_to (run first_state before) (Enter name table seat) ≡ Ok
        → ForSome (state_after (run first_state before) (Enter name table seat)).play (λ later.
        later.book.busts ≡ earlier.book.busts)) }
    ensures places { (before : List Event) (name : List ℕ) (table seat : ℕ)
        → ForSome (run first_state before).play (λ earlier.
        answer_to (run first_state before) (Enter name table seat) ≡ Ok
        → ForSome (state_after (run first_state before) (Enter name table seat)).play (λ later.
        All (λ bust. place_of (length later.book.entries) later.book.busts bust
        ≡ place_of (length earlier.book.entries) earlier.book.busts bust + 1) later.book.busts)) }
{}
