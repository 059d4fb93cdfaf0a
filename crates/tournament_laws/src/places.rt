//! Laws of places and prizes, and of what a report says.

ghost use Rattle.std.specs.Prelude.{ℕ, ◌≡◌, ◌≤◌, ◌<◌, ◌+◌, ◌-◌, ◌==◌, nat_lt, true, false, List, length, slice_get, sum_by, count_by, unwrap_or};
ghost use Rattle.std.specs.List.{All, Contains};
ghost use Rattle.std.specs.Option.{ForSome, IfSome, option_to_list};
ghost use Rattle.std.specs.Str.{bytes_eq};
ghost use Rattle.entry_list.specs.Entries.{is_known};
ghost use Rattle.place_list.specs.declared.bust.Bust.{Bust};
ghost use Rattle.place_list.specs.Places.{place_of};
ghost use Rattle.place_list.specs.Prizes.{pool_of};
ghost use Rattle.seat_book.specs.Players.{is_numbered};
ghost use Rattle.tournament_events.specs.declared.event.Event.{Event};
ghost use Rattle.tournament_rules.specs.Checks.{is_over_for_all, is_late};
ghost use Rattle.tournament_rules.specs.Valid.{is_bust_of};
ghost use Rattle.tournament_rules.specs.States.{first_state, run};
ghost use Rattle.tournament_rules.specs.Report.{winner, book_report, report_of};
ghost use Rattle.tournament_rules.specs.Kinds.{is_entry};
ghost use Rattle.tournament_laws.specs.Accepted.{is_any_accepted};

/// Says that after any list of events, the prizes that are reported sum to the pool, a buy-in for each entry and each
/// re-entry, where the tournament is over, and before to no more than that.
pub fn prizes_are_the_pool()
    ensures over { (events : List Event) → ForSome (run first_state events).play (λ play.
        is_over_for_all play.book ≡ true → sum_by (λ out. out.prize) (book_report play.book).outs
        ≡ pool_of (length play.book.entries) play.book.reentries play.book.plan.buyin) }
    ensures before { (events : List Event) → ForSome (run first_state events).play (λ play.
        is_over_for_all play.book ≡ false → sum_by (λ out. out.prize) (book_report play.book).outs
        ≤ pool_of (length play.book.entries) play.book.reentries play.book.plan.buyin) }
{}

/// Says that while nobody enters or re-enters, the place of a player who is out only rises or stays, and that it is
/// final once his group is past. Nobody enters or re-enters any more once the level is above the last one for entries.
pub fn places_rise_without_entries()
    ensures rises { (before between : List Event) (bust : Bust) → ForSome (run first_state before).play (λ earlier.
        Contains earlier.book.busts bust → is_any_accepted is_entry (run first_state before) between ≡ false
        → ForSome (run (run first_state before) between).play (λ later.
        place_of (length later.book.entries) later.book.busts bust
        ≤ place_of (length earlier.book.entries) earlier.book.busts bust)) }
    ensures past { (before between : List Event) (bust : Bust) → ForSome (run first_state before).play (λ earlier.
        Contains earlier.book.busts bust → bust.group < earlier.book.group
        → is_any_accepted is_entry (run first_state before) between ≡ false
        → ForSome (run (run first_state before) between).play (λ later.
        place_of (length later.book.entries) later.book.busts bust
        ≡ place_of (length earlier.book.entries) earlier.book.busts bust)) }
    ensures closed { (before between : List Event) → ForSome (run first_state before).play (λ earlier.
        is_late earlier.book ≡ true → is_any_accepted is_entry (run first_state before) between ≡ false) }
{}

/// Says that after any list of events, a report names each player who entered once: in the line of a seat where they
/// are in, and in the line of a place where they are out. The winner alone has both lines. Nobody else is named.
pub fn a_report_names_each_player_once()
    ensures seat { (events : List Event) (number : ℕ) → ForSome (run first_state events).play (λ play.
        IfSome (slice_get play.book.entries number) (λ name.
        count_by (λ line. bytes_eq line.name name) (book_report play.book).seats
        ≡ count_by (is_numbered number) play.book.seating.players)) }
    ensures out { (events : List Event) (number : ℕ) → ForSome (run first_state events).play (λ play.
        IfSome (slice_get play.book.entries number) (λ name.
        count_by (λ line. bytes_eq line.name name) (book_report play.book).outs
        ≡ count_by (is_bust_of number) play.book.busts
        + count_by (λ last. last == number) (option_to_list (winner play.book)))) }
    ensures once { (events : List Event) (number : ℕ) → ForSome (run first_state events).play (λ play.
        IfSome (slice_get play.book.entries number) (λ name.
        count_by (λ line. bytes_eq line.name name) (book_report play.book).seats
        + count_by (λ line. bytes_eq line.name name) (book_report play.book).outs
        ≡ 1 + count_by (λ last. last == number) (option_to_list (winner play.book)))) }
    ensures known_seats { (events : List Event) → ForSome (run first_state events).play (λ play.
        All (λ line. is_known play.book.entries line.name ≡ true) (book_report play.book).seats) }
    ensures known_outs { (events : List Event) → ForSome (run first_state events).play (λ play.
        All (λ line. is_known play.book.entries line.name ≡ true) (book_report play.book).outs) }
{}

/// Says that after any list of events, the places in a report are a ranking: each is one more than the number of those
/// who are ahead, which are those with a higher place and those who are in and have none.
pub fn places_in_a_report_are_a_ranking()
    ensures { (events : List Event) → ForSome (run first_state events).play (λ play.
        All (λ out. out.place ≡ 1 + (length (book_report play.book).seats - length (option_to_list (winner play.book)))
        + count_by (λ other. nat_lt other.place out.place) (book_report play.book).outs) (book_report play.book).outs) }
{}

/// Says that after any list of events, what a report says of the chips is what is kept of them: those at rest, those in
/// play and those that were removed are those sold and those added; and those at rest are the stacks of its seats.
pub fn a_report_counts_the_chips()
    ensures kept { (events : List Event) →
        (report_of (run first_state events)).rest + (report_of (run first_state events)).play
        + (report_of (run first_state events)).removed
        ≡ (report_of (run first_state events)).sold + (report_of (run first_state events)).added }
    ensures rest { (events : List Event) → (report_of (run first_state events)).rest
        ≡ sum_by (λ seat. unwrap_or seat.stack 0) (report_of (run first_state events)).seats }
{}
