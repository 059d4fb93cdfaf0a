//! Laws of the orders that are owed, over every seating.

ghost use Rattle.std.specs.Prelude.{◌≡◌, ◌≤◌, ◌+◌, ◌*◌, ℕ, true, false, List, length, Option, None, Some};
ghost use Rattle.std.specs.Option.{option_map_or};
ghost use Rattle.rulebook.specs.Checks.{first_that_holds};
ghost use Rattle.seat_book.specs.declared.place.Place.{Place};
ghost use Rattle.seat_book.specs.Places.{IsTableOf};
ghost use Rattle.seat_book.specs.Counts.{is_open};
ghost use Rattle.seat_book.specs.Seatings.{Seating, IsSeating, is_not_last, is_race_pending, is_round_open};
ghost use Rattle.balance_rule.specs.declared.balance.Move.{Move};
ghost use Rattle.balance_rule.specs.Balance.{after_move, balance_checks};
ghost use Rattle.balance_rule.specs.Filling.{fill_seats, lacks_room};
ghost use Rattle.balance_rule.specs.Moves.{Balance as ByBalance, IsFreeTable, IsLawfulMove};
ghost use Rattle.break_draw.specs.Draws.{is_draw};
ghost use Rattle.tournament_events.specs.declared.event.Event.{Event};
ghost use Rattle.tournament_events.specs.declared.event.Event.TheVariants.{Balance, Break};
ghost use Rattle.floor_director.specs.Owed.{IsNextOrder};
ghost use Rattle.floor_director.specs.Spread.{AreBalances, Balancing, spread};

/// Says that one order is the first by the rule, or none: no two are.
pub fn one_order_is_owed()
    ensures { (seating : Seating) (seed : List ℕ) (number : ℕ) (one other : Option Event)
        → IsNextOrder seating seed number one → IsNextOrder seating seed number other → one ≡ other }
{}

/// Says that no check of the seats refuses an order that is owed: no race is pending and no round is open; both tables
/// of a balance are open, the one rests, and the checks of a balance pass; a table that breaks rests, is the last open
/// one and has room, and its draw is right.
pub fn an_owed_order_passes_its_checks()
    ensures no_race { (seating : Seating) (seed : List ℕ) (number : ℕ) (order : Event)
        → IsNextOrder seating seed number (Some order) → is_race_pending seating ≡ false }
    ensures no_round { (seating : Seating) (seed : List ℕ) (number : ℕ) (order : Event)
        → IsNextOrder seating seed number (Some order) → is_round_open seating ≡ false }
    ensures from_rests { (seating : Seating) (seed : List ℕ) (number from to : ℕ)
        → IsNextOrder seating seed number (Some (Balance from to)) → IsFreeTable seating from }
    ensures to { (seating : Seating) (seed : List ℕ) (number from to : ℕ)
        → IsNextOrder seating seed number (Some (Balance from to)) → IsTableOf seating.table_count to }
    ensures to_open { (seating : Seating) (seed : List ℕ) (number from to : ℕ)
        → IsNextOrder seating seed number (Some (Balance from to)) → is_open seating.players to ≡ true }
    ensures balanced { (seating : Seating) (seed : List ℕ) (number from to : ℕ)
        → IsNextOrder seating seed number (Some (Balance from to))
        → first_that_holds (balance_checks seating from to) ≡ None }
    ensures rests { (seating : Seating) (seed : List ℕ) (number table : ℕ) (seats : List Place)
        (names : List (List ℕ)) → IsNextOrder seating seed number (Some (Break table seats names))
        → IsFreeTable seating table }
    ensures last { (seating : Seating) (seed : List ℕ) (number table : ℕ) (seats : List Place)
        (names : List (List ℕ)) → IsNextOrder seating seed number (Some (Break table seats names))
        → is_not_last seating table ≡ false }
    ensures room { (seating : Seating) (seed : List ℕ) (number table : ℕ) (seats : List Place)
        (names : List (List ℕ)) → IsSeating seating
        → IsNextOrder seating seed number (Some (Break table seats names)) → lacks_room seating table ≡ false }
    ensures drawn { (seating : Seating) (seed : List ℕ) (number table : ℕ) (seats : List Place)
        (names : List (List ℕ)) → IsNextOrder seating seed number (Some (Break table seats names))
        → option_map_or (λ fill. is_draw seating table fill seats names) (fill_seats seating table) false ≡ true }
{}

/// Says that balances come to an end: each lawful one lowers the sum of the squares of the tables' counts by two or
/// more, and that sum is at most 6,400. So at most 3,200 of them follow one another.
pub fn balances_come_to_an_end()
    ensures narrows { (seating : Seating) (from to : ℕ) (move_ : Move) → IsSeating seating
        → IsLawfulMove seating (ByBalance from to move_) → spread (after_move move_ seating) + 2 ≤ spread seating }
    ensures ends { (seating : Seating) (balances : List Balancing) → AreBalances seating balances
        → 2 * length balances ≤ spread seating }
    ensures few { (seating : Seating) → IsSeating seating → spread seating ≤ 6400 }
{}
