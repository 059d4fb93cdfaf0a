//! Laws of fill lists and of draws, over every seating.

ghost use Rattle.std.specs.Prelude.{◌≡◌, ◌<◌, ◌≤◌, ◌+◌, ◌↔◌, ℕ, IsTrue, true, List, ◌∷◌, ◌++◌, length, None, Some};
ghost use Rattle.std.specs.List.{list_all, list_any};
ghost use Rattle.rulebook.specs.Pairs.{are_distinct};
ghost use Rattle.seat_book.specs.declared.place.Place.{Place};
ghost use Rattle.seat_book.specs.Places.{IsTableOf, is_place_of};
ghost use Rattle.seat_book.specs.Counts.{count_at};
ghost use Rattle.seat_book.specs.Seatings.{Seating, IsSeating};
ghost use Rattle.balance_rule.specs.EmptySeats.{is_empty_seat};
ghost use Rattle.balance_rule.specs.Filling.{is_other_open, empty_elsewhere, lacks_room, is_at, is_same_place, count_with, next_to_fill, IsNextSeat, fill_seats, names_at};
ghost use Rattle.break_draw.specs.declared.random.DrawKind.{DrawKind};
ghost use Rattle.break_draw.specs.Draws.{IsDraw, is_draw};
ghost use Rattle.break_draw.specs.Generator.{drawn_order};

/// Says that the seats to fill are none exactly where there is no room, on every lawful seating: where the other open
/// tables have fewer empty seats than the table has players.
pub fn a_fill_list_is_there_exactly_where_there_is_room()
    ensures test { (seating : Seating) (table : ℕ) → IsSeating seating
        → (fill_seats seating table ≡ None) ↔ IsTrue (lacks_room seating table) }
    ensures fewer { (seating : Seating) (table : ℕ) → IsSeating seating
        → (fill_seats seating table ≡ None) ↔ (empty_elsewhere seating table < count_at seating.players table) }
{}

/// Says that a fill list has distinct empty seats at other open tables, as many as the table has players.
pub fn a_fill_list_has_empty_seats_elsewhere()
    ensures many { (seating : Seating) (table : ℕ) (fill : List Place) → fill_seats seating table ≡ Some fill
        → length fill ≡ count_at seating.players table }
    ensures places { (seating : Seating) (table : ℕ) (fill : List Place) → fill_seats seating table ≡ Some fill
        → list_all (is_place_of seating.table_count seating.seat_count) fill ≡ true }
    ensures elsewhere { (seating : Seating) (table : ℕ) (fill : List Place) → fill_seats seating table ≡ Some fill
        → list_all (λ place. is_other_open seating table place.table) fill ≡ true }
    ensures empty { (seating : Seating) (table : ℕ) (fill : List Place) → fill_seats seating table ≡ Some fill
        → list_all (λ place. is_empty_seat seating.players place.table place.seat) fill ≡ true }
    ensures distinct { (seating : Seating) (table : ℕ) (fill : List Place) → fill_seats seating table ≡ Some fill
        → are_distinct is_same_place fill ≡ true }
{}

/// Says which seat is filled next, for any seats that are chosen so far: the lowest seat that is empty and not chosen
/// at the other open table with the fewest players, counting the chosen seats, of more such at that with the lowest
/// number. Each seat of a fill list is the next after those before it.
pub fn the_next_seat_is_where_the_fewest_are()
    ensures next { (seating : Seating) (table : ℕ) (chosen : List Place) (place : Place)
        → (next_to_fill seating table chosen ≡ Some place) ↔ IsNextSeat seating table chosen place }
    ensures in_turn { (seating : Seating) (table : ℕ) (fill before after : List Place) (place : Place)
        → fill_seats seating table ≡ Some fill → fill ≡ before ++ place ∷ after
        → IsNextSeat seating table before place }
{}

/// Says that after a break no table that took a player has two players more than another open table. So any two tables
/// that took players differ by at most one.
pub fn a_break_leaves_the_tables_even()
    ensures { (seating : Seating) (table one other : ℕ) (fill : List Place) → fill_seats seating table ≡ Some fill
        → list_any (is_at one) fill ≡ true → IsTableOf seating.table_count other
        → is_other_open seating table other ≡ true
        → count_with seating.players fill one ≤ count_with seating.players fill other + 1 }
{}

/// Says that a draw passes its check, for every seed, kind and number: the drawn seats are those of the fill list in
/// some order, and the drawn names those of the table's players in some order.
pub fn a_draw_passes_its_check()
    ensures test { (seed : List ℕ) (kind other : DrawKind) (number : ℕ) (seating : Seating) (table : ℕ)
        (fill : List Place) → is_draw seating table fill (drawn_order seed kind number fill)
        (drawn_order seed other number (names_at seating table)) ≡ true }
    ensures right { (seed : List ℕ) (kind other : DrawKind) (number : ℕ) (seating : Seating) (table : ℕ)
        (fill : List Place) → IsDraw seating table fill (drawn_order seed kind number fill)
        (drawn_order seed other number (names_at seating table)) }
{}
