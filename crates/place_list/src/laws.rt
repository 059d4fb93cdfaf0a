//! What holds of all places and prizes.

ghost use Rattle.std.specs.Prelude.{if◌then◌else◌, Contains, Option, ◌≡◌, ◌+◌, ◌*◌, ◌<◌, ◌≤◌, ◌==◌, ◌||◌, ℕ, true, List, length, map, sum, sum_by, slice_index_or, None, Some};
ghost use Rattle.rulebook.specs.Pairs.{are_distinct, is_pairwise};
ghost use Rattle.place_list.specs.declared.bust.Bust.{Bust};
ghost use Rattle.place_list.specs.Places.{place_of, tied, is_ahead, ties, taken_back};
ghost use Rattle.place_list.specs.Standings.{comes_before, standings_of};

/// Says that players who tie share a place.
pub fn players_who_tie_share_a_place()
    ensures { (entries : ℕ) (busts : List Bust) (one other : Bust) → ties one other ≡ true
        → place_of entries busts one ≡ place_of entries busts other }
{}

/// Says that a player who is ahead is placed higher: his place and the places of all who share it come first.
pub fn who_is_ahead_is_placed_higher()
    ensures { (entries : ℕ) (busts : List Bust) (one other : Bust) → is_ahead one other ≡ true
        → place_of entries busts one + tied busts one ≤ place_of entries busts other }
{}

/// Says that where nobody is between two players, the next place counts just those who share the place before.
pub fn the_next_place_counts_those_who_tie()
    ensures { (entries : ℕ) (busts : List Bust) (one other : Bust) → is_ahead one other ≡ true
        → ((index : ℕ) (d : Bust) → index < length busts → is_ahead (slice_index_or busts index d) other ≡ true
        → (is_ahead (slice_index_or busts index d) one || ties (slice_index_or busts index d) one) ≡ true)
        → place_of entries busts other ≡ place_of entries busts one + tied busts one }
{}

/// Says that a later entry moves each place by one: with one entry more and the same list, each player who is out is
/// placed one lower.
pub fn a_later_entry_moves_each_place_by_one()
    ensures { (entries : ℕ) (busts : List Bust) (bust : Bust) → length busts ≤ entries
        → place_of (entries + 1) busts bust ≡ place_of entries busts bust + 1 }
{}

/// Says what it does to a place that a player is taken back: it moves by one where he was not ahead, and stays where he
/// was.
pub fn a_player_taken_back_moves_the_places_ahead_of_him()
    ensures { (entries number : ℕ) (busts : List Bust) (gone bust : Bust) → length busts ≤ entries
        → are_distinct (λ one other. one == other) (map (λ bust. bust.player) busts) ≡ true
        → Contains busts gone → gone.player ≡ number
        → place_of entries (taken_back number busts) bust + (if is_ahead gone bust then 1 else 0)
        ≡ place_of entries busts bust + 1 }
{}

/// Says that all prizes of a tournament that is over, in which one player is left, sum to the pool.
pub fn all_prizes_sum_to_the_pool()
    ensures { (entries last pool : ℕ) (shares : List ℕ) (busts : List Bust)
        → are_distinct (λ one other. one == other) (map (λ bust. bust.player) busts) ≡ true
        → entries ≡ length busts + 1 → 1 ≤ length shares → sum shares ≤ 1000
        → sum_by (λ standing. standing.prize) (standings_of entries (Some last) pool shares busts) ≡ pool }
{}

/// Says that the prizes of those who are out never sum to more than the pool.
pub fn prizes_of_those_who_are_out_are_within_the_pool()
    ensures { (entries pool : ℕ) (shares : List ℕ) (busts : List Bust)
        → are_distinct (λ one other. one == other) (map (λ bust. bust.player) busts) ≡ true → sum shares ≤ 1000
        → sum_by (λ standing. standing.prize) (standings_of entries None pool shares busts) ≤ pool }
{}

/// Says that where somebody is in, standings come by place, and of the same place by entry.
pub fn standings_come_in_order()
    ensures { (entries : ℕ) (last : Option ℕ) (pool : ℕ) (shares : List ℕ) (busts : List Bust)
        → are_distinct (λ one other. one == other) (map (λ bust. bust.player) busts) ≡ true → length busts < entries
        → is_pairwise comes_before (standings_of entries last pool shares busts) ≡ true }
{}
