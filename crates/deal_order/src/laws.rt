//! The law of the deal.

ghost use Rattle.std.specs.Prelude.{◌≡◌, ◌≤◌, ◌+◌, ◌*◌, ◌++◌, ℕ, Bool, true, List, nat_lt};
ghost use Rattle.std.specs.List.{list_all};
ghost use Rattle.rulebook.specs.Pairs.{are_rising};
ghost use Rattle.button_blinds.specs.SeatSets.{AreSeatsOf, has_seat, seat_count};
ghost use Rattle.deal_order.specs.DealOrder.{count_up, deal_places, places_of_board, places_of_player};

/// Says that a hand takes the cards from the top of the deck, one after another, and no card twice. Whoever is dealt
/// in, the places of all hole cards, burned cards and cards of the board, in the order in which they are dealt, are 0,
/// 1, 2 and so on. So each is above all before it, and with at most four hole cards each is one of the 52.
pub fn the_deal_takes_the_top_cards()
    ensures in_order { (dealt : List Bool) (button seats holes : ℕ)
        → AreSeatsOf seats dealt → seats ≤ 10 → button ≤ seats
        → deal_places dealt button seats holes ≡ count_up 0 (holes * seat_count dealt + 8) }
    ensures apart { (dealt : List Bool) (button seats holes : ℕ)
        → AreSeatsOf seats dealt → seats ≤ 10 → button ≤ seats
        → are_rising (deal_places dealt button seats holes) ≡ true }
    ensures within { (dealt : List Bool) (button seats holes : ℕ)
        → AreSeatsOf seats dealt → seats ≤ 10 → button ≤ seats → holes ≤ 4
        → list_all (λ place. nat_lt place 52) (deal_places dealt button seats holes) ≡ true }
{}

/// Says that nobody who is dealt in has a card twice, or one of the board: the places of his hole cards, and then those
/// of the board, rise.
pub fn a_player_and_the_board_have_other_cards()
    ensures { (dealt : List Bool) (button seats holes seat : ℕ) → AreSeatsOf seats dealt → seats ≤ 10 → button ≤ seats
        → has_seat dealt seat ≡ true
        → are_rising (places_of_player dealt button seats holes seat ++ places_of_board (seat_count dealt) holes)
        ≡ true }
{}
