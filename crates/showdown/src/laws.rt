//! What holds of all awards.

ghost use Rattle.std.specs.Prelude.{◌≡◌, ◌≤◌, ◌%◌, ◌==◌, ℕ, true, false, suc, List, Option, map, is_some, sum, slice_index_or};
ghost use Rattle.std.specs.List.{list_all};
ghost use Rattle.card_set.specs.declared.card.Card.{Card};
ghost use Rattle.card_set.specs.declared.game.Game.{Game};
ghost use Rattle.button_blinds.specs.SeatSets.{has_seat, AreSeatsOf};
ghost use Rattle.pot_layers.specs.declared.pot_list.Pot.{Pot};
ghost use Rattle.pot_layers.specs.PotTests.{total_of, are_for, have_somebody, are_whole_pots};
ghost use Rattle.showdown.specs.declared.live.Live.{Live};
ghost use Rattle.showdown.specs.Hands.{hands_of};
ghost use Rattle.showdown.specs.Awards.{award_pot, awards_of};

/// Says that the awards sum to the pots: where each pot is of whole units and for live players of the table, one or
/// more.
pub fn awards_sum_to_the_pots()
    ensures { (game : Game) (board : List Card) (live : List (Option Live)) (unit button seats : ℕ) (pots : List Pot)
        → seats ≤ 10 → 1 ≤ button → button ≤ seats → AreSeatsOf seats (map is_some live)
        → are_for (map is_some live) pots ≡ true → have_somebody pots ≡ true → are_whole_pots unit pots ≡ true
        → sum (awards_of (hands_of game board live) unit button seats pots) ≡ total_of pots }
{}

/// Says that a player is awarded nothing from a pot for which he is not eligible: his award stays as it was.
pub fn only_eligible_players_are_awarded()
    ensures { (game : Game) (board : List Card) (live : List (Option Live)) (unit button seats : ℕ)
        (awards : List ℕ) (pot : Pot) (index : ℕ)
        → has_seat pot.eligible (suc index) ≡ false
        → slice_index_or (award_pot (hands_of game board live) unit button seats awards pot) index 0
        ≡ slice_index_or awards index 0 }
{}

/// Says that each award is a multiple of the unit.
pub fn awards_are_whole_units()
    ensures { (game : Game) (board : List Card) (live : List (Option Live)) (unit button seats : ℕ) (pots : List Pot)
        → list_all (λ award. award % unit == 0) (awards_of (hands_of game board live) unit button seats pots) ≡ true }
{}

/// Says that who is not live is awarded nothing, where only live players may win a pot.
pub fn only_live_players_are_awarded()
    ensures { (game : Game) (board : List Card) (live : List (Option Live)) (unit button seats : ℕ) (pots : List Pot)
        (index : ℕ) → has_seat (map is_some live) (suc index) ≡ false → are_for (map is_some live) pots ≡ true
        → slice_index_or (awards_of (hands_of game board live) unit button seats pots) index 0 ≡ 0 }
{}
