//! Who wins a chip in a race.

ghost use Rattle.std.specs.Prelude.{◌≡◌, ◌<◌, ◌≤◌, ◌*◌, ℕ, false, slice_index, slice_index_or};
ghost use Rattle.chip_race.specs.Races.{winners, is_among};
ghost use Rattle.chip_race.specs.BestCards.{is_ahead, is_among_first};

use crate::best_cards::{best_cards, is_higher};
use card_set::{Card, Deck};

/// Tells whether a player's best card is higher than this one.
fn is_ahead(other: Option<Card>, mine: Card) -> bool
    ensures { result ≡ is_ahead other mine }
{
    match other {
        Some(card) => is_higher(card, mine),
        None => false,
    }
}

/// Tells whether a player with this best card is among the first so many by their best cards.
fn is_among_first(best: &[Option<Card>; 10], chips: u64, own: Option<Card>) -> bool
    ensures { result ≡ is_among_first best.now chips own }
{
    match own {
        Some(mine) => (best.iter().filter(|other| is_ahead(**other, mine)).count() as u64) < chips,
        None => false,
    }
}

/// Tells who wins a chip, by seat: so many chips go one each to the players with the highest single cards.
pub(crate) fn winners(stacks: &[u64; 10], old: u64, new: u64, chips: u64, deck: &Deck) -> [bool; 10]
    requires unit { 1 ≤ old }
    requires greater { old < new }
    requires most { new ≤ 6 * old }
    ensures wins { (index : ℕ) → index < 10
        → slice_index_or result index false ≡ is_among (winners old new chips stacks.now deck.now) index }
    ensures empty { (index : ℕ) → index < 10 → slice_index stacks.now index ≡ 0
        → slice_index_or result index false ≡ false }
{
    let best = best_cards(stacks, old, new, &deck.row().cards);
    let mut has_won = [false; 10];
    for index in 0..best.len() {
        has_won[index] = is_among_first(&best, chips, best[index]);
    }
    has_won
}
