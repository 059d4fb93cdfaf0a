//! The deck of a hand or of a chip race.

ghost use Rattle.std.specs.Prelude.{◌≡◌};
ghost use Rattle.card_set.specs.Decks.{IsDeck};
ghost use Rattle.floor_director.specs.DrawnDecks.{deck_drawn};

use break_draw::{DrawKind, shuffle};
use card_set::{CardRow, Deck};

/// Draws a deck by the seed and the number of the draw: the deck in order, shuffled. It takes no memory.
pub fn deck_of(seed: [u8; 32], k: u64) -> CardRow
    ensures drawn { result.cards ≡ deck_drawn seed k }
    ensures deck { IsDeck result.cards }
{
    let mut cards = Deck::sorted().row().cards;
    shuffle(&mut cards, seed, DrawKind::Deck, k);
    CardRow { cards }
}
