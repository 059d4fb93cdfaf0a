//! Decks.

ghost use Rattle.std.specs.Prelude.{◌≡◌, ◌<◌, ◌↔◌, IsSome, IfSome, Some, is_none, slice_get};
ghost use Rattle.card_set.specs.Decks.{IsDeck, IsInOrder, index_of, repeats_a_card};

use crate::card::{Card, CardRow};
use std::marker::Model;

/// A row of 52 cards in which no card comes twice. Contracts see it as the list of its cards.
#[derive(Clone, Copy)]
pub struct Deck {
    cards: [Card; 52],
}

impl Model for Deck {
    ghost use Rattle.std.specs.Prelude.{List};
    ghost use Rattle.card_set.specs.declared.card.Card.{Card};
    ghost use Rattle.card_set.specs.Decks.{IsDeck};

    ghost Value = { List Card };

    ghost view = { λ deck. deck.cards };

    ghost invariant = { λ deck. IsDeck deck.cards };

    ghost inverse = { λ cards. record { cards = cards } };
}

/// Gives the index of a card in a deck that is in order.
fn index_of(card: Card) -> usize
    ensures index { result ≡ index_of card }
    ensures within { result < 52 }
{
    usize::from(card.rank - 2) * 4 + usize::from(card.suit)
}

impl Deck {
    /// Makes the deck of a row. `None` exactly where a card comes twice.
    pub fn of_row(row: &CardRow) -> Option<Deck>
        ensures some { IsSome result ↔ IsDeck row.now.cards }
        ensures none { is_none result ≡ repeats_a_card row.now.cards }
        ensures row { IfSome result (λ deck. deck ≡ row.now.cards) }
    {
        let mut seen = [false; 52];
        for index in 0..52 {
            let number = index_of(row.cards[index]);
            if seen[number] {
                return None;
            }
            seen[number] = true;
        }
        Some(Deck { cards: row.cards })
    }

    /// Makes the deck in order: from the twos to the aces, and of each rank clubs, diamonds, hearts and spades.
    pub fn sorted() -> Deck
        ensures order { IsInOrder result }
        ensures deck { IsDeck result }
    {
        let mut cards = [Card { rank: 2, suit: 0 }; 52];
        for index in 0u8..52 {
            cards[index as usize] = Card {
                rank: 2 + index / 4,
                suit: index % 4,
            };
        }
        Deck { cards }
    }

    /// Gives the card at an index: 0 is the top of the deck.
    pub fn card(&self, index: usize) -> Card
        requires { index < 52 }
        ensures card { slice_get self.now index ≡ Some result }
        ensures deck { IsDeck self.now }
    {
        self.cards[index]
    }

    /// Gives the row of the deck's cards.
    pub fn row(&self) -> CardRow
        ensures same { result.cards ≡ self.now }
        ensures deck { IsDeck self.now }
    {
        CardRow { cards: self.cards }
    }
}
