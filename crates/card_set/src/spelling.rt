//! The text of cards and of rows.

ghost use Rattle.std.specs.Prelude.{◌≡◌, ◌∷◌, [], ℕ, ◌<◌, ◌≤◌, List, length, Some, IfSome};
ghost use Rattle.card_set.specs.declared.card.Card.{Card};
ghost use Rattle.card_set.specs.declared.card.CardRow.{CardRow};
ghost use Rattle.card_set.specs.Cards.{rank_letter, suit_letter, card_text, cards_text, row_text, card_of, so_many_of, row_of};

use crate::card::{Card, CardRow};
use crate::letters::{RANKS, SUITS, rank_of, suit_of};

fn read_rank(letter: u8) -> Option<u8>
    ensures found { IfSome result (λ rank. (2 ≤ rank) × (rank ≤ 14) × (rank_letter rank ≡ letter)) }
    ensures only { (rank : ℕ) → 2 ≤ rank → rank ≤ 14 → rank_letter rank ≡ letter → result ≡ Some rank }
{
    rank_of(letter)
}

fn read_suit(letter: u8) -> Option<u8>
    ensures found { IfSome result (λ suit. (suit < 4) × (suit_letter suit ≡ letter)) }
    ensures only { (suit : ℕ) → suit < 4 → suit_letter suit ≡ letter → result ≡ Some suit }
{
    suit_of(letter)
}

/// Reads a card: the letter of a rank and the letter of a suit. `None` exactly where the two are no card.
pub fn read_card(a: u8, b: u8) -> Option<Card>
    ensures found { IfSome result (λ card. card_text card ≡ a ∷ b ∷ []) }
    ensures only { (card : Card) → card_text card ≡ a ∷ b ∷ [] → result ≡ Some card }
    ensures exact { result ≡ card_of a b }
{
    let rank = read_rank(a)?;
    let suit = read_suit(b)?;
    Some(Card { rank, suit })
}

/// Gives the text of a card, as it is read.
pub fn card_text(card: Card) -> [u8; 2]
    ensures text { result ≡ card_text card }
{
    [RANKS[card.rank as usize - 2], SUITS[card.suit as usize]]
}

/// Reads so many cards: their texts without a separator. `None` exactly where the bytes are no such text.
pub fn read_cards<const N: usize>(bytes: &[u8]) -> Option<[Card; N]>
    ensures found { IfSome result (λ cards. cards_text cards ≡ bytes.now) }
    ensures count { IfSome result (λ cards. length cards ≡ N) }
    ensures only { (cards : List Card) → length cards ≡ N → cards_text cards ≡ bytes.now → result ≡ Some cards }
    ensures exact { result ≡ so_many_of N bytes.now }
{
    if bytes.len() % 2 != 0 || bytes.len() / 2 != N {
        return None;
    }
    let mut cards = [Card { rank: 2, suit: 0 }; N];
    for index in 0..N {
        cards[index] = read_card(bytes[2 * index], bytes[2 * index + 1])?;
    }
    Some(cards)
}

/// Reads a row: the texts of 52 cards without a separator. `None` exactly where the bytes are no such row.
pub fn read_row(bytes: &[u8]) -> Option<CardRow>
    ensures found { IfSome result (λ row. row_text row.cards ≡ bytes.now) }
    ensures only { (row : CardRow) → row_text row.cards ≡ bytes.now → result ≡ Some row }
    ensures exact { result ≡ row_of bytes.now }
{
    let cards = read_cards(bytes)?;
    Some(CardRow { cards })
}
