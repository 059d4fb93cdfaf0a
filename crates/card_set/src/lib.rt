//! Games, cards, rows of cards and decks.
//!
//! It stands on no other crate. A `Card` has a rank and a suit that a card has, by its type. `read_card`,
//! `read_cards` and `read_row` read exactly the texts of a card, of so many cards and of a row of 52 cards, where a
//! card may come twice. A `Deck` is a row in which none does.
#![tactic(auto)]

mod card;
mod deck;
mod game;
mod letters;
mod spelling;

pub use card::{Card, CardRow};
pub use deck::Deck;
pub use game::Game;
pub use spelling::{card_text, read_card, read_cards, read_row};
