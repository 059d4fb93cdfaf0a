//! Cards and rows of cards.

ghost use Rattle.std.specs.Prelude.{◌≡◌, ◌<◌, ◌≤◌, length};

/// A card: its rank, 2 to 14 for the ace, and its suit, 0 to 3 for clubs, diamonds, hearts and spades.
#[derive(Clone, Copy, PartialEq, Eq)]
pub struct Card {
    pub rank: u8,
    pub suit: u8,
    pub ghost from_two: { 2 ≤ rank },
    pub ghost up_to_ace: { rank ≤ 14 },
    pub ghost one_of_four: { suit < 4 },
}

/// A row of 52 cards, in which a card may come more than once.
#[derive(Clone, Copy)]
pub struct CardRow {
    pub cards: [Card; 52],
    pub ghost whole: { length cards ≡ 52 },
}
