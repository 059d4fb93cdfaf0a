//! All choices of so many cards.

ghost use Rattle.std.specs.Prelude.{◌≡◌, ◌++◌};
ghost use Rattle.card_choices.specs.Choices.{choices, holdem_choices};

use card_set::Card;
use std::marker::Model;

/// Two cards that a player shows of his hole cards. Contracts see it as their list.
#[derive(Clone, Copy)]
pub struct Pair {
    cards: [Card; 2],
}

impl Model for Pair {
    ghost use Rattle.std.specs.Prelude.{List};
    ghost use Rattle.card_set.specs.declared.card.Card.{Card};

    ghost Value = { List Card };

    ghost view = { λ pair. pair.cards };

    ghost inverse = { λ cards. record { cards = cards } };
}

impl Pair {
    /// Makes a pair of two cards, as they lie.
    pub fn new(cards: [Card; 2]) -> Pair
        ensures { result ≡ cards }
    {
        Pair { cards }
    }

    /// Gives the two cards.
    pub fn cards(self) -> [Card; 2]
        ensures { result ≡ self }
    {
        self.cards
    }

    /// Gives the pair with three more cards.
    pub fn with(self, three: Three) -> Five
        ensures { result ≡ self ++ three }
    {
        let [a, b] = self.cards;
        let [c, d, e] = three.cards;
        Five {
            cards: [a, b, c, d, e],
        }
    }
}

/// Three cards that a player shows of the board. Contracts see it as their list.
#[derive(Clone, Copy)]
pub struct Three {
    cards: [Card; 3],
}

impl Model for Three {
    ghost use Rattle.std.specs.Prelude.{List};
    ghost use Rattle.card_set.specs.declared.card.Card.{Card};

    ghost Value = { List Card };

    ghost view = { λ three. three.cards };

    ghost inverse = { λ cards. record { cards = cards } };
}

/// Five cards that a player shows. Contracts see it as their list.
#[derive(Clone, Copy)]
pub struct Five {
    cards: [Card; 5],
}

impl Model for Five {
    ghost use Rattle.std.specs.Prelude.{List};
    ghost use Rattle.card_set.specs.declared.card.Card.{Card};

    ghost Value = { List Card };

    ghost view = { λ five. five.cards };

    ghost inverse = { λ cards. record { cards = cards } };
}

impl Three {
    /// Makes a three of three cards, as they lie.
    pub fn new(cards: [Card; 3]) -> Three
        ensures { result ≡ cards }
    {
        Three { cards }
    }
}

impl Five {
    /// Makes a five of five cards, as they lie.
    pub fn new(cards: [Card; 5]) -> Five
        ensures { result ≡ cards }
    {
        Five { cards }
    }

    /// Gives the five cards.
    pub fn cards(self) -> [Card; 5]
        ensures { result ≡ self }
    {
        self.cards
    }
}

/// Gives the six choices of two of four hole cards.
pub fn pairs(hole: [Card; 4]) -> [Pair; 6]
    ensures { result ≡ choices 2 hole }
{
    let [a, b, c, d] = hole;
    [
        Pair::new([a, b]),
        Pair::new([a, c]),
        Pair::new([a, d]),
        Pair::new([b, c]),
        Pair::new([b, d]),
        Pair::new([c, d]),
    ]
}

/// Gives the ten choices of three of five board cards.
pub fn threes(board: [Card; 5]) -> [Three; 10]
    ensures { result ≡ choices 3 board }
{
    let [a, b, c, d, e] = board;
    [
        Three::new([a, b, c]),
        Three::new([a, b, d]),
        Three::new([a, b, e]),
        Three::new([a, c, d]),
        Three::new([a, c, e]),
        Three::new([a, d, e]),
        Three::new([b, c, d]),
        Three::new([b, c, e]),
        Three::new([b, d, e]),
        Three::new([c, d, e]),
    ]
}

/// Gives the 21 choices of five of two hole cards and five board cards.
pub fn fives(hole: [Card; 2], board: [Card; 5]) -> [Five; 21]
    ensures { result ≡ holdem_choices hole board }
{
    let [a, b] = hole;
    let [c, d, e, f, g] = board;
    [
        Five::new([a, b, c, d, e]),
        Five::new([a, b, c, d, f]),
        Five::new([a, b, c, d, g]),
        Five::new([a, b, c, e, f]),
        Five::new([a, b, c, e, g]),
        Five::new([a, b, c, f, g]),
        Five::new([a, b, d, e, f]),
        Five::new([a, b, d, e, g]),
        Five::new([a, b, d, f, g]),
        Five::new([a, b, e, f, g]),
        Five::new([a, c, d, e, f]),
        Five::new([a, c, d, e, g]),
        Five::new([a, c, d, f, g]),
        Five::new([a, c, e, f, g]),
        Five::new([a, d, e, f, g]),
        Five::new([b, c, d, e, f]),
        Five::new([b, c, d, e, g]),
        Five::new([b, c, d, f, g]),
        Five::new([b, c, e, f, g]),
        Five::new([b, d, e, f, g]),
        Five::new([c, d, e, f, g]),
    ]
}
