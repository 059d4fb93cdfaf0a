//! What five cards are.

/// What five cards are, from the least to the greatest, numbered from 0 to 8.
#[derive(Clone, Copy, PartialEq, Eq)]
pub enum Category {
    HighCard,
    OnePair,
    TwoPair,
    ThreeOfAKind,
    Straight,
    Flush,
    FullHouse,
    FourOfAKind,
    StraightFlush,
}

impl Category {
    ghost use Rattle.std.specs.Prelude.{◌≡◌};
    ghost use Rattle.hand_rank.specs.Values.{category_number};

    /// Gives the number of the category, from 0 to 8.
    pub fn number(self) -> u8
        ensures { result ≡ category_number self }
    {
        self as u8
    }
}
