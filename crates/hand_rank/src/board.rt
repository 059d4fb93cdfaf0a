//! The board as Omaha looks at it.

ghost use Rattle.std.specs.Prelude.{◌∷◌, ◌++◌, [], List};
ghost use Rattle.card_set.specs.declared.card.Card.{Card};
ghost use Rattle.hand_rank.specs.Cards.{AreOnce};
ghost use Rattle.hand_rank.specs.Held.{count_of_some_suit, suit_of, IsBoardOf};
ghost use Rattle.hand_rank.specs.Sets.{HasRanks};

use crate::rank_set::RankSet;
use crate::suits::Suits;
use crate::tally::Tally;
use card_set::Card;

/// The ranks of a board, suit by suit and by how often they occur.
#[derive(Clone, Copy)]
pub struct Board {
    pub suits: Suits,
    pub tally: Tally,
}

impl Board {
    /// Makes the board of these cards.
    pub fn of(cards: [Card; 5]) -> Board
        ensures { AreOnce cards → IsBoardOf result cards }
    {
        let suits = Suits::of(&cards);
        Board {
            suits,
            tally: suits.tally(),
        }
    }

    /// Gives the ranks of the suit of two cards in them and on the board. None where they have two suits.
    pub fn suited(&self, one: Card, other: Card) -> RankSet
        ensures { (cards : List Card) → IsBoardOf self.now cards
            → HasRanks result.bits 1 (count_of_some_suit (suit_of (one ∷ other ∷ [])) (one ∷ other ∷ cards)) }
    {
        if one.suit != other.suit {
            return RankSet::empty();
        }
        let ranks = self.suits.ranks[one.suit as usize];
        ranks.with(one.rank).with(other.rank)
    }
}
