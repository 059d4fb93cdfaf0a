//! The ranks of each suit among cards.

ghost use Rattle.std.specs.Prelude.{◌<◌, List, [], length};
ghost use Rattle.card_set.specs.declared.card.Card.{Card};
ghost use Rattle.hand_rank.specs.Cards.{AreOnce};
ghost use Rattle.hand_rank.specs.Held.{AreSuited};
ghost use Rattle.hand_rank.specs.Sets.{IsTallyOf, AreSuitsOf};
ghost use Rattle.hand_rank.specs.Values.{count_of_rank};

use crate::rank_set::RankSet;
use crate::tally::Tally;
use card_set::Card;

/// The ranks of the cards of each suit: clubs, diamonds, hearts and spades.
#[derive(Clone, Copy)]
pub struct Suits {
    pub ranks: [RankSet; 4],
}

impl Suits {
    /// Gives the ranks of the suits of some cards.
    pub fn of(cards: &[Card]) -> Suits
        ensures { AreSuitsOf result.ranks cards.now }
    {
        let mut ranks = [RankSet::empty(); 4];
        for card in cards {
            let suit = card.suit as usize;
            ranks[suit] = ranks[suit].with(card.rank);
        }
        Suits { ranks }
    }

    /// Tells how often ranks occur. No card may come twice.
    pub fn tally(self) -> Tally
        ensures { (cards : List Card) → AreSuitsOf self.ranks cards → AreOnce cards
            → IsTallyOf result.once.bits result.twice.bits result.thrice.bits result.four.bits (count_of_rank cards) }
    {
        let [clubs, diamonds, hearts, spades] = self.ranks;
        let either_minor = clubs.union(diamonds);
        let both_minors = clubs.meet(diamonds);
        let either_major = hearts.union(spades);
        let both_majors = hearts.meet(spades);
        let two_of_a_kind = both_minors.union(both_majors);
        let minor_and_major = either_minor.meet(either_major);
        let two_minors = both_minors.meet(either_major);
        let two_majors = either_minor.meet(both_majors);
        Tally {
            once: either_minor.union(either_major),
            twice: two_of_a_kind.union(minor_and_major),
            thrice: two_minors.union(two_majors),
            four: both_minors.meet(both_majors),
        }
    }

    /// Gives the ranks of the suit that has five cards, where there are fewer than ten cards. None where there is no
    /// such suit.
    pub fn longest(self) -> RankSet
        ensures { (cards : List Card) → AreSuitsOf self.ranks cards → AreOnce cards → length cards < 10
            → AreSuited result.bits [] cards }
    {
        let [clubs, diamonds, hearts, spades] = self.ranks;
        if clubs.has_more(4) {
            return clubs;
        }
        if diamonds.has_more(4) {
            return diamonds;
        }
        if hearts.has_more(4) {
            return hearts;
        }
        if spades.has_more(4) {
            return spades;
        }
        RankSet::empty()
    }
}
