//! The best hand of hole cards that are all shown with cards of a board: two of Omaha, or none where all seven cards of
//! hold'em are the board.
//!
//! Each category takes the greatest ranks that occur so often in both and that leave room for the hole cards.

ghost use Rattle.std.specs.Prelude.{◌≡◌, ◌<◌, ◌≤◌, ◌++◌, ℕ, List, [], length, IfSome, true};
ghost use Rattle.card_set.specs.declared.card.Card.{Card};
ghost use Rattle.hand_rank.specs.BestHigh.{best_high};
ghost use Rattle.hand_rank.specs.Cards.{AreOnce};
ghost use Rattle.hand_rank.specs.Held.{hands, IsBoardOf, IsHeld, AreNear, MayLead, OneHasToLead, IsHighestRunWith, IsBestIn};
ghost use Rattle.hand_rank.specs.Sets.{has_rank, ranks_of, HasRanks};
ghost use Rattle.hand_rank.specs.Shapes.{repeated, shape_at, is_form};
ghost use Rattle.hand_rank.specs.SoMany.{IsGreatest};
ghost use Rattle.hand_rank.specs.Values.{category_number};

use crate::board::Board;
use crate::category::Category;
use crate::high_value::HighValue;
use crate::rank_set::RankSet;
use crate::suits::Suits;
use crate::tally::Tally;
use card_choices::Pair;
use card_set::Card;

/// So many ranks that occur so often each.
#[derive(Clone, Copy)]
struct Times {
    ranks: u8,
    each: u8,
}

/// How often ranks occur in hole cards, and in the hole cards and a board together. The ranks of the suit that a flush
/// may have, in both, and the ranks that may run with the hole cards. What looks for the best hand is inlined, so that
/// with no hole cards nothing is asked of them.
#[derive(Clone, Copy)]
pub struct Held {
    pub hole: Tally,
    pub all: Tally,
    pub suited: RankSet,
    pub near: RankSet,
}

impl Held {
    /// Gives a pair of hole cards with a board.
    pub fn of(pair: Pair, board: &Board) -> Held
        ensures { (cards : List Card) → IsBoardOf board.now cards → length pair ≡ 2 → length cards ≡ 5
            → AreOnce (pair ++ cards) → IsHeld result pair cards }
    {
        let [one, other] = pair.cards();
        let hole = Tally::of(one.rank).union(Tally::of(other.rank));
        Held {
            hole,
            all: hole.union(board.tally),
            suited: board.suited(one, other),
            near: RankSet::near_both(one.rank, other.rank),
        }
    }

    /// Gives no hole cards with a board of seven cards.
    #[inline(always)]
    pub fn none(board: [Card; 7]) -> Held
        ensures { AreOnce board → IsHeld result [] board }
    {
        let suits = Suits::of(&board);
        Held {
            hole: Tally::none(),
            all: suits.tally(),
            suited: suits.longest(),
            near: RankSet::all(),
        }
    }

    /// Gives the ranks of which one has to occur most often, where the others leave no room for all hole cards. None
    /// where they do.
    fn leading(self, others: Times) -> RankSet
        requires some { 1 ≤ others.ranks }
        requires low { 1 ≤ others.each }
        requires high { others.each < 4 }
        ensures { (hole board : List Card) → IsHeld self hole board
            → OneHasToLead result.bits hole others.ranks others.each }
    {
        let more_often = self.hole.ranks(others.each + 1);
        if !more_often.is_empty() {
            return more_often;
        }
        if self.hole.once.has_more(others.ranks) {
            return self.hole.once;
        }
        RankSet::empty()
    }

    /// Gives the greatest ranks that may occur most often beside others.
    #[inline(always)]
    fn leaders(self, most: Times, others: Times) -> Option<RankSet>
        requires some { 1 ≤ others.ranks }
        requires each { 1 ≤ others.each }
        requires less { others.each < most.each }
        requires high { most.each ≤ 4 }
        ensures many { IfSome result (λ set. length (ranks_of set.bits) ≡ most.ranks) }
        ensures greatest { (hole board : List Card) → IsHeld self hole board
            → IsGreatest result (MayLead hole board most.ranks most.each others.ranks others.each) }
    {
        let from = self.all.ranks(most.each);
        let leading = self.leading(others);
        if leading.is_empty() {
            return from.greatest_with(RankSet::empty(), most.ranks);
        }
        let first = from.meet(leading).highest()?;
        from.greatest_with(RankSet::of(first), most.ranks)
    }

    /// Gives the best hand of a category in which so many ranks occur most often and so many others beside them.
    #[inline(always)]
    fn shaped(self, category: Category, most: Times, others: Times) -> Option<HighValue>
        requires shape { shape_at (category_number category)
            ≡ repeated most.ranks most.each ++ repeated others.ranks others.each }
        requires form { is_form (category_number category) most.ranks most.each others.ranks others.each ≡ true }
        ensures { (hole board : List Card) → IsHeld self hole board
            → IsBestIn (category_number category) result (hands hole board) }
    {
        let leaders = self.leaders(most, others)?;
        let beside = self.all.ranks(others.each).minus(leaders);
        let others = beside.greatest_with(self.hole.once.minus(leaders), others.ranks)?;
        Some(HighValue::of(category, leaders, others))
    }

    /// Gives the top rank of the highest run among some ranks that has the hole cards in it.
    #[inline(always)]
    fn run(self, ranks: RankSet) -> Option<u8>
        ensures highest { (hole : List Card) (count : ℕ → ℕ) → AreNear self.near.bits hole → HasRanks ranks.bits 1 count
            → IsHighestRunWith result count hole }
        ensures within { IfSome result (λ top. top < 16) }
    {
        ranks.meet(self.near).highest_run()
    }

    #[inline(always)]
    fn straight_flush(self) -> Option<HighValue>
        ensures { (hole board : List Card) → IsHeld self hole board → IsBestIn 8 result (hands hole board) }
    {
        let top = self.run(self.suited)?;
        Some(HighValue::of_run(Category::StraightFlush, top))
    }

    #[inline(always)]
    fn flush(self) -> Option<HighValue>
        ensures { (hole board : List Card) → IsHeld self hole board → IsBestIn 5 result (hands hole board) }
    {
        let ranks = self.suited.greatest_with(self.hole.once, 5)?;
        Some(HighValue::of_distinct(Category::Flush, ranks))
    }

    #[inline(always)]
    fn straight(self) -> Option<HighValue>
        ensures { (hole board : List Card) → IsHeld self hole board → IsBestIn 4 result (hands hole board) }
    {
        let top = self.run(self.all.once)?;
        Some(HighValue::of_run(Category::Straight, top))
    }

    #[inline(always)]
    fn four_of_a_kind(self) -> Option<HighValue>
        ensures { (hole board : List Card) → IsHeld self hole board → IsBestIn 7 result (hands hole board) }
    {
        self.shaped(
            Category::FourOfAKind,
            Times { ranks: 1, each: 4 },
            Times { ranks: 1, each: 1 },
        )
    }

    #[inline(always)]
    fn full_house(self) -> Option<HighValue>
        ensures { (hole board : List Card) → IsHeld self hole board → IsBestIn 6 result (hands hole board) }
    {
        self.shaped(
            Category::FullHouse,
            Times { ranks: 1, each: 3 },
            Times { ranks: 1, each: 2 },
        )
    }

    #[inline(always)]
    fn three_of_a_kind(self) -> Option<HighValue>
        ensures { (hole board : List Card) → IsHeld self hole board → IsBestIn 3 result (hands hole board) }
    {
        self.shaped(
            Category::ThreeOfAKind,
            Times { ranks: 1, each: 3 },
            Times { ranks: 2, each: 1 },
        )
    }

    #[inline(always)]
    fn two_pair(self) -> Option<HighValue>
        ensures { (hole board : List Card) → IsHeld self hole board → IsBestIn 2 result (hands hole board) }
    {
        self.shaped(
            Category::TwoPair,
            Times { ranks: 2, each: 2 },
            Times { ranks: 1, each: 1 },
        )
    }

    #[inline(always)]
    fn one_pair(self) -> Option<HighValue>
        ensures { (hole board : List Card) → IsHeld self hole board → IsBestIn 1 result (hands hole board) }
    {
        self.shaped(
            Category::OnePair,
            Times { ranks: 1, each: 2 },
            Times { ranks: 3, each: 1 },
        )
    }

    #[inline(always)]
    fn high_card(self) -> Option<HighValue>
        ensures { (hole board : List Card) → IsHeld self hole board → IsBestIn 0 result (hands hole board) }
    {
        self.shaped(
            Category::HighCard,
            Times { ranks: 0, each: 2 },
            Times { ranks: 5, each: 1 },
        )
    }

    /// Gives the best hand of the hole cards with cards of the board.
    #[inline(always)]
    pub fn best_hand(self) -> HighValue
        ensures { (hole board : List Card) → IsHeld self hole board → result ≡ best_high (hands hole board) }
    {
        if let Some(value) = self.straight_flush() {
            return value;
        }
        if let Some(value) = self.four_of_a_kind() {
            return value;
        }
        if let Some(value) = self.full_house() {
            return value;
        }
        if let Some(value) = self.flush() {
            return value;
        }
        if let Some(value) = self.straight() {
            return value;
        }
        if let Some(value) = self.three_of_a_kind() {
            return value;
        }
        if let Some(value) = self.two_pair() {
            return value;
        }
        if let Some(value) = self.one_pair() {
            return value;
        }
        match self.high_card() {
            Some(value) => value,
            None => HighValue::least(),
        }
    }
}
