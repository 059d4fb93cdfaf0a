//! The value of five cards.

ghost use Rattle.std.specs.Prelude.{◌≡◌, ◌+◌, ◌≤◌, ◌<◌, ◌∷◌, ◌++◌, [], length, nat_eq, Some};
ghost use Rattle.hand_rank.specs.Sets.{ranks_of};
ghost use Rattle.hand_rank.specs.Shapes.{most_of};
ghost use Rattle.hand_rank.specs.Values.{category_number};
ghost use Rattle.std.proofs.Common.{rules};
ghost use Rattle.std.specs.Ordering.{nat_cmp};
ghost use Rattle.std.specs.Cmp.{partial_equiv_from_equiv};
ghost use Rattle.std.specs.Cmp.Lexicographic.{pointwise, slice_cmp, nat_list_eq_equiv, nat_list_cmp_total, texts_ties, texts_po};

use crate::category::Category;
use crate::numbers::Numbers;
use crate::rank_set::RankSet;
use std::cmp::Ordering;
use std::marker::Model;

/// The value of five cards: their category, the ranks that occur most often, and the other ranks that decide. A
/// straight has its top rank alone, and ranks that all occur once are the others. Contracts see it as the list of the
/// category's number and these ranks, and values compare as these lists do. Suits break no tie.
#[derive(Clone, Copy)]
pub struct HighValue {
    category: Category,
    most: RankSet,
    others: RankSet,
}

impl Model for HighValue {
    ghost use Rattle.std.specs.Prelude.{ℕ, List};

    ghost Value = { List ℕ };

    ghost use Rattle.hand_rank.specs.HighValue.{numbers_of, value_with, IsSized};
    ghost use Rattle.hand_rank.specs.GivenBack.{given_back};

    ghost view = { numbers_of };

    ghost invariant = { IsSized };

    ghost inverse = { value_with };

    ghost inverse_ok = { given_back };
}

impl HighValue {
    /// Gives the value of a category, with the ranks that occur most often and the others.
    #[inline(always)]
    pub(crate) fn of(category: Category, most: RankSet, others: RankSet) -> HighValue
        requires most { length (ranks_of most.bits) ≡ most_of (category_number category) }
        requires few { length (ranks_of most.bits) + length (ranks_of others.bits) ≤ 5 }
        ensures { result ≡ category_number category ∷ ranks_of most.bits ++ ranks_of others.bits }
    {
        HighValue {
            category,
            most,
            others,
        }
    }

    /// Gives the value of a run, by its top rank alone.
    #[inline(always)]
    pub(crate) fn of_run(category: Category, top: u8) -> HighValue
        requires one { most_of (category_number category) ≡ 1 }
        requires within { top < 16 }
        ensures { result ≡ category_number category ∷ top ∷ [] }
    {
        HighValue::of(category, RankSet::of(top), RankSet::empty())
    }

    /// Gives the value of ranks that all occur once.
    #[inline(always)]
    pub(crate) fn of_distinct(category: Category, ranks: RankSet) -> HighValue
        requires none { most_of (category_number category) ≡ 0 }
        requires few { length (ranks_of ranks.bits) ≤ 5 }
        ensures { result ≡ category_number category ∷ ranks_of ranks.bits }
    {
        HighValue::of(category, RankSet::empty(), ranks)
    }

    /// Gives a value that no five cards come before.
    pub(crate) fn least() -> HighValue
        ensures { result ≡ 0 ∷ [] }
    {
        HighValue::of_distinct(Category::HighCard, RankSet::empty())
    }

    /// Gives the numbers of the value: its category, from 0 to 8, and then its ranks, from 2 to 14.
    pub fn numbers(&self) -> Numbers
        ensures { result ≡ self.now }
    {
        let mut numbers = Numbers::new();
        numbers.push(self.category.number());
        numbers.push_ranks(self.most);
        numbers.push_ranks(self.others);
        numbers
    }
}

impl PartialEq for HighValue {
    ghost eq = { pointwise nat_eq };

    ghost laws = { partial_equiv_from_equiv nat_list_eq_equiv };

    fn eq(&self, other: &HighValue) -> bool {
        self.cmp(other).is_eq()
    }
}

impl Eq for HighValue {
    ghost laws = { nat_list_eq_equiv };
}

impl PartialOrd for HighValue {
    ghost partial_cmp = { λ one other. Some (slice_cmp nat_cmp one other) };

    ghost laws = { texts_po };

    fn partial_cmp(&self, other: &HighValue) -> Option<Ordering> {
        Some(self.cmp(other))
    }
}

impl Ord for HighValue {
    ghost cmp = { slice_cmp nat_cmp };

    ghost total = { nat_list_cmp_total };

    ghost matches_partial_cmp = { Prim.search rules };

    ghost matches_eq = { texts_ties };

    /// Compares by the category, then by the ranks that occur most often, then by the others. Of sets of as many ranks
    /// the one with the higher ranks is the greater number.
    fn cmp(&self, other: &HighValue) -> Ordering {
        let category = self.category.number().cmp(&other.category.number());
        let most = self.most.bits.cmp(&other.most.bits);
        let others = self.others.bits.cmp(&other.others.bits);
        category.then(most).then(others)
    }
}
