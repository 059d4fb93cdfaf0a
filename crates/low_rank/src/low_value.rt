//! The value of a low hand.

ghost use Rattle.std.specs.Prelude.{◌≡◌, nat_eq, Some};
ghost use Rattle.std.proofs.Common.{rules};
ghost use Rattle.std.specs.Ordering.{nat_cmp};
ghost use Rattle.std.specs.Cmp.{partial_equiv_from_equiv};
ghost use Rattle.std.specs.Cmp.Lexicographic.{pointwise, slice_cmp, nat_list_eq_equiv, nat_list_cmp_total, texts_ties, texts_po};

use std::cmp::Ordering;
use std::marker::Model;

/// The value of a low hand: its five ranks in falling order, the ace as 1. Contracts see it as the list of these ranks,
/// and values compare as these lists do. The lesser value is better.
#[derive(Clone, Copy)]
pub struct LowValue {
    ranks: [u8; 5],
}

impl Model for LowValue {
    ghost use Rattle.std.specs.Prelude.{ℕ, List};

    ghost Value = { List ℕ };

    ghost view = { λ value. value.ranks };

    ghost inverse = { λ ranks. record { ranks = ranks } };
}

impl LowValue {
    /// Makes the value of five ranks in falling order.
    pub(crate) fn of(ranks: [u8; 5]) -> LowValue
        ensures { result ≡ ranks }
    {
        LowValue { ranks }
    }

    /// Gives the five ranks in falling order, from 1 for the ace to 8.
    pub fn ranks(&self) -> &[u8]
        ensures { result.now ≡ self.now }
    {
        &self.ranks
    }
}

impl PartialEq for LowValue {
    ghost eq = { pointwise nat_eq };

    ghost laws = { partial_equiv_from_equiv nat_list_eq_equiv };

    fn eq(&self, other: &LowValue) -> bool {
        self.ranks() == other.ranks()
    }
}

impl Eq for LowValue {
    ghost laws = { nat_list_eq_equiv };
}

impl PartialOrd for LowValue {
    ghost partial_cmp = { λ one other. Some (slice_cmp nat_cmp one other) };

    ghost laws = { texts_po };

    fn partial_cmp(&self, other: &LowValue) -> Option<Ordering> {
        Some(self.cmp(other))
    }
}

impl Ord for LowValue {
    ghost cmp = { slice_cmp nat_cmp };

    ghost total = { nat_list_cmp_total };

    ghost matches_partial_cmp = { Prim.search rules };

    ghost matches_eq = { texts_ties };

    fn cmp(&self, other: &LowValue) -> Ordering {
        self.ranks().cmp(other.ranks())
    }
}
