//! Sets of low ranks.

ghost use Rattle.std.specs.Prelude.{◌≡◌, ◌<◌, ◌≤◌, ℕ, ◌&&◌, ◌||◌, ◌^◌, not};
ghost use Rattle.low_rank.specs.Lows.{low_rank};
ghost use Rattle.low_rank.specs.LowRanks.{has_rank, has_low, least, without_least, rank_above, five_least};

use crate::low_value::LowValue;
use card_set::Card;

/// The bits of the numbers up to eight.
const UP_TO_EIGHT: u16 = 0b1_1111_1111;

/// Gives the rank of a card in a low hand: the ace counts as 1.
fn low_rank(card: Card) -> u8
    ensures same { result ≡ low_rank card }
    ensures within { result < 16 }
{
    if card.rank == 14 { 1 } else { card.rank }
}

/// A set of low ranks, from 1 for the ace to 8: a rank is in it where the bit of its number is 1.
#[derive(Clone, Copy)]
pub struct LowRanks {
    pub bits: u16,
    pub ghost low: { bits < 2 ^ 9 },
}

impl LowRanks {
    /// Gives the low ranks of some cards.
    pub fn of(cards: &[Card]) -> LowRanks
        ensures { (rank : ℕ) → rank < 9 → has_rank result.bits rank ≡ has_low cards.now rank }
    {
        let mut bits = 0;
        for card in cards {
            bits |= 1 << low_rank(*card);
        }
        LowRanks {
            bits: bits & UP_TO_EIGHT,
        }
    }

    /// Gives the ranks of either set.
    #[tactic(auto, using(crate::proofs::BitLaws::has_rank_or))]
    pub fn union(self, other: LowRanks) -> LowRanks
        ensures { (rank : ℕ) → has_rank result.bits rank ≡ (has_rank self.bits rank || has_rank other.bits rank) }
    {
        LowRanks {
            bits: self.bits | other.bits,
        }
    }

    /// Gives the ranks of both sets.
    #[tactic(auto, using(crate::proofs::BitLaws::has_rank_and, std::proofs::lemmas::Nat::and_le_l))]
    pub fn meet(self, other: LowRanks) -> LowRanks
        ensures { (rank : ℕ) → has_rank result.bits rank ≡ (has_rank self.bits rank && has_rank other.bits rank) }
    {
        LowRanks {
            bits: self.bits & other.bits,
        }
    }

    /// Gives the ranks of this set that the other has not.
    #[tactic(auto, using(crate::proofs::BitLaws::has_rank_minus, std::proofs::lemmas::Nat::and_le_l))]
    pub fn minus(self, other: LowRanks) -> LowRanks
        ensures { (rank : ℕ) → rank < 9
            → has_rank result.bits rank ≡ (has_rank self.bits rank && not (has_rank other.bits rank)) }
    {
        LowRanks {
            bits: self.bits & !other.bits,
        }
    }

    /// Gives the set without its least ranks, so many of them.
    fn without_least(self, count: u8) -> LowRanks
        ensures { result.bits ≡ without_least count self.bits }
    {
        let mut bits = self.bits;
        for _ in 0..count {
            bits &= bits.saturating_sub(1);
        }
        LowRanks { bits }
    }

    /// Gives the least ranks, so many of them, or all where there are fewer.
    #[tactic(auto, using(crate::proofs::BitLaws::least_bits))]
    pub fn least(self, count: u8) -> LowRanks
        requires { count < 4 }
        ensures { (rank : ℕ) → rank < 9 → has_rank result.bits rank ≡ least count (has_rank self.bits) rank }
    {
        self.minus(self.without_least(count))
    }

    /// Gives the least rank of those above so many.
    fn rank_above(self, lower: u8) -> u8
        ensures { result ≡ rank_above lower self.bits }
    {
        self.without_least(lower).bits.trailing_zeros() as u8
    }

    /// Gives the low of the five least ranks. `None` where there are fewer.
    pub fn five_least(self) -> Option<LowValue>
        ensures { result ≡ five_least (has_rank self.bits) }
    {
        if self.without_least(4).bits == 0 {
            return None;
        }
        Some(LowValue::of([
            self.rank_above(4),
            self.rank_above(3),
            self.rank_above(2),
            self.rank_above(1),
            self.rank_above(0),
        ]))
    }
}
