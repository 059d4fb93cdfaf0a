//! Sets of ranks.

ghost use Rattle.std.specs.Prelude.{◌≡◌, ◌<◌, ◌≤◌, ℕ, ◌+◌, ◌-◌, ◌&&◌, ◌||◌, ◌==◌, List, [], length, cond, not, nat_le, nat_lt, true, false, IfSome};
ghost use Rattle.card_set.specs.declared.card.Card.{Card};
ghost use Rattle.hand_rank.specs.Held.{AreNear};
ghost use Rattle.hand_rank.specs.Picks.{highest_below};
ghost use Rattle.hand_rank.specs.Runs.{highest_run, is_near};
ghost use Rattle.hand_rank.specs.Sets.{has_rank, ranks_of, HasRanks};
ghost use Rattle.hand_rank.specs.SoMany.{IsGreatestWith};
ghost use Rattle.hand_rank.specs.Values.{count_of_rank};

/// At each rank the ranks of the runs that it is in.
const NEAR: [u16; 16] = [
    0, 0, 16508, 16636, 16892, 17404, 2044, 4088, 8176, 16352, 32704, 32640, 32512, 32256, 31804, 0,
];

/// A set of ranks, from 2 to 14 for the ace: a rank is in it where the bit of its number is 1.
#[derive(Clone, Copy)]
pub struct RankSet {
    pub bits: u16,
}

impl RankSet {
    /// Gives the set of no ranks.
    pub const fn empty() -> RankSet
        ensures { result.bits ≡ 0 }
    {
        RankSet { bits: 0 }
    }

    /// Gives the set of all ranks.
    pub const fn all() -> RankSet
        ensures { AreNear result.bits [] }
    {
        RankSet { bits: 32764 }
    }

    /// Gives the set of one rank.
    pub fn of(rank: u8) -> RankSet
        requires { rank < 16 }
        ensures ranks { (r : ℕ) → has_rank result.bits r ≡ (r == rank) }
    {
        RankSet::empty().with(rank)
    }

    /// Gives the set with a rank in it.
    #[tactic(auto, using(crate::proofs::SetLaws::has_rank_with))]
    pub fn with(self, rank: u8) -> RankSet
        requires { rank < 16 }
        ensures { (r : ℕ) → has_rank result.bits r ≡ (has_rank self.bits r || r == rank) }
    {
        RankSet {
            bits: self.bits | 1 << rank,
        }
    }

    /// Gives the set without a rank.
    #[tactic(auto, using(crate::proofs::SetLaws::has_rank_without))]
    pub fn without(self, rank: u8) -> RankSet
        requires { rank < 16 }
        ensures { (r : ℕ) → r < 16 → has_rank result.bits r ≡ (has_rank self.bits r && not (r == rank)) }
    {
        RankSet {
            bits: self.bits & !(1 << rank),
        }
    }

    /// Gives the set without its lowest rank, if it has one.
    fn without_lowest(self) -> RankSet
        ensures { length (ranks_of result.bits) ≡ length (ranks_of self.bits) - 1 }
    {
        RankSet {
            bits: self.bits & self.bits.wrapping_sub(1),
        }
    }

    /// Gives the ranks of either set.
    #[tactic(auto, using(crate::proofs::SetLaws::has_rank_or))]
    pub fn union(self, other: RankSet) -> RankSet
        ensures { (r : ℕ) → has_rank result.bits r ≡ (has_rank self.bits r || has_rank other.bits r) }
    {
        RankSet {
            bits: self.bits | other.bits,
        }
    }

    /// Gives the ranks of both sets.
    #[tactic(auto, using(crate::proofs::SetLaws::has_rank_and))]
    pub fn meet(self, other: RankSet) -> RankSet
        ensures { (r : ℕ) → has_rank result.bits r ≡ (has_rank self.bits r && has_rank other.bits r) }
    {
        RankSet {
            bits: self.bits & other.bits,
        }
    }

    /// Gives the ranks of this set that the other has not.
    pub fn minus(self, other: RankSet) -> RankSet
        ensures { (r : ℕ) → r < 16 → has_rank result.bits r ≡ (has_rank self.bits r && not (has_rank other.bits r)) }
    {
        RankSet {
            bits: self.bits & !other.bits,
        }
    }

    /// Tells whether there is no rank.
    pub fn is_empty(self) -> bool
        ensures none { result ≡ true → ranks_of self.bits ≡ [] }
        ensures some { result ≡ false → 1 ≤ length (ranks_of self.bits) }
    {
        self.bits == 0
    }

    /// Tells whether there are more ranks than so many.
    pub fn has_more(self, count: u8) -> bool
        ensures { result ≡ nat_lt count (length (ranks_of self.bits)) }
    {
        let mut left = self;
        for _ in 0..count {
            left = left.without_lowest();
        }
        !left.is_empty()
    }

    /// Gives the highest rank. `None` where there is none.
    pub fn highest(self) -> Option<u8>
        ensures rank { result ≡ highest_below (has_rank self.bits) 16 }
        ensures within { IfSome result (λ rank. rank < 16) }
    {
        if self.bits == 0 {
            None
        } else {
            Some((15 - self.bits.leading_zeros()) as u8)
        }
    }

    /// Tells how many ranks there are.
    pub fn count(self) -> u8
        ensures { result ≡ length (ranks_of self.bits) }
    {
        self.bits.count_ones() as u8
    }

    /// Gives the ranks of the runs that a rank is in.
    fn near(rank: u8) -> RankSet
        requires { rank < 16 }
        ensures { (r : ℕ) → r < 16 → has_rank result.bits r ≡ is_near rank r }
    {
        RankSet {
            bits: NEAR[rank as usize],
        }
    }

    /// Gives the ranks of the runs that two ranks are in. None where the two are the same.
    pub fn near_both(one: u8, other: u8) -> RankSet
        requires one { one < 15 }
        requires other { other < 15 }
        ensures { (hole : List Card) → ((r : ℕ) → count_of_rank hole r ≡ cond (one == r) 1 0 + cond (other == r) 1 0)
            → AreNear result.bits hole }
    {
        if one == other {
            RankSet::empty()
        } else {
            RankSet::near(one).meet(RankSet::near(other))
        }
    }

    /// Gives the greatest so many ranks of the set that have all ranks of another among them. `None` where there are
    /// none.
    #[inline(always)]
    pub fn greatest_with(self, forced: RankSet, count: u8) -> Option<RankSet>
        ensures { IsGreatestWith result (has_rank self.bits) (has_rank forced.bits) count }
    {
        if !forced.minus(self).is_empty() {
            return None;
        }
        let missing = count.checked_sub(forced.count())?;
        let mut ranks = forced;
        let mut free = self.minus(forced);
        for _ in 0..missing {
            let rank = free.highest()?;
            free = free.without(rank);
            ranks = ranks.with(rank);
        }
        Some(ranks)
    }

    /// Gives the top rank of the highest five ranks that run, with the ace also below the two. `None` where no five
    /// run.
    pub fn highest_run(self) -> Option<u8>
        ensures top { (count : ℕ → ℕ) → HasRanks self.bits 1 count
            → result ≡ highest_run (λ rank. nat_le 1 (count rank)) }
        ensures within { IfSome result (λ top. top < 16) }
    {
        let steps = self.bits | (self.bits >> 13 & 2);
        let runs = steps & steps >> 1 & steps >> 2 & steps >> 3 & steps >> 4;
        if runs == 0 {
            None
        } else {
            Some((19 - runs.leading_zeros()) as u8)
        }
    }
}
