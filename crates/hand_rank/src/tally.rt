//! How often the ranks of cards occur.

ghost use Rattle.std.specs.Prelude.{◌≡◌, ℕ, ◌+◌, ◌≤◌, ◌==◌, cond};
ghost use Rattle.hand_rank.specs.Sets.{HasRanks, IsTallyOf};

use crate::rank_set::RankSet;

/// The ranks that occur once or more often, twice or more often, three times or more often, and four times.
#[derive(Clone, Copy)]
pub struct Tally {
    pub once: RankSet,
    pub twice: RankSet,
    pub thrice: RankSet,
    pub four: RankSet,
}

impl Tally {
    /// Tells how often ranks occur in no cards.
    pub fn none() -> Tally
        ensures { IsTallyOf result.once.bits result.twice.bits result.thrice.bits result.four.bits (λ rank. 0) }
    {
        Tally {
            once: RankSet::empty(),
            twice: RankSet::empty(),
            thrice: RankSet::empty(),
            four: RankSet::empty(),
        }
    }

    /// Tells how often ranks occur in one card.
    pub fn of(rank: u8) -> Tally
        requires low { 2 ≤ rank }
        requires high { rank ≤ 14 }
        ensures { (count : ℕ → ℕ) → ((r : ℕ) → count r ≡ cond (rank == r) 1 0)
            → IsTallyOf result.once.bits result.twice.bits result.thrice.bits result.four.bits count }
    {
        Tally {
            once: RankSet::of(rank),
            twice: RankSet::empty(),
            thrice: RankSet::empty(),
            four: RankSet::empty(),
        }
    }

    /// Tells how often ranks occur in some cards and in others.
    pub fn union(self, others: Tally) -> Tally
        ensures { (one other both : ℕ → ℕ)
            → IsTallyOf self.once.bits self.twice.bits self.thrice.bits self.four.bits one
            → IsTallyOf others.once.bits others.twice.bits others.thrice.bits others.four.bits other
            → ((r : ℕ) → both r ≡ one r + other r)
            → IsTallyOf result.once.bits result.twice.bits result.thrice.bits result.four.bits both }
    {
        let one_and_one = self.once.meet(others.once);
        let two_and_one = self.twice.meet(others.once);
        let one_and_two = self.once.meet(others.twice);
        let three_and_one = self.thrice.meet(others.once);
        let two_and_two = self.twice.meet(others.twice);
        let one_and_three = self.once.meet(others.thrice);
        Tally {
            once: self.once.union(others.once),
            twice: self.twice.union(others.twice).union(one_and_one),
            thrice: self
                .thrice
                .union(others.thrice)
                .union(two_and_one.union(one_and_two)),
            four: self
                .four
                .union(others.four)
                .union(three_and_one.union(two_and_two.union(one_and_three))),
        }
    }

    /// Gives the ranks that occur so often or more often.
    pub fn ranks(self, each: u8) -> RankSet
        requires low { 1 ≤ each }
        requires high { each ≤ 4 }
        ensures { (count : ℕ → ℕ) → IsTallyOf self.once.bits self.twice.bits self.thrice.bits self.four.bits count
            → HasRanks result.bits each count }
    {
        match each {
            1 => self.once,
            2 => self.twice,
            3 => self.thrice,
            _ => self.four,
        }
    }
}
