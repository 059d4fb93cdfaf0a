//! A list of at most six numbers that takes no memory.

ghost use Rattle.std.specs.Prelude.{◌≡◌, ◌+◌, ◌<◌, ◌≤◌, ◌++◌, ◌∷◌, [], length};
ghost use Rattle.hand_rank.specs.Sets.{ranks_of};

use crate::rank_set::RankSet;
use std::marker::Model;

/// The most numbers that a list has.
const MOST: usize = 6;

/// A list of at most six numbers. Contracts see it as the list.
#[derive(Clone, Copy)]
pub struct Numbers {
    numbers: [u8; MOST],
    len: usize,
}

impl Model for Numbers {
    ghost use Rattle.std.specs.Prelude.{ℕ, List, length, take};
    ghost use Rattle.hand_rank.specs.Padded.{padded, IsPadded, padded_back};

    ghost Value = { List ℕ };

    ghost view = { λ list. take list.len list.numbers };

    ghost invariant = { λ list. IsPadded list.numbers list.len };

    ghost inverse = { λ numbers. record { numbers = padded numbers; len = length numbers } };

    ghost inverse_ok = { λ inside is.
        let same = padded_back inside.numbers inside.len is in λ i. record { numbers = same.0 i; len = same.1 i } };
}

impl Numbers {
    /// Gives the list of no numbers.
    pub(crate) fn new() -> Numbers
        ensures { result ≡ [] }
    {
        Numbers {
            numbers: [0; MOST],
            len: 0,
        }
    }

    /// Adds a number at the end.
    pub(crate) fn push(&mut self, number: u8)
        requires { length self.old < 6 }
        ensures { self.new ≡ self.old ++ number ∷ [] }
    {
        self.numbers[self.len] = number;
        self.len += 1;
    }

    /// Adds the ranks of a set at the end, higher ones first.
    pub(crate) fn push_ranks(&mut self, ranks: RankSet)
        requires { length self.old + length (ranks_of ranks.bits) ≤ 6 }
        ensures { self.new ≡ self.old ++ ranks_of ranks.bits }
    {
        let mut left = ranks;
        for _ in 0..MOST {
            let Some(rank) = left.highest() else {
                return;
            };
            left = left.without(rank);
            self.push(rank);
        }
    }

    /// Gives the numbers.
    pub fn as_slice(&self) -> &[u8]
        ensures { result.now ≡ self.now }
    {
        &self.numbers[..self.len]
    }
}
