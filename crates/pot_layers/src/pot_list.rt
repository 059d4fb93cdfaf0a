//! The pots of a hand, in order.

ghost use Rattle.std.specs.Prelude.{◌≡◌, ◌+◌, ◌<◌, ◌≤◌, ◌^◌, ◌==◌, List, [], ◌∷◌, ◌++◌, length, slice_get};
ghost use Rattle.pot_layers.specs.declared.pot_list.Pot.{Pot};
ghost use Rattle.pot_layers.specs.Layers.{with_dead};
ghost use Rattle.pot_layers.specs.PotTests.{total_of};

use button_blinds::SeatSet;
use std::marker::Model;

/// The most pots that a hand has.
const MOST_POTS: usize = 10;

/// A pot, in chips, and the seats of the players who may win it.
#[derive(Clone, Copy, PartialEq, Eq)]
pub struct Pot {
    /// The chips in it.
    pub amount: u64,
    /// The seats of those who may win it.
    pub eligible: SeatSet,
}

/// The pots of a hand, the main pot first. Contracts see the list of them.
#[derive(Drop)]
pub struct Pots {
    pots: [Pot; 10],
    len: usize,
}

impl Model for Pots {
    ghost use Rattle.std.specs.Prelude.{◌≡◌, ◌≤◌, List, length, take};
    ghost use Rattle.pot_layers.specs.declared.pot_list.Pot.{Pot};

    ghost Value = { List Pot };

    ghost view = { λ pots. take pots.len pots.pots };

    ghost invariant = { λ pots. (pots.len ≤ 10) × (length pots.pots ≡ 10) };
}

impl Pots {
    /// Makes a list with no pots yet.
    pub(crate) fn empty() -> Pots
        ensures { result ≡ [] }
    {
        let pot = Pot {
            amount: 0,
            eligible: SeatSet::empty(),
        };
        Pots {
            pots: [pot; MOST_POTS],
            len: 0,
        }
    }

    /// Adds a pot above the others.
    pub(crate) fn push(&mut self, pot: Pot)
        requires { length self.old < 10 }
        ensures { self.new ≡ self.old ++ pot ∷ [] }
    {
        self.pots[self.len] = pot;
        self.len += 1;
    }

    /// Adds chips to the highest pot.
    pub(crate) fn add_to_last(&mut self, amount: u64)
        requires some { 1 ≤ length self.old }
        requires fits { (below : List Pot) (last : Pot) → self.old ≡ below ++ last ∷ []
            → last.amount + amount < 2 ^ 64 }
        ensures { (below : List Pot) (last : Pot) → self.old ≡ below ++ last ∷ []
            → self.new ≡ below ++ record last { amount = last.amount + amount } ∷ [] }
    {
        self.pots[self.len - 1].amount += amount;
    }

    /// Adds chips to the main pot.
    pub(crate) fn add_to_main(&mut self, amount: u64)
        requires some { 1 ≤ length self.old }
        requires fits { total_of self.old + amount < 2 ^ 64 }
        ensures { self.new ≡ with_dead amount self.old }
    {
        self.pots[0].amount += amount;
    }

    /// Tells how many pots there are.
    pub fn len(&self) -> usize
        ensures len { result ≡ length self.now }
        ensures most { result ≤ 10 }
    {
        self.len
    }

    /// Tells whether there is no pot.
    pub fn is_empty(&self) -> bool
        ensures { result ≡ (length self.now == 0) }
    {
        self.len == 0
    }

    /// Gives the pot at this index, the main pot at 0.
    pub fn get(&self, i: usize) -> Pot
        requires { i < length self.now }
        ensures { slice_get self.now i ≡ Some result }
    {
        let pots = &self.pots[..self.len];
        pots[i]
    }
}
