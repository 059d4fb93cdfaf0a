//! The pots while chips come in and players fold.

ghost use Rattle.std.specs.Prelude.{◌≡◌, ◌+◌, ◌-◌, ◌%◌, ◌<◌, ◌≤◌, ◌^◌, ℕ, true};
ghost use Rattle.pot_layers.specs.Layers.{layers, is_contested};
ghost use Rattle.pot_layers.specs.PotTests.{total_of, live_seats, are_for, have_somebody, are_whole_pots, are_whole_puts};
ghost use Rattle.pot_layers.specs.Tallies.{nothing_put, put_in_at, folded_at, total_put, total_told};

use crate::reach::{Reach, fold, live_payers, nearest_above, put_in};
use crate::{Pot, Pots, Put};
use std::marker::Model;

/// The most seats that a table has.
const MOST_SEATS: usize = 10;

/// The pots while chips come in and players fold. It keeps for each seat what was put in up to its height, as a
/// running total. Contracts see a `Tally`: the list of puts by seat, where index 0 is seat 1, and the dead chips.
#[derive(Drop)]
pub struct PotTally {
    reaches: [Reach; 10],
    total: u64,
    dead: u64,
}

impl Model for PotTally {
    ghost use Rattle.pot_layers.specs.Tallies.{Tally};

    ghost Value = { Tally };

    ghost use Rattle.pot_layers.specs.Reaches.{puts_of};
    ghost use Rattle.pot_layers.specs.Running.{IsRunning};

    ghost view = { λ tally. record { puts = puts_of tally.reaches; dead = tally.dead } };

    ghost invariant = { λ tally. IsRunning tally.reaches tally.total tally.dead };
}

impl PotTally {
    /// Makes a tally of ten players who are live and have put in nothing.
    pub fn new() -> PotTally
        ensures { result ≡ nothing_put }
    {
        let put = Put::live(0);
        PotTally {
            reaches: [Reach { put, total: 0 }; MOST_SEATS],
            total: 0,
            dead: 0,
        }
    }

    /// Makes the tally of these puts.
    pub fn of(puts: &[Put; 10]) -> PotTally
        requires { total_put puts.now < 2 ^ 53 }
        ensures { result ≡ record { puts = puts.now; dead = 0 } }
    {
        let mut tally = PotTally::new();
        for index in 0..puts.len() {
            let put = puts[index];
            tally.add(index as u8 + 1, put.amount);
            if !put.live {
                tally.fold(index as u8 + 1);
            }
        }
        tally
    }

    /// Adds chips that the player in this seat puts in.
    pub fn add(&mut self, seat: u8, amount: u64)
        requires first { 1 ≤ seat }
        requires last { seat ≤ 10 }
        requires fits { total_told self.old + amount < 2 ^ 53 }
        ensures { self.new ≡ record self.old { puts = put_in_at self.old.puts (seat - 1) amount } }
    {
        if amount == 0 {
            return;
        }
        put_in(&mut self.reaches, seat as usize - 1, amount);
        self.total += amount;
    }

    /// Adds dead chips, which no player puts in for himself: they go to the main pot.
    pub fn add_dead(&mut self, amount: u64)
        requires { total_told self.old + amount < 2 ^ 53 }
        ensures { self.new ≡ record self.old { dead = self.old.dead + amount } }
    {
        self.dead += amount;
    }

    /// Takes the player in this seat as folded: he is no longer live.
    pub fn fold(&mut self, seat: u8)
        requires first { 1 ≤ seat }
        requires last { seat ≤ 10 }
        ensures { self.new ≡ record self.old { puts = folded_at self.old.puts (seat - 1) } }
    {
        fold(&mut self.reaches, seat as usize - 1);
    }

    /// Gives the pots of what is put in so far.
    pub fn pots(&self) -> Pots
        requires { is_contested self.now.puts ≡ true }
        ensures pots { result ≡ layers self.now.puts self.now.dead }
        ensures sum { total_of result ≡ total_told self.now }
        ensures live { are_for (live_seats self.now.puts) result ≡ true }
        ensures somebody { have_somebody result ≡ true }
        ensures units { (unit : ℕ) → are_whole_puts unit self.now.puts ≡ true → self.now.dead % unit ≡ 0
            → are_whole_pots unit result ≡ true }
    {
        let mut pots = Pots::empty();
        let mut below = 0;
        let mut paid = 0;
        while let Some(next) = nearest_above(&self.reaches, below) {
            let height = next.put.amount;
            pots.push(Pot {
                amount: next.total - paid,
                eligible: live_payers(&self.reaches, height),
            });
            below = height;
            paid = next.total;
        }
        pots.add_to_last(self.total - paid);
        pots.add_to_main(self.dead);
        pots
    }
}
