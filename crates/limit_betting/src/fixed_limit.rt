//! How much may be bet by fixed limit.

ghost use Rattle.std.specs.Prelude.{◌≡◌, ◌≤◌, ◌<◌, ◌^◌, if◌then◌else◌};
ghost use Rattle.betting_round.specs.Limits.{AreFewChips};
ghost use Rattle.limit_betting.specs.FixedLimits.{bet_of, fixed_limit};
ghost use Rattle.limit_betting.specs.Wagers.{is_wager};

use betting_round::{Bounds, Facing};
use std::marker::Model;

/// Fixed limit on a street as it stands.
#[derive(Clone, Copy, PartialEq, Eq)]
pub struct FixedLimit {
    /// The bet of the street, in chips.
    pub bet: u64,
    /// The most wagers that the street may have.
    pub cap: u64,
    /// The wagers that it has had.
    pub wagers: u64,
}

impl Model for FixedLimit {
    ghost use Rattle.std.specs.Prelude.{◌<◌, ◌^◌};
    ghost use Rattle.limit_betting.specs.FixedLimits.{LimitTerms};

    ghost Value = { LimitTerms };

    ghost view = { λ limit. record { bet = limit.bet; cap = limit.cap; wagers = limit.wagers } };

    ghost invariant = { λ limit. limit.bet < 2 ^ 60 };

    ghost inverse = { λ limit. record { bet = limit.bet; cap = limit.cap; wagers = limit.wagers } };
}

impl Bounds for FixedLimit {
    ghost limits = { fixed_limit };

    fn least(&self, f: &Facing) -> u64 {
        f.level + f.full
    }

    fn most(&self, f: &Facing) -> u64 {
        if self.wagers < self.cap {
            f.level + self.bet
        } else {
            f.level
        }
    }

    fn reopened(&self, f: &Facing) -> bool {
        !f.acted || self.bet <= 2 * f.level.saturating_sub(f.put)
    }
}

/// Counts an act that raises the bet level from one amount to another: 1 where it is a wager, since the level rises by
/// at least half of the bet, and else 0.
pub fn wagers_of(bet: u64, before: u64, after: u64) -> u64
    requires { after < 2 ^ 60 }
    ensures count { result ≡ (if is_wager bet before after then 1 else 0) }
    ensures most { result ≤ 1 }
{
    if bet <= 2 * after.saturating_sub(before) {
        1
    } else {
        0
    }
}

/// Gives the bet of a street, in chips. Street 0 is before the flop, 3 the river.
pub fn bet_of(big: u64, street: u8) -> u64
    requires street { street ≤ 3 }
    requires few { big < 2 ^ 60 }
    ensures { result ≡ bet_of big street }
{
    if street <= 1 { big } else { 2 * big }
}
