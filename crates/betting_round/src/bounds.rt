//! How much may be bet: no-limit and pot-limit.

ghost use Rattle.std.specs.Prelude.{◌≡◌};
ghost use Rattle.betting_round.specs.Limits.{AreFewChips, no_limit, pot_limit};

use crate::facing::Facing;

/// The bounds of a bet or a raise, for a player who faces so much. A structure of betting is what its three methods
/// say; contracts see it as these three at once.
pub trait Bounds {
    ghost use Rattle.betting_round.specs.Limits.{Limits};

    ghost limits: { Self → Limits };

    /// Gives the least that may be bet or raised to, in chips.
    fn least(&self, f: &Facing) -> u64
        requires { AreFewChips f.now }
        ensures { result ≡ (limits self.now).least f.now };

    /// Gives the most that may be bet or raised to, in chips.
    fn most(&self, f: &Facing) -> u64
        requires { AreFewChips f.now }
        ensures { result ≡ (limits self.now).most f.now };

    /// Tells whether the betting is open to him: he may raise.
    fn reopened(&self, f: &Facing) -> bool
        requires { AreFewChips f.now }
        ensures { result ≡ (limits self.now).reopened f.now };
}

/// Gives the least that may be bet or raised to: a full raise above the bet level.
fn least_raise(facing: &Facing) -> u64
    requires { AreFewChips facing.now }
    ensures { result ≡ no_limit.least facing.now }
{
    facing.level + facing.full
}

/// Tells whether a player may raise: he has not acted on the street, or the bet level has risen by a full raise since.
fn is_reopened(facing: &Facing) -> bool
    ensures { result ≡ no_limit.reopened facing.now }
{
    !facing.acted || facing.level.saturating_sub(facing.put) >= facing.full
}

/// No-limit: a player may bet all that he has.
#[derive(Clone, Copy, PartialEq, Eq)]
pub struct NoLimit;

impl Bounds for NoLimit {
    ghost limits = { λ _. no_limit };

    fn least(&self, f: &Facing) -> u64 {
        least_raise(f)
    }

    fn most(&self, f: &Facing) -> u64 {
        f.put + f.behind
    }

    fn reopened(&self, f: &Facing) -> bool {
        is_reopened(f)
    }
}

/// Pot-limit: a player may raise by what the pot holds once he has called.
#[derive(Clone, Copy, PartialEq, Eq)]
pub struct PotLimit;

impl Bounds for PotLimit {
    ghost limits = { λ _. pot_limit };

    fn least(&self, f: &Facing) -> u64 {
        least_raise(f)
    }

    fn most(&self, f: &Facing) -> u64 {
        f.level + f.pot + f.level.saturating_sub(f.put)
    }

    fn reopened(&self, f: &Facing) -> bool {
        is_reopened(f)
    }
}
