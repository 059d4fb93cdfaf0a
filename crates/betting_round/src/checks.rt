//! Which acts of a due player are refused, once it is his turn.

ghost use Rattle.std.specs.Prelude.{◌<◌, ◌≤◌, OnOk};
ghost use Rattle.rulebook.specs.Checks.{IsChecked};
ghost use Rattle.betting_round.specs.Acts.{amount};
ghost use Rattle.betting_round.specs.Limits.{AreFewChips};
ghost use Rattle.betting_round.specs.ActChecks.{bet_checks, raise_checks, all_in_checks, act_checks};

use crate::act::Act;
use crate::bounds::Bounds;
use crate::facing::Facing;
use floor_text::Refusal;

/// Tells whether a bet of so much is refused.
fn check_bet<B: Bounds>(bounds: &B, unit: u64, facing: &Facing, n: u64) -> Result<(), Refusal>
    requires few { AreFewChips facing.now }
    requires unit { 0 < unit }
    ensures { IsChecked (bet_checks (B.limits bounds.now) unit facing.now n) result }
{
    if facing.level > 0 {
        return Err(Refusal::BetFacing);
    }
    if n < bounds.least(facing) && n != facing.behind {
        return Err(Refusal::TooSmall);
    }
    if n > facing.behind {
        return Err(Refusal::PastStack);
    }
    if n > bounds.most(facing) {
        return Err(Refusal::PastPot);
    }
    if n % unit != 0 {
        return Err(Refusal::NotUnit);
    }
    Ok(())
}

/// Tells whether a raise to so much is refused.
fn check_raise<B: Bounds>(bounds: &B, unit: u64, facing: &Facing, n: u64) -> Result<(), Refusal>
    requires few { AreFewChips facing.now }
    requires unit { 0 < unit }
    ensures { IsChecked (raise_checks (B.limits bounds.now) unit facing.now n) result }
{
    let stack = facing.put + facing.behind;
    if facing.level == 0 {
        return Err(Refusal::NothingToRaise);
    }
    if n < bounds.least(facing) && !(n == stack && n > facing.level) {
        return Err(Refusal::TooSmall);
    }
    if n > stack {
        return Err(Refusal::PastStack);
    }
    if n > bounds.most(facing) {
        return Err(Refusal::PastPot);
    }
    if !bounds.reopened(facing) {
        return Err(Refusal::NotReopened);
    }
    if n % unit != 0 {
        return Err(Refusal::NotUnit);
    }
    Ok(())
}

/// Tells whether going all-in is refused.
fn check_all_in<B: Bounds>(bounds: &B, facing: &Facing) -> Result<(), Refusal>
    requires { AreFewChips facing.now }
    ensures { IsChecked (all_in_checks (B.limits bounds.now) facing.now) result }
{
    let stack = facing.put + facing.behind;
    if stack > facing.level && stack > bounds.most(facing) {
        return Err(Refusal::PastPot);
    }
    if stack > facing.level && !bounds.reopened(facing) {
        return Err(Refusal::NotReopened);
    }
    Ok(())
}

/// Tells whether an act of a due player is refused.
pub(crate) fn check_act<B: Bounds>(
    bounds: &B,
    unit: u64,
    facing: &Facing,
    act: Act,
) -> Result<(), Refusal>
    requires few { AreFewChips facing.now }
    requires unit { 0 < unit }
    ensures checked { IsChecked (act_checks (B.limits bounds.now) unit facing.now act) result }
    ensures held { OnOk result (amount facing.now.level facing.now.put facing.now.behind act ≤ facing.now.behind) }
{
    match act {
        Act::Fold => Ok(()),
        Act::Check => {
            if facing.put < facing.level {
                return Err(Refusal::CheckFacing);
            }
            Ok(())
        }
        Act::Call => {
            if facing.put == facing.level {
                return Err(Refusal::NothingToCall);
            }
            Ok(())
        }
        Act::AllIn => check_all_in(bounds, facing),
        Act::Bet(n) => check_bet(bounds, unit, facing, n),
        Act::Raise(n) => check_raise(bounds, unit, facing, n),
    }
}
