//! How a pot is split.

ghost use Rattle.std.specs.Prelude.{◌≡◌, ◌<◌, ◌≤◌};
ghost use Rattle.pot_layers.specs.Shares.{share_of, high_half, low_half};

/// Tells what the winner at this index, clockwise from the button's left, gets of a pot, in chips: each winner gets the
/// quotient in units, and the units that are left go one each to the first winners.
pub fn share(amount: u64, unit: u64, winners: u64, index: u64) -> u64
    requires unit { 1 ≤ unit }
    requires within { index < winners }
    ensures { result ≡ share_of amount unit winners index }
{
    let units = amount / unit;
    let further = if index < units % winners { 1 } else { 0 };
    unit * (units / winners + further)
}

/// Gives the high half and the low half of a pot, in chips: the high half is the greater half in units, and the low
/// half is the rest.
pub fn halves(amount: u64, unit: u64) -> (u64, u64)
    requires { 1 ≤ unit }
    ensures high { result.0 ≡ high_half amount unit }
    ensures low { result.1 ≡ low_half amount unit }
{
    (share(amount, unit, 2, 0), share(amount, unit, 2, 1))
}
