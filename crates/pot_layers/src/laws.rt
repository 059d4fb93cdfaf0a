//! What holds of all pots and shares.

ghost use Rattle.std.specs.Prelude.{◌≡◌, ◌+◌, ◌-◌, ◌%◌, ◌<◌, ◌≤◌, ℕ, true, List, length};
ghost use Rattle.pot_layers.specs.declared.put.Put.{Put};
ghost use Rattle.pot_layers.specs.Layers.{layers, is_contested};
ghost use Rattle.pot_layers.specs.PotTests.{total_of, live_seats, are_for, are_whole_pots, are_whole_puts, have_somebody, has_put, are_others_within, IsOwnPot};
ghost use Rattle.pot_layers.specs.Shares.{share_of, high_half, low_half, sum_below};
ghost use Rattle.pot_layers.specs.Tallies.{total_put};

/// Says that the pots sum to all that was put in and the dead chips, where somebody has put in a chip, so that there is
/// a pot.
pub fn pots_sum_to_all_put()
    ensures { (puts : List Put) (dead : ℕ) → 0 < total_put puts
        → total_of (layers puts dead) ≡ total_put puts + dead }
{}

/// Says that only live players may win a pot.
pub fn pots_are_for_live_players()
    ensures { (puts : List Put) (dead : ℕ) → are_for (live_seats puts) (layers puts dead) ≡ true }
{}

/// Says that each pot can be won by somebody, where a live player has put in chips.
pub fn pots_have_somebody()
    ensures { (puts : List Put) (dead : ℕ) → is_contested puts ≡ true → have_somebody (layers puts dead) ≡ true }
{}

/// Says that each pot is of whole units, where all that was put in and the dead chips are.
pub fn pots_are_whole_units()
    ensures { (puts : List Put) (dead unit : ℕ) → are_whole_puts unit puts ≡ true → dead % unit ≡ 0
        → are_whole_pots unit (layers puts dead) ≡ true }
{}

/// Says that what a live player has put in above the height that any other player reached comes back to him: it is in
/// the highest pot, which is for him alone.
pub fn what_nobody_reached_comes_back()
    ensures { (puts : List Put) (dead index amount reached : ℕ) → length puts ≡ 10 → has_put puts index amount ≡ true
        → are_others_within puts index reached ≡ true → reached < amount
        → IsOwnPot (layers puts dead) index (amount - reached) }
{}

/// Says that the shares of a pot of whole units sum to it.
pub fn shares_sum_to_the_pot()
    ensures { (amount unit winners : ℕ) → 1 ≤ winners → amount % unit ≡ 0
        → sum_below (λ index. share_of amount unit winners index) winners ≡ amount }
{}

/// Says that the two halves of a pot of whole units sum to it.
pub fn halves_sum_to_the_pot()
    ensures { (amount unit : ℕ) → amount % unit ≡ 0 → high_half amount unit + low_half amount unit ≡ amount }
{}
