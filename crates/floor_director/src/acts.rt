//! What a simulated player does.

ghost use Rattle.std.specs.Prelude.{◌≡◌, ◌<◌, ℕ, ◌==◌, nat_lt, false, List, find, None, Some, IfSome, is_none, option_map, if◌then◌else◌};
ghost use Rattle.betting_round.specs.declared.act.Act.TheVariants as acts;
ghost use Rattle.betting_round.specs.Limits.{AreFewChips};
ghost use Rattle.table_engine.specs.Hands.{due_name, is_over};
ghost use Rattle.table_engine.specs.Acts.{refusal_of_act};
ghost use Rattle.floor_director.specs.SimulatedActs.{act_number, is_lawful_act, listed_acts, simulated_act};
ghost use Rattle.floor_director.specs.Passive.{MayGoOn};

use betting_round::{Act, Facing};
use break_draw::{DrawKind, generator};
use floor_text::Name;
use rand::Rng;
use table_engine::Hand;

/// Draws a number below 10 by the seed and the number of the draw.
fn act_number(seed: [u8; 32], k: u64) -> u32
    ensures number { result ≡ act_number seed k }
    ensures few { result < 10 }
{
    let mut generator = generator(seed, DrawKind::Act, k);
    generator.next_u32() % 10
}

/// Tells whether a player's act is lawful.
fn is_lawful(hand: &Hand, name: Name, act: Act) -> bool
    ensures { result ≡ is_lawful_act hand.now name act }
{
    hand.check(name, act).is_ok()
}

/// Gives the first of these acts that is lawful for a player, if one is.
fn first_lawful(hand: &Hand, name: Name, acts: &[Act]) -> Option<Act>
    ensures { result ≡ find (is_lawful_act hand.now name) acts.now }
{
    acts.iter().copied().find(|act| is_lawful(hand, name, *act))
}

/// Gives what a player does who neither bets nor raises: he calls, or checks where he has put in just the bet level.
fn call_or_check(facing: &Facing) -> Act
    ensures { result ≡ (if facing.now.put == facing.now.level then acts.Check else acts.Call) }
{
    if facing.put == facing.level {
        Act::Check
    } else {
        Act::Call
    }
}

/// Gives what a player does who puts nothing in: he checks, or folds where he has put in less than the bet level.
fn check_or_fold(facing: &Facing) -> Act
    ensures { result ≡ (if nat_lt facing.now.put facing.now.level then acts.Fold else acts.Check) }
{
    if facing.put < facing.level {
        Act::Fold
    } else {
        Act::Check
    }
}

/// Gives the first lawful act of the list that a number chooses. Whether he may go all-in, raise or bet is asked of the
/// hand, and all else he is told by what he faces.
fn first_listed(hand: &Hand, name: Name, number: u32, facing: Facing) -> Act
    requires few { AreFewChips facing }
    requires due { MayGoOn hand.now name facing }
    ensures { find (is_lawful_act hand.now name) (listed_acts number facing.level facing.full) ≡ Some result }
{
    if number == 0 {
        first_lawful(hand, name, &[Act::AllIn]).unwrap_or(call_or_check(&facing))
    } else if number <= 2 {
        let raise = Act::Raise(facing.level + facing.full);
        let bet = Act::Bet(facing.full);
        first_lawful(hand, name, &[raise, bet]).unwrap_or(call_or_check(&facing))
    } else if number <= 7 {
        call_or_check(&facing)
    } else {
        check_or_fold(&facing)
    }
}

/// Gives the name of the player who is due and his act, by the seed and the number of the draw: the first lawful act of
/// the list that the drawn number chooses. So it is never refused. `None` exactly where the hand is over. It takes no
/// memory.
pub fn sim_turn(seed: [u8; 32], k: u64, hand: &Hand) -> Option<(Name, Act)>
    ensures name { option_map (λ turn. turn.0) result ≡ due_name hand.now }
    ensures act { IfSome result (λ turn. turn.1 ≡ simulated_act seed k hand.now) }
    ensures nobody { is_none result ≡ is_over hand.now }
    ensures lawful { IfSome result (λ turn. refusal_of_act hand.now turn.0 turn.1 ≡ None) }
{
    // Whose start is lawful has one player of each name, so who is due is found by his.
    let _start = hand.start();
    let facing = hand.facing()?;
    let name = hand.due()?;
    Some((name, first_listed(hand, name, act_number(seed, k), facing)))
}

/// Chooses the act of the player who is due, as `sim_turn` does, so it is never refused. It takes no memory.
pub fn sim_act(seed: [u8; 32], k: u64, hand: &Hand) -> Act
    requires { is_over hand.now ≡ false }
    ensures act { result ≡ simulated_act seed k hand.now }
    ensures lawful { (name : List ℕ) → due_name hand.now ≡ Some name → refusal_of_act hand.now name result ≡ None }
{
    sim_turn(seed, k, hand).unwrap().1
}
