//! The act that a called time makes.

ghost use Rattle.std.specs.Prelude.{◌≡◌, Some, None, IfOk, IfErr, OnOk, nat_lt, if◌then◌else◌};
ghost use Rattle.betting_round.specs.declared.act.Act.TheVariants as acts;
ghost use Rattle.table_engine.specs.Acts.{refusal_of_time, time_act};

use betting_round::{Act, Facing};
use floor_text::Refusal;
use table_engine::{ActOf, Hand};

/// Gives what a player does where time is called on him.
fn act_in_time(facing: Facing) -> Act
    ensures { result ≡ (if nat_lt facing.put facing.level then acts.Fold else acts.Check) }
{
    if facing.put < facing.level {
        Act::Fold
    } else {
        Act::Check
    }
}

/// Finds the act that a called time makes in a hand: a fold where the player who is due has put in less than the bet
/// level, and else a check. It is refused exactly where the called time is.
pub(crate) fn called_act(hand: &Hand) -> Result<ActOf, Refusal>
    ensures act { IfOk result (λ act. act ≡ time_act hand.now) }
    ensures ok { OnOk result (refusal_of_time hand.now ≡ None) }
    ensures err { IfErr result (λ refusal. refusal_of_time hand.now ≡ Some refusal) }
{
    let Some(name) = hand.due() else {
        return Err(Refusal::HandOver);
    };
    let Some(facing) = hand.facing() else {
        return Err(Refusal::HandOver);
    };
    Ok(ActOf {
        name,
        act: act_in_time(facing),
        by_time: true,
    })
}
