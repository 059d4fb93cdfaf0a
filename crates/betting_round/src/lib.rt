//! One street of a hand: who is due, and what a player does.
//!
//! It stands on floor_text, for the refusals, and on rulebook, for the order of the seats. A `Round` is one street:
//! `Round::start` begins it, `Round::due` says whose turn it is, `Round::facing` what a player faces, `Round::check`
//! whether an act is refused, `Round::take` takes an act that is not, and `Round::apply` does both. How much may be bet
//! is what `Bounds` says, of which `NoLimit` and `PotLimit` are two. `who_is_due_can_act`,
//! `an_act_is_in_turn_and_covered`, `an_act_keeps_the_chips` and `the_level_never_falls` are laws of every street at
//! each moment.
#![tactic(auto)]

mod act;
mod bettor;
mod bounds;
mod checks;
mod facing;
mod laws;
mod round;
mod street;
mod turn;

pub use act::{Act, Done};
pub use bettor::Bettor;
pub use bounds::{Bounds, NoLimit, PotLimit};
pub use facing::Facing;
pub use laws::{
    an_act_is_in_turn_and_covered, an_act_keeps_the_chips, the_level_never_falls,
    who_is_due_can_act,
};
pub use round::Round;
