//! What a player is told of a tournament while it is played, event by event.
//!
//! It stands on floor_core, whose `Tournament` answers each event, and on player_view, which writes lines.
//! `tell_event` has a tournament take an event, and writes what tells a player, or nobody, of it, and `tell_act` an
//! act. They look at the tournament before the event and after it, and keep nothing.
#![tactic(auto)]

mod before;
mod event;
mod hands;
mod stacks;
mod turns;

pub use event::{tell_act, tell_event};
