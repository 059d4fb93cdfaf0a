//! Simulated tournaments: a whole tournament is played from its plan and a number.
//!
//! It stands on simulation_rules, whose definitions say which event comes next, on floor_director, which gives orders,
//! decks and acts, and on floor_core, whose `Tournament` takes each event. `simulation_text` plays to the end and tells
//! how it went; nothing is kept of the events.
#![tactic(auto)]

mod entrants;
mod play;
mod simulation;
mod steps;
mod text;

pub use text::simulation_text;
