//! The rules of a tournament: its state, what an event is answered, and what it makes of the state.
//!
//! It stands on the crates of the rules and has definitions and what holds of them at every moment, and no code but one
//! law's function. What carries the events out stands on it, and so do the laws over lists of events
//! (`tournament_laws`).
#![tactic(auto)]

mod laws;

pub use laws::a_state_stays_valid;
