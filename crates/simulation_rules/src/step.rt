//! A step of a simulated tournament.

use crate::place::SimPlace;
use tournament_events::Event;

/// A step of a simulated tournament.
#[derive(Drop)]
pub enum SimStep {
    /// An event is taken, and this place comes after it.
    Take(Event, SimPlace),
    /// Only the place moves, to this one.
    Move(SimPlace),
    /// The tournament is at its end.
    End,
}
