//! A simulated tournament in its midst.

use floor_core::Tournament;
use simulation_rules::SimPlace;
use std::alloc::Global;

/// A simulated tournament in its midst.
#[derive(Drop)]
pub(crate) struct Simulation {
    pub(crate) alloc: Global,
    pub(crate) tournament: Tournament,
    /// The seed of all draws.
    pub(crate) seed: [u8; 32],
    /// Where it stands in its rounds.
    pub(crate) place: SimPlace,
    /// How many hands were settled.
    pub(crate) hands: u64,
}
