//! What is found where the journal is followed.

use std::alloc::AllocError;

/// What was found of the journal, and how far its lines were written.
#[derive(Clone, Copy)]
pub struct Followed {
    /// Whether the journal ends with the stop.
    pub stopped: bool,
    /// How many entries it has.
    pub count: u64,
    /// The number of the first entry whose lines were not written. Want of memory is the only error.
    pub told: Result<u64, AllocError>,
}
