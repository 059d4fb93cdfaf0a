//! What a worker watches while its hand lies at the dock.

/// What a worker found at its last look at both locks.
#[derive(Drop)]
pub(crate) struct Watch {
    journal: u64,
    history: u64,
}

impl Watch {
    /// Has not looked yet.
    pub(crate) fn new() -> Watch {
        Watch {
            journal: 0,
            history: 0,
        }
    }

    /// Notes how many entries a look found, and tells whether these are others than at the look before.
    pub(crate) fn is_new(&mut self, journal: u64, history: u64) -> bool {
        let is_new = self.journal != journal || self.history != history;
        *self = Watch { journal, history };
        is_new
    }
}
