//! The calls of what plays the outside in memory.

ghost use Rattle.std.specs.Prelude.{◌≡◌};
ghost use Rattle.floor_text.specs.Memory.{count_up, next_fails};

/// Calls of something in memory, of which some are to fail.
#[derive(Drop)]
pub struct Calls {
    /// The numbers, from 1, of the calls that fail.
    pub failing: Vec<u64>,
    /// How many calls were made. The count stands still at its type's end.
    pub made: u64,
    /// How many faults were counted. The count stands still at its type's end.
    pub faults: u64,
}

impl Calls {
    /// Begins to count, with no call made.
    pub fn new(failing: Vec<u64>) -> Calls
        ensures { result ≡ record { failing = failing; made = 0; faults = 0 } }
    {
        Calls {
            failing,
            made: 0,
            faults: 0,
        }
    }

    /// Counts a call, and answers whether it is to fail.
    pub fn next_fails(&mut self) -> bool
        ensures fails { result ≡ next_fails self.old.failing.items self.old.made }
        ensures counted { self.new ≡ record self.old { made = count_up self.old.made } }
    {
        self.made = self.made.saturating_add(1);
        let number = self.made;
        self.failing.contains(&number)
    }

    /// Counts a fault.
    pub fn count_fault(&mut self)
        ensures { self.new ≡ record self.old { faults = count_up self.old.faults } }
    {
        self.faults = self.faults.saturating_add(1);
    }
}
