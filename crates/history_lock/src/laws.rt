//! What the numbers are that the code goes by.
ghost use Rattle.std.specs.Prelude.{◌≡◌};
ghost use Rattle.history_lock.specs.Limits.{opener};

use crate::grows::OPENER;

/// Says that the number of who made the entries from before the lock is that of the rules.
pub fn opener_is_that_of_the_rules()
    ensures { OPENER ≡ opener }
{}
