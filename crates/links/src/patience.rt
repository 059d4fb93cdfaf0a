//! How long to wait for what may come: the longer, the longer nothing does.

ghost use Rattle.std.specs.Prelude.{◌≡◌, ◌+◌, ◌<◌, ◌≤◌};

/// How many milliseconds are waited right after something happened.
pub(crate) const LEAST_PATIENCE: u64 = 20;

/// How many milliseconds are waited at most.
pub(crate) const MOST_PATIENCE: u64 = 160;

/// Gives how many milliseconds to wait after a wait of so many in which nothing happened: one more, up to the most.
pub(crate) fn longer(patience: u64) -> u64
    requires { patience ≤ MOST_PATIENCE }
    ensures longer { patience < MOST_PATIENCE → result ≡ patience + 1 }
    ensures longest { patience ≡ MOST_PATIENCE → result ≡ MOST_PATIENCE }
    ensures least { patience ≤ result }
    ensures most { result ≤ MOST_PATIENCE }
{
    (patience + 1).min(MOST_PATIENCE)
}
