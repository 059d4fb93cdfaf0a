//! Passes as they go through the hands of a test.

ghost use Rattle.std.specs.Prelude.{◌≡◌, List, vec_len};
ghost use Rattle.history_lock.specs.Passes.{AreFresh, IsFresh, LockId};

use history_lock::{Grows, Pass};

/// Takes what threads may share, and nothing else.
pub fn share<T: Sync>(_value: &T) {}

/// Lets through what may cross to another thread, and nothing else.
pub fn sent<T: Send>(value: T) -> T
    ensures { result ≡ value }
{
    value
}

/// Takes the two passes of a lock out of their list.
pub fn both<V: Grows>(passes: Vec<Pass<V>>) -> (Pass<V>, Pass<V>)
    requires { vec_len passes ≡ 2 }
    ensures { (lock : LockId) (history : List V.Entry) → AreFresh lock history passes.items
        → IsFresh lock 0 history result.0 × IsFresh lock 1 history result.1 }
{
    let mut passes = passes;
    let second = passes.pop().unwrap();
    let first = passes.pop().unwrap();
    (first, second)
}
