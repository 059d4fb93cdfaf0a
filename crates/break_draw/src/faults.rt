//! Why there is no fill list.

use std::alloc::{AllocError, AllocFailed};
use thiserror::Error;

/// Why there is no fill list.
#[derive(Clone, Copy, Debug, PartialEq, Eq, Error)]
pub enum DrawFault {
    /// The other open tables have too few empty seats.
    #[error("the other open tables have too few empty seats")]
    NoRoom,
    /// Memory ran out.
    #[error("out of memory")]
    NoMemory,
}

impl From<AllocError> for DrawFault {
    ghost use Rattle.std.specs.Prelude.{◌≡◌};
    ghost use Rattle.break_draw.specs.declared.faults.DrawFault.TheVariants.{NoMemory};

    ghost from_gives = { λ _ fault. fault ≡ NoMemory };

    fn from(_: AllocError) -> DrawFault {
        DrawFault::NoMemory
    }
}

impl<T: Drop> From<AllocFailed<T>> for DrawFault {
    ghost use Rattle.std.specs.Prelude.{◌≡◌};
    ghost use Rattle.break_draw.specs.declared.faults.DrawFault.TheVariants.{NoMemory};

    ghost from_gives = { λ _ fault. fault ≡ NoMemory };

    fn from(_: AllocFailed<T>) -> DrawFault {
        DrawFault::NoMemory
    }
}
