//! Where doors come from.
ghost use Rattle.std.specs.Prelude.{◌≡◌, ℕ, ◌≤◌, Option, IfOk, OnErr, option_map, vec_len};
ghost use Rattle.floor_text.specs.Outside.{Rose};
ghost use Rattle.links.specs.Telling.{HallTelling};
ghost use Rattle.links.specs.Links.{AreDoorsOut, with_given, with_all_back};

use crate::door::Door;
use std::alloc::Global;

/// Why a hall gave no doors.
#[derive(Clone, Copy, Debug, PartialEq, Eq, thiserror::Error)]
pub enum HallFault {
    #[error("the hall failed")]
    Failed,
    #[error("out of memory")]
    NoMemory,
}

/// Where doors come from.
pub trait Hall {
    /// A door.
    type D: Door + Send + Drop;

    /// Which doors it gave and how they came back, where it tells them.
    ghost told: { Self → Option (HallTelling Self.D) };

    /// How often it failed. The count never falls, and stands still at its type's end.
    ghost faults: { Self → ℕ };

    /// Opens `n` doors, at this port and those above it where doors have ports. The doors that it gives are out.
    fn doors(&mut self, alloc: Global, port: u16, n: u32) -> Result<Vec<Self::D>, HallFault>
        ensures count { IfOk result (λ doors. vec_len doors ≡ n) }
        ensures told { IfOk result (λ doors. told self.new ≡ option_map (with_given doors.items) (told self.old)) }
        ensures out { IfOk result (λ doors. AreDoorsOut (vec_len doors) (told self.new)) }
        ensures kept { OnErr result (told self.new ≡ told self.old) }
        ensures later { faults self.old ≤ faults self.new }
        ensures cause { result ≡ Err HallFault.Failed → Rose (faults self.old) (faults self.new) };

    /// Takes back doors that are out. It takes no memory.
    fn back(&mut self, doors: Vec<Self::D>)
        requires { AreDoorsOut (vec_len doors) (told self.old) }
        ensures told { told self.new ≡ option_map (with_all_back doors.items) (told self.old) }
        ensures faults { faults self.new ≡ faults self.old };
}
