//! Where clients come in.
ghost use Rattle.std.specs.Prelude.{◌≡◌, ℕ, Option, IfOk, OnOk, OnSome, option_map};
ghost use Rattle.floor_text.specs.Outside.{HasCause};
ghost use Rattle.links.specs.Telling.{DoorTelling};
ghost use Rattle.links.specs.Links.{IsLinkOut, after_knock, with_back};

use crate::link::Link;
use floor_text::Failed;

/// Where clients come in, one after another.
pub trait Door {
    /// A client's link.
    type L: Link + Send;

    /// How often it was knocked, which links it gave and how they came back, where it tells them.
    ghost told: { Self → Option (DoorTelling Self.L) };

    /// How often it failed. The count never falls, and stands still at its type's end.
    ghost faults: { Self → ℕ };

    /// Gives the link of the next client, or `None` where nobody came. A link that it gives is out. The count of faults
    /// rises in a knock that fails, and in no other.
    fn knock(&mut self) -> Result<Option<Self::L>, Failed>
        ensures told { told self.new ≡ option_map (after_knock result) (told self.old) }
        ensures out { IfOk result (λ came. OnSome came (IsLinkOut (told self.new))) }
        ensures cause { HasCause (faults self.old) (faults self.new) result }
        ensures steady { OnOk result (faults self.new ≡ faults self.old) };

    /// Takes back a link that is out. It takes no memory.
    fn back(&mut self, link: Self::L)
        requires { IsLinkOut (told self.old) }
        ensures told { told self.new ≡ option_map (with_back link) (told self.old) }
        ensures faults { faults self.new ≡ faults self.old };
}
