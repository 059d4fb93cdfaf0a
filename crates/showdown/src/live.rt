//! The live players at a showdown.

ghost use Rattle.std.specs.Prelude.{◌≡◌, length};

use card_set::Card;

/// A live player at the showdown: his seat, from 1, and his hole cards, of which hold'em has the first two.
#[derive(Clone, Copy, PartialEq, Eq)]
pub struct Live {
    /// His seat, from 1.
    pub seat: u8,
    /// His hole cards: in hold'em the first two.
    pub hole: [Card; 4],
    pub ghost four: { length hole ≡ 4 },
}
