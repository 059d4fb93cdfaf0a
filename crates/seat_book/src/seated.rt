//! A player who sits.

use crate::Place;
use floor_text::Name;

/// A player who sits.
#[derive(Clone, Copy)]
pub struct Seated {
    /// Where he sits.
    pub place: Place,
    /// His number: his place in the entry list, from 0.
    pub player: u32,
    /// His name.
    pub name: Name,
    /// His stack at rest, in chips.
    pub stack: u64,
}
