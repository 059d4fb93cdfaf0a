//! Players who are out.

/// A player who is out.
#[derive(Clone, Copy, PartialEq, Eq)]
pub struct Bust {
    /// The player's number, by his entry.
    pub player: u32,
    /// His stack in chips at the start of his last hand.
    pub stack: u64,
    /// The number of the group that he went out in. Players who went out at the same time share it.
    pub group: u64,
}
