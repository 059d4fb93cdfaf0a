//! Where a worker stands between two turns.

ghost use Rattle.std.specs.Prelude.{◌≡◌};
ghost use Rattle.table_worker.specs.Stages.{does_lie, hand_carried};

use table_engine::Hand;

/// Where a worker stands between two turns.
#[derive(Drop)]
pub(crate) enum Stage {
    /// No hand is out.
    Free,
    /// No hand is out, and before the next one the order that is owed is asked for.
    Asking,
    /// A hand was begun and is still to be brought to the dock.
    Carrying(Hand),
    /// The hand lies at the dock.
    Lying,
    /// The tournament was stopped, and no hand is out.
    Ended,
}

impl Stage {
    /// Tells whether the hand lies at the dock.
    pub(crate) fn lies(&self) -> bool
        ensures { result ≡ does_lie self.now }
    {
        matches!(self, Stage::Lying)
    }

    /// Gives the hand that is still to be brought to the dock, if there is one.
    pub(crate) fn into_hand(self) -> Option<Hand>
        ensures { result ≡ hand_carried self }
    {
        match self {
            Stage::Carrying(hand) => Some(hand),
            _ => None,
        }
    }
}
