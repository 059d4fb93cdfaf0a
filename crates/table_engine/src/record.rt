//! What is kept of a hand, and why an act was not taken.

ghost use Rattle.std.specs.Prelude.{◌≡◌, length};
ghost use Rattle.table_engine.specs.declared.record.ActFault.TheVariants.{No, NoMemory};
ghost use Rattle.table_engine.specs.Plays.{IsCompletePlay, recorded_hand};
ghost use Rattle.table_engine.specs.Results.{with_stacks, players_after};

use crate::players::set_stacks;
use crate::start::{HandStart, StartSeat};
use betting_round::{Act, Done};
use floor_text::{List, Name, Refusal};
use std::alloc::{AllocError, AllocFailed};

/// An act of a player.
#[derive(Clone, Copy)]
pub struct ActOf {
    /// Who acted.
    pub name: Name,
    /// What he did.
    pub act: Act,
    /// Whether the act was made for him because time was called.
    pub by_time: bool,
}

/// An act that is not refused, with what it comes to.
#[derive(Clone, Copy)]
pub(crate) struct Accepted {
    /// The seat of the player who acts.
    pub seat: u8,
    /// The act.
    pub entry: ActOf,
    /// What it comes to.
    pub done: Done,
}

/// A hand that is over.
#[derive(Drop)]
pub struct HandRecord {
    /// How it started.
    pub start: HandStart,
    /// Its acts, in order.
    pub acts: List<ActOf>,
    /// The stacks after it, in chips, in the order of the start's players.
    pub stacks: List<u64>,
}

impl HandRecord {
    /// Gives the players of the hand with their stacks after it, in rising seat. It takes no memory.
    pub fn into_players(self) -> List<StartSeat>
        requires { length self.stacks ≡ length self.start.seats }
        ensures same { result ≡ with_stacks self.start.seats self.stacks }
        ensures after { IsCompletePlay self → result ≡ players_after (recorded_hand self) }
    {
        let HandRecord { start, stacks, .. } = self;
        let mut players = start.seats.into_vec();
        set_stacks(&mut players, stacks.items());
        List::from_vec(players)
    }
}

/// Why an act was not taken.
#[derive(Clone, Copy, PartialEq, Eq)]
pub enum ActFault {
    /// The act is refused.
    No(Refusal),
    /// Memory ran out.
    NoMemory,
}

impl From<Refusal> for ActFault {
    ghost from_gives = { λ refusal fault. fault ≡ No refusal };

    fn from(refusal: Refusal) -> ActFault {
        ActFault::No(refusal)
    }
}

impl<T: Drop> From<AllocFailed<T>> for ActFault {
    ghost from_gives = { λ _ fault. fault ≡ NoMemory };

    fn from(_: AllocFailed<T>) -> ActFault {
        ActFault::NoMemory
    }
}

impl From<AllocError> for ActFault {
    ghost from_gives = { λ _ fault. fault ≡ NoMemory };

    fn from(_: AllocError) -> ActFault {
        ActFault::NoMemory
    }
}
