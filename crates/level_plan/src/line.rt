//! The lines of a plan and its items.

ghost use Rattle.std.specs.Prelude.{◌≡◌};
ghost use Rattle.level_plan.specs.declared.line.PlanFault.TheVariants.{NoMemory};

use crate::plan::Blind;
use card_set::Game;
use floor_text::List;
use std::alloc::{AllocError, AllocFailed};

/// What a plan consists of, as a wrong plan names it.
#[derive(Clone, Copy, PartialEq, Eq)]
pub enum PlanItem {
    /// The text of a plan file.
    Toml,
    /// The game.
    Game,
    /// The number of tables.
    Tables,
    /// The number of seats of a table.
    Seats,
    /// The stack that a player starts with, in chips.
    Stack,
    /// The buy-in.
    Buyin,
    /// The last level at which a player may enter.
    Late,
    /// The levels' blinds.
    Blinds,
    /// The shares of the prizes, in thousandths.
    Shares,
    /// The most wagers of a street, for fixed limit.
    Limit,
    /// The floor's word.
    FloorWord,
    /// The players' words.
    Words,
}

/// A line of a plan. Its numbers may be any: what is lawful is for the draft to say.
#[derive(Drop)]
pub enum PlanLine {
    /// The game.
    Game(Game),
    /// The number of tables.
    Tables(u64),
    /// The number of seats of a table.
    Seats(u64),
    /// The stack that a player starts with, in chips.
    Stack(u64),
    /// The buy-in: what an entry pays into the prizes' pool, in chips of money.
    Buyin(u64),
    /// The last level at which a player may enter, from 1.
    Late(u64),
    /// The next level: its blinds, its ante, and the unit of its chips.
    Blinds(Blind),
    /// The shares of the prizes from the first place on, in thousandths of the pool.
    Shares(List<u64>),
    /// Fixed limit, with so many wagers of a street at most.
    Limit(u64),
}

impl PlanLine {
    ghost use Rattle.level_plan.specs.Drafts.{item_of_line};

    /// Names the item that the line gives.
    pub(crate) fn item(&self) -> PlanItem
        ensures { result ≡ item_of_line self.now }
    {
        match self {
            PlanLine::Game(_) => PlanItem::Game,
            PlanLine::Tables(_) => PlanItem::Tables,
            PlanLine::Seats(_) => PlanItem::Seats,
            PlanLine::Stack(_) => PlanItem::Stack,
            PlanLine::Buyin(_) => PlanItem::Buyin,
            PlanLine::Late(_) => PlanItem::Late,
            PlanLine::Blinds(_) => PlanItem::Blinds,
            PlanLine::Shares(_) => PlanItem::Shares,
            PlanLine::Limit(_) => PlanItem::Limit,
        }
    }
}

/// Why a plan line or a whole plan was not taken.
#[derive(Clone, Copy, PartialEq, Eq)]
pub enum PlanFault {
    /// This item is wrong or missing.
    Wrong(PlanItem),
    /// Memory ran out.
    NoMemory,
}

impl From<AllocError> for PlanFault {
    ghost from_gives = { λ _ fault. fault ≡ NoMemory };

    fn from(_: AllocError) -> PlanFault {
        PlanFault::NoMemory
    }
}

impl<T: Drop> From<AllocFailed<T>> for PlanFault {
    ghost from_gives = { λ _ fault. fault ≡ NoMemory };

    fn from(_: AllocFailed<T>) -> PlanFault {
        PlanFault::NoMemory
    }
}
