//! A right plan.

use card_set::Game;
use floor_text::List;
use std::marker::Model;

/// The blinds of a level, the ante that its big blind posts for the table, and the unit of its chips.
#[derive(Clone, Copy, PartialEq, Eq)]
pub struct Blind {
    /// The small blind, in chips.
    pub small: u64,
    /// The big blind, in chips.
    pub big: u64,
    /// The smallest denomination in play.
    pub unit: u64,
    /// The ante that the big blind posts for the table after his blind, in chips; 0 where there is none.
    pub ante: u64,
}

/// A plan with all its items, each lawful alone and with the others.
#[derive(Drop)]
pub struct Plan {
    /// Which game is played.
    pub game: Game,
    /// The number of tables, 1 to 64.
    pub tables: u64,
    /// The number of seats of a table, 2 to 10.
    pub seats: u64,
    /// The stack that a player starts with, in chips, 1 to 1,000,000,000: a multiple of the unit of level `late`.
    pub stack: u64,
    /// The buy-in: what an entry pays into the prizes' pool, in chips of money, at most 1,000,000,000.
    pub buyin: u64,
    /// The last level at which a player may enter, from 1 to the number of levels.
    pub late: u64,
    /// The levels, from level 1 on, 1 to 40 of them.
    pub blinds: List<Blind>,
    /// The shares of the prizes from the first place on, in thousandths of the pool, 1 to 64 of them.
    pub shares: List<u64>,
    /// The most wagers of a street by fixed limit, 1 to 9; 0 where betting has no fixed limit.
    pub cap: u64,
}

impl Model for Plan {
    ghost use Rattle.std.specs.Prelude.{IsTrue};
    ghost use Rattle.level_plan.specs.Plans.{PlanTerms, is_right};

    ghost Value = { PlanTerms };

    ghost use Rattle.level_plan.specs.Fields.{terms_of};

    ghost view = { terms_of };

    ghost invariant = { λ fields. IsTrue (is_right (terms_of fields)) };
}
