//! The bounds of a plan's items.

/// The fewest seats of a table.
pub const FEWEST_SEATS: u64 = 2;

/// The greatest stack, buy-in, blind, ante and unit, in chips.
pub const GREATEST_AMOUNT: u64 = 1_000_000_000;

/// The most levels of a plan.
pub const MOST_LEVELS: usize = 40;

/// The most shares of the prizes.
pub const MOST_SHARES: usize = 64;

/// The most wagers of a street that a plan may name.
pub const MOST_WAGERS: u64 = 9;

/// The whole pool of the prizes, in thousandths of it.
pub const WHOLE_POOL: u64 = 1000;
