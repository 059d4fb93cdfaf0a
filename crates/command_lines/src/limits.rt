//! The greatest numbers of a command and of its input.

/// The most bytes that a plan file may have.
pub const PLAN_LIMIT: u64 = 1_048_576;

/// The greatest number of a port.
pub const LAST_PORT: u64 = 65_535;

/// The most desks that a server may have.
pub const MOST_DESKS: u64 = 128;
