//! Games.

/// Which game is played.
#[derive(Clone, Copy, PartialEq, Eq)]
pub enum Game {
    /// No-limit hold'em.
    Holdem,
    /// Pot-limit Omaha.
    Omaha,
    /// Pot-limit Omaha, high and low with eight or better.
    Hilo,
}
