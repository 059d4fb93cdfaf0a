//! What the players of a hand get of its pots.

ghost use Rattle.std.specs.Prelude.{◌≡◌, ◌≤◌};
ghost use Rattle.table_engine.specs.Awards.{award_in};

/// What the players of a hand get, in chips.
#[derive(Clone, Copy)]
pub enum Awards {
    /// One player alone is live and gets so much: everything.
    Sole(u64),
    /// The awards of a showdown, by seat: index 0 is seat 1.
    BySeat([u64; 10]),
}

impl Awards {
    /// Tells what the player in a seat gets, who is live or has folded.
    pub fn award_in(&self, seat: u8, live: bool) -> u64
        requires first { 1 ≤ seat }
        requires last { seat ≤ 10 }
        ensures { result ≡ award_in self.now seat live }
    {
        match self {
            Awards::Sole(pot) if live => *pot,
            Awards::Sole(_) => 0,
            Awards::BySeat(awards) => awards[seat as usize - 1],
        }
    }
}
