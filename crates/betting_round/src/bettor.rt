//! The players of a street.

ghost use Rattle.std.specs.Prelude.{◌≡◌, map, option_map};
ghost use Rattle.betting_round.specs.StreetActs.{at_next_street};

/// A player on a street.
#[derive(Clone, Copy, PartialEq, Eq)]
pub struct Bettor {
    /// What he has put in on this street, in chips.
    pub put: u64,
    /// What he has behind, in chips. With nothing behind he is all-in.
    pub behind: u64,
    /// His seat, from 1.
    pub seat: u8,
    /// Whether he is live: he is until he folds.
    pub live: bool,
}

/// A player on a street, and whether he has acted on it. Posting is no act.
#[derive(Clone, Copy, PartialEq, Eq)]
pub struct Player {
    pub bettor: Bettor,
    pub acted: bool,
}

/// Gives a player as he begins the next street.
fn at_next_street(slot: Option<Player>) -> Option<Bettor>
    ensures { result ≡ option_map at_next_street slot }
{
    slot.map(|player| Bettor {
        put: 0,
        ..player.bettor
    })
}

/// Gives the players as they begin the next street.
pub(crate) fn all_at_next_street(players: &[Option<Player>; 10]) -> [Option<Bettor>; 10]
    ensures { result ≡ map (option_map at_next_street) players.now }
{
    let mut bettors = [None; 10];
    for index in 0..10 {
        bettors[index] = at_next_street(players[index]);
    }
    bettors
}
