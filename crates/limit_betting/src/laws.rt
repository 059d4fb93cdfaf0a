//! Laws of streets that are played by fixed limit.

ghost use Rattle.std.specs.Prelude.{◌≡◌, ◌+◌, ◌*◌, ◌≤◌, ℕ, List, Some};
ghost use Rattle.betting_round.specs.declared.bettor.Bettor.{Bettor};
ghost use Rattle.betting_round.specs.declared.bettor.Player.{Player};
ghost use Rattle.betting_round.specs.StreetActs.{SeatAct, StreetStart, full_raise, level, street_after};
ghost use Rattle.betting_round.specs.WhoIsDue.{player_at};
ghost use Rattle.limit_betting.specs.Wagers.{AreLimited, IsLimitStart, raises, wagers};

/// Says that on a street of fixed limit nobody puts in more than so many bets as the cap says and five more, there are
/// no more wagers than the cap says, nobody raises more often than that but by an all-in, and the full raise is the
/// bet. Each of ten players goes all-in once, and an all-in that is no wager raises the bet level by less than half of
/// a bet.
pub fn the_level_is_bounded()
    ensures level { (cap : ℕ) (start : StreetStart) (acts : List SeatAct) → 1 ≤ cap → IsLimitStart start
        → AreLimited cap start acts → level start acts ≤ (cap + 5) * start.big }
    ensures put { (cap : ℕ) (start : StreetStart) (acts : List SeatAct) (seat : ℕ) (player : Player) → 1 ≤ cap
        → IsLimitStart start → AreLimited cap start acts → 1 ≤ seat
        → player_at (street_after start acts).players seat ≡ Some player
        → player.bettor.put ≤ (cap + 5) * start.big }
    ensures wagers { (cap : ℕ) (start : StreetStart) (acts : List SeatAct) → 1 ≤ cap → IsLimitStart start
        → AreLimited cap start acts → wagers start acts ≤ cap }
    ensures raises { (cap : ℕ) (start : StreetStart) (acts : List SeatAct) → 1 ≤ cap → IsLimitStart start
        → AreLimited cap start acts → raises start acts ≤ cap }
    ensures full { (cap : ℕ) (start : StreetStart) (acts : List SeatAct) → 1 ≤ cap → IsLimitStart start
        → AreLimited cap start acts → full_raise start acts ≡ start.big }
{}
