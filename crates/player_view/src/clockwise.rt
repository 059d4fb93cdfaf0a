//! The players of a hand, clockwise.

ghost use Rattle.std.specs.Prelude.{◌≡◌, ◌≤◌, ◌++◌, true, length, nat_lt};
ghost use Rattle.std.specs.List.{list_all, position, position_or_len};
ghost use Rattle.level_plan.specs.Items.{is_between};
ghost use Rattle.table_engine.specs.Starts.{IsLawfulStart};
ghost use Rattle.view_rules.specs.Shown.{players_clockwise};

use table_engine::{HandStart, StartSeat};

/// The players of a hand, clockwise from the seat after the button.
#[derive(Clone, Copy)]
pub(crate) struct Clockwise<'a> {
    /// Those who sit behind the button.
    pub(crate) first: &'a [StartSeat],
    /// The others.
    pub(crate) last: &'a [StartSeat],
}

/// Finds the first player who sits behind a seat.
fn first_behind(players: &[StartSeat], seat: u8) -> Option<usize>
    ensures { result ≡ position (λ player. nat_lt seat player.seat) players.now }
{
    players.iter().position(|player| player.seat > seat)
}

/// Tells how many players stand before the first who sits behind a seat.
fn count_before(players: &[StartSeat], seat: u8) -> usize
    ensures count { result ≡ position_or_len (λ player. nat_lt seat player.seat) players.now }
    ensures within { result ≤ length players.now }
{
    first_behind(players, seat).unwrap_or(players.len())
}

/// Gives the players of a hand, clockwise from the seat after the button.
pub(crate) fn in_turn(start: &HandStart) -> Clockwise<'_>
    requires { IsLawfulStart start.now }
    ensures turn { result.first.now ++ result.last.now ≡ players_clockwise start.now }
    ensures first { list_all (λ player. is_between 1 10 player.seat) result.first.now ≡ true }
    ensures last { list_all (λ player. is_between 1 10 player.seat) result.last.now ≡ true }
{
    let players = start.seats.items();
    let before = count_before(players, start.marks.button);
    Clockwise {
        first: &players[before..],
        last: &players[..before],
    }
}
