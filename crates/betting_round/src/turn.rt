//! Who is due on a street.

ghost use Rattle.std.specs.Prelude.{◌≡◌, ◌&&◌, ◌≤◌, nat_le, nat_lt, find, count_by};
ghost use Rattle.rulebook.specs.Seats.{clockwise_after};
ghost use Rattle.std.specs.List.{list_any};
ghost use Rattle.betting_round.specs.WhoIsDue.{player_at, is_there, is_live, can_act, is_one_live, has_put_most, is_only_one_to_act, is_closed, may_be_due};

use crate::bettor::Player;
use rulebook::seat_after;

/// The most seats that a table has.
pub(crate) const MOST_SEATS: u8 = 10;

impl Player {
    /// Tells whether he is live and not all-in.
    fn can_act(&self) -> bool
        ensures { result ≡ can_act self.now }
    {
        self.bettor.live && self.bettor.behind > 0
    }

    /// Tells whether he may be due.
    fn may_be_due(&self, level: u64) -> bool
        ensures { result ≡ may_be_due level self.now }
    {
        self.can_act() && (!self.acted || self.bettor.put < level)
    }
}

/// Tells whether a live player is there.
fn is_live(slot: &Option<Player>) -> bool
    ensures { result ≡ is_there is_live slot.now }
{
    match slot {
        Some(player) => player.bettor.live,
        None => false,
    }
}

/// Tells whether a player is there who can act.
fn can_act(slot: &Option<Player>) -> bool
    ensures { result ≡ is_there can_act slot.now }
{
    match slot {
        Some(player) => player.can_act(),
        None => false,
    }
}

/// Tells whether a live player is there who has put in more than this.
fn has_put_more(slot: &Option<Player>, put: u64) -> bool
    ensures { result ≡ is_there (λ other. other.bettor.live && nat_lt put other.bettor.put) slot.now }
{
    match slot {
        Some(other) => other.bettor.live && other.bettor.put > put,
        None => false,
    }
}

/// Tells whether no live player has put in more than this.
fn has_put_most(players: &[Option<Player>], put: u64) -> bool
    ensures { result ≡ has_put_most players.now put }
{
    players.iter().all(|slot| !has_put_more(slot, put))
}

/// Tells whether a player is there who can act, and no live player has put in more than he has.
fn can_act_and_has_put_most(slot: &Option<Player>, players: &[Option<Player>]) -> bool
    ensures { result ≡ is_there (λ player. can_act player && has_put_most players.now player.bettor.put) slot.now }
{
    match slot {
        Some(player) => player.can_act() && has_put_most(players, player.bettor.put),
        None => false,
    }
}

/// Tells whether somebody can act, and no live player has put in more than he has.
fn one_has_put_most(players: &[Option<Player>]) -> bool
    ensures { result ≡ list_any (is_there (λ player. can_act player && has_put_most players.now player.bettor.put))
        players.now }
{
    players
        .iter()
        .any(|slot| can_act_and_has_put_most(slot, players))
}

/// Tells whether exactly one live player is not all-in, and has put in at least as much as every other live one.
fn is_only_one_to_act(players: &[Option<Player>]) -> bool
    ensures { result ≡ is_only_one_to_act players.now }
{
    players.iter().filter(|slot| can_act(slot)).count() == 1 && one_has_put_most(players)
}

/// Tells whether one player alone is live.
pub(crate) fn is_one_live(players: &[Option<Player>]) -> bool
    ensures { result ≡ is_one_live players.now }
{
    players.iter().filter(|slot| is_live(slot)).count() == 1
}

/// Tells whether two players can act.
fn can_two_act(players: &[Option<Player>]) -> bool
    ensures { result ≡ nat_le 2 (count_by (is_there can_act) players.now) }
{
    let mut can_one = false;
    for slot in players {
        if can_act(slot) {
            if can_one {
                return true;
            }
            can_one = true;
        }
    }
    false
}

/// Tells whether one player alone is live, or one alone is left to act. It is a function of its own, since two players
/// can act until late on a street.
#[inline(never)]
fn is_closed_where_few_can_act(players: &[Option<Player>]) -> bool
    ensures { result ≡ is_closed players.now }
{
    is_one_live(players) || is_only_one_to_act(players)
}

/// Tells whether nobody is due on the street any more.
#[tactic(auto, using(crate::proofs::Closings::open_where_two_act))]
pub(crate) fn is_closed(players: &[Option<Player>]) -> bool
    ensures { result ≡ is_closed players.now }
{
    !can_two_act(players) && is_closed_where_few_can_act(players)
}

/// Tells whether the player in this seat, if one is there, may be due.
fn may_be_due(players: &[Option<Player>; 10], level: u64, seat: u8) -> bool
    requires first { 1 ≤ seat }
    requires last { seat ≤ 10 }
    ensures { result ≡ is_there (may_be_due level) (player_at players.now seat) }
{
    match &players[usize::from(seat) - 1] {
        Some(player) => player.may_be_due(level),
        None => false,
    }
}

/// Gives the first seat, of so many, whose player may be due, clockwise from the seat after this one.
#[tactic(auto, using(rulebook::proofs::Walks::find_found, rulebook::proofs::Walks::find_passed))]
pub(crate) fn first_to_act(
    players: &[Option<Player>; 10],
    seats: u8,
    level: u64,
    after: u8,
) -> Option<u8>
    requires some { 1 ≤ seats }
    requires most { seats ≤ 10 }
    ensures { result ≡ find (λ seat. is_there (may_be_due level) (player_at players.now seat))
        (clockwise_after seats after) }
{
    let mut seat = after;
    for _step in 0..seats {
        seat = seat_after(seats, seat);
        if may_be_due(players, level, seat) {
            return Some(seat);
        }
    }
    None
}
