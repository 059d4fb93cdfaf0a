//! Fixed limit: what may be bet, what a wager is, and the limit of a hand.

ghost use Rattle.std.specs.Prelude.{◌≡◌, ◌<◌, ◌^◌};
ghost use Rattle.betting_round.specs.Limits.{AreFewChips};

use crate::dealt::{Dealt, deal};
use crate::hands::FOUR_WAGERS;
use crate::rows::{are_right, are_right_in};
use betting_round::{Act, Bounds, Facing};
use card_set::{Deck, Game};
use floor_text::Name;
use limit_betting::{FixedLimit, bet_of, wagers_of};
use std::alloc::Global;
use table_engine::Hand;

/// The bet, the most wagers and those so far; the bet level, the full raise, what the player has put in and whether he
/// has acted; and the least, the most and whether he may raise.
type BoundRow = ((u16, u8, u8), (u16, u16, u16, bool), (u64, u64, bool));

static BOUNDS: [BoundRow; 10] = [
    // before the flop, where the big blind is one wager
    ((200, 4, 1), (200, 200, 0, false), (400, 400, true)),
    // once there are as many wagers as there may be
    ((200, 4, 4), (800, 200, 400, true), (1000, 800, true)),
    ((200, 4, 5), (800, 200, 400, true), (1000, 800, true)),
    ((200, 1, 1), (200, 200, 100, false), (400, 200, true)),
    // the level has risen by less than half of a bet, by half, and by a bet
    ((200, 4, 1), (290, 200, 200, true), (490, 490, false)),
    ((200, 4, 2), (300, 200, 200, true), (500, 500, true)),
    ((200, 4, 2), (400, 200, 200, true), (600, 600, true)),
    // who has not acted may raise, however much he has put in
    ((200, 4, 1), (200, 200, 200, false), (400, 400, true)),
    // half of an odd bet is no whole number
    ((25, 4, 1), (37, 25, 25, true), (62, 62, false)),
    // a bet on the turn
    ((400, 4, 0), (0, 400, 0, false), (400, 400, true)),
];

/// Gives what a player faces who has 1000 behind, where the pot holds 600.
fn faced(level: u16, full: u16, put: u16, acted: bool) -> Facing
    ensures { AreFewChips result }
{
    Facing {
        level: u64::from(level),
        full: u64::from(full),
        put: u64::from(put),
        behind: 1000,
        pot: 600,
        acted,
    }
}

fn is_bounded(row: &BoundRow) -> bool {
    let ((bet, cap, wagers), (level, full, put, acted), wanted) = *row;
    let limit = FixedLimit {
        bet: u64::from(bet),
        cap: u64::from(cap),
        wagers: u64::from(wagers),
    };
    let facing = faced(level, full, put, acted);
    (
        limit.least(&facing),
        limit.most(&facing),
        limit.reopened(&facing),
    ) == wanted
}

#[test]
fn what_may_be_bet_by_fixed_limit(rt: HostRuntime) {
    are_right(&rt, &BOUNDS, is_bounded);
}

/// A bet, the bet level before an act and after it, and the wagers that the act is.
static WAGERS: [(u16, u16, u16, u64); 10] = [
    (200, 0, 200, 1),
    (200, 200, 400, 1),
    (200, 200, 290, 0),
    (200, 200, 300, 1),
    (200, 0, 99, 0),
    (200, 0, 100, 1),
    (25, 0, 12, 0),
    (25, 0, 13, 1),
    // a fold, a check or a call
    (200, 200, 200, 0),
    (400, 0, 0, 0),
];

fn is_counted(row: &(u16, u16, u16, u64)) -> bool {
    let (bet, before, after, wanted) = *row;
    wagers_of(u64::from(bet), u64::from(before), u64::from(after)) == wanted
}

#[test]
fn half_of_a_bet_is_a_wager(rt: HostRuntime) {
    are_right(&rt, &WAGERS, is_counted);
}

#[test]
fn bets_of_streets(rt: HostRuntime) {
    let bets = [
        bet_of(200, 0),
        bet_of(200, 1),
        bet_of(200, 2),
        bet_of(200, 3),
    ];
    assert!(rt; bets == [200, 200, 400, 400]);
}

/// An act of a player, and the bet and the wagers of the street of who is due then, where somebody is.
type LimitRow = (&'static [u8], Act, Option<(u16, u8)>);

static HAND: [LimitRow; 9] = [
    (b"ann", Act::Raise(400), Some((200, 2))),
    (b"bob", Act::Call, Some((200, 2))),
    (b"cat", Act::Raise(600), Some((200, 3))),
    (b"ann", Act::Call, Some((200, 3))),
    (b"bob", Act::Call, Some((200, 0))),
    (b"bob", Act::Bet(200), Some((200, 1))),
    (b"cat", Act::Fold, Some((200, 1))),
    (b"ann", Act::Call, Some((400, 0))),
    (b"bob", Act::Fold, None),
];

/// Tells whether a hand has a limit of these, with a cap of 4.
fn has_limit(hand: &Hand, wanted: Option<(u16, u8)>) -> bool {
    hand.limit()
        == wanted.map(|(bet, wagers)| FixedLimit {
            bet: u64::from(bet),
            cap: 4,
            wagers: u64::from(wagers),
        })
}

/// Tells whether acts are accepted one after another, and the limit is as it should be behind each.
fn have_limits(hand: &mut Hand, rows: &[LimitRow]) -> bool {
    for (name, act, wanted) in rows {
        let Some(name) = Name::read(name) else {
            return false;
        };
        if hand.act(name, *act).is_err() || !has_limit(hand, *wanted) {
            return false;
        }
    }
    true
}

/// Begins a hand of three who have 5000 each.
fn hand_of(alloc: Global, dealt: Dealt) -> Option<Hand> {
    deal(alloc, dealt, Game::Holdem, Deck::sorted())
}

/// Tells whether a hand has the limits of each street, and one without a cap has none.
fn is_limited(alloc: Global) -> bool {
    let limited = Dealt::Staked(FOUR_WAGERS, 5000, 5000, 5000);
    let Some(mut hand) = hand_of(alloc, limited) else {
        return false;
    };
    let begun = has_limit(&hand, Some((200, 1)));
    let Some(free) = hand_of(alloc, Dealt::Three(5000, 5000, 5000)) else {
        return false;
    };
    begun && have_limits(&mut hand, &HAND) && free.limit().is_none()
}

#[test]
fn a_hand_has_the_limit_of_its_street(rt: HostRuntime) {
    assert!(rt; is_limited(rt.alloc()));
}
