//! A hand that is told, entry by entry.

ghost use Rattle.std.specs.Prelude.{◌≡◌, [], None, Some, false, true};
ghost use Rattle.view_rules.specs.Entries.{MayCome, told_after};

use crate::dealt::{Unfit, deck_of, name, two};
use betting_round::Act;
use card_set::Game;
use floor_text::Name;
use player_view::{Opening, TableEntry, TableTeller};
use std::alloc::Global;
use table_engine::{ActOf, Hand};

/// The sorted deck, where the cards at the places 1 and 50 are exchanged, and those at the places 3 and 51.
const ACES: &[u8] =
    b"2cAh2hAs3c3d3h3s4c4d4h4s5c5d5h5s6c6d6h6s7c7d7h7s8c8d8h8s9c9d9h9sTcTdThTsJcJdJhJsQcQdQhQsKcKdKhKsAcAd2d2s";

/// What bob is told of the worked hand.
const BOBS: &str = "1: hand 1 1 1 4
1: seat 1 ann 1000
1: seat 4 bob 1000
1: post ann 100
1: post bob 200
1: hole 2c2h
1: ann raise 1000
1: bob call 800
1: show bob 2c2h
1: show ann AhAs
1: flop 3d3h3s
1: turn 4d
1: river 4s
1: win ann 2000
";

/// Tells of an entry, and once more where memory ran out.
fn tell(teller: &mut TableTeller, entry: &TableEntry, out: &mut Vec<u8>) -> bool
    requires { MayCome teller.old.hand entry.now }
    ensures { result ≡ true → teller.new ≡ told_after teller.old entry.now }
{
    if teller.tell(entry, out).is_ok() {
        return true;
    }
    teller.tell(entry, out).is_ok()
}

/// Tells that a hand begins.
fn tell_begin(alloc: Global, teller: &mut TableTeller, hand: &Hand, out: &mut Vec<u8>) -> bool
    requires free { teller.old.hand ≡ None }
    requires begun { hand.now.acts ≡ [] }
    ensures { result ≡ true → teller.new.hand ≡ Some hand.now }
{
    let Ok(start) = hand.start().copy(alloc) else {
        return false;
    };
    match Opening::new(alloc, start) {
        Ok(opening) => tell(teller, &TableEntry::Opened(opening), out),
        Err(_) => false,
    }
}

/// Tells of an act, which may come next.
fn tell_turn(teller: &mut TableTeller, name: Name, act: Act, out: &mut Vec<u8>) -> bool
    requires { MayCome teller.old.hand (TableEntry.Acted 0 (record { name = name; act = act; by_time = false })) }
    ensures { result ≡ true → teller.new
        ≡ told_after teller.old (TableEntry.Acted 0 (record { name = name; act = act; by_time = false })) }
{
    let act = ActOf {
        name,
        act,
        by_time: false,
    };
    tell(teller, &TableEntry::Acted { caller: 0, act }, out)
}

/// Tells of an act that is not refused, and makes it in the hand too.
fn tell_act(
    teller: &mut TableTeller,
    hand: &mut Hand,
    name: Name,
    act: Act,
    out: &mut Vec<u8>,
) -> bool
    requires { teller.old.hand ≡ Some hand.old }
    ensures { result ≡ true → teller.new.hand ≡ Some hand.new }
{
    hand.check(name, act).is_ok()
        && tell_turn(teller, name, act, out)
        && hand.act(name, act).is_ok()
}

/// Tells of a hand in which ann goes all-in and bob calls.
fn tell_hand(
    alloc: Global,
    teller: &mut TableTeller,
    hand: &mut Hand,
    ann: Name,
    bob: Name,
    out: &mut Vec<u8>,
) -> bool
    requires free { teller.old.hand ≡ None }
    requires begun { hand.old.acts ≡ [] }
{
    tell_begin(alloc, teller, hand, out)
        && tell_act(teller, hand, ann, Act::AllIn, out)
        && tell_act(teller, hand, bob, Act::Call, out)
        && tell(teller, &TableEntry::Closed, out)
}

/// Tells whether bob is told what he should be of the worked hand.
fn is_told(alloc: Global) -> Result<bool, Unfit> {
    let ann = name(b"ann")?;
    let bob = name(b"bob")?;
    let deck = deck_of(ACES).ok_or(Unfit)?;
    let mut hand = two(alloc, Game::Holdem, deck, 1000, 1000)?;
    let mut teller = TableTeller::new(alloc, 1, Some(bob));
    let mut out = Vec::new(alloc);
    let told = tell_hand(alloc, &mut teller, &mut hand, ann, bob, &mut out);
    Ok(told && out.as_slice() == BOBS.as_bytes())
}

#[test]
fn a_hand_is_told(rt: HostRuntime) {
    assert!(rt; is_told(rt.alloc()).unwrap_or(false));
}
