//! What each player is awarded.

ghost use Rattle.std.specs.Prelude.{◌≡◌, ◌+◌, ◌%◌, ◌≤◌, ◌<◌, ◌^◌, ◌||◌, ◌==◌, true, map, is_some, length, sum};
ghost use Rattle.std.specs.List.{list_all, list_any};
ghost use Rattle.button_blinds.specs.SeatSets.{seat_count, AreSeatsOf};
ghost use Rattle.pot_layers.specs.Layers.{are_same_seats};
ghost use Rattle.pot_layers.specs.PotTests.{total_of, are_for, have_somebody, are_whole_pots};
ghost use Rattle.showdown.specs.Hands.{hands_of, AreDealtApart};
ghost use Rattle.showdown.specs.Winners.{in_play};
ghost use Rattle.showdown.specs.Awards.{is_seat, split, award_pot, awards_of};

use crate::Live;
use crate::hand::{Hand, Side, hands_of};
use crate::in_turn::InTurn;
use crate::winning::{in_play, winners};
use card_set::{Card, Game};
use pot_layers::{Pot, Pots, halves, share};

/// Splits an amount among winners in turn.
fn split(amount: u64, unit: u64, awards: &mut [u64; 10], order: &[u8])
    requires unit { 1 ≤ unit }
    requires whole { amount % unit ≡ 0 }
    requires seats { list_all is_seat order.now ≡ true }
    requires fits { sum awards.old + amount < 2 ^ 53 }
    ensures { awards.new ≡ split amount unit awards.old order.now }
{
    for (index, seat) in order.iter().enumerate() {
        awards[*seat as usize - 1] += share(amount, unit, order.len() as u64, index as u64);
    }
}

/// Awards a pot.
fn award_pot(
    hands: &[Option<Hand>; 10],
    unit: u64,
    button: u8,
    seats: u8,
    awards: &mut [u64; 10],
    pot: Pot,
)
    requires unit { 1 ≤ unit }
    requires some { 1 ≤ seats }
    requires most { seats ≤ 10 }
    requires button_low { 1 ≤ button }
    requires button_high { button ≤ seats }
    requires ten { length hands.now ≡ 10 }
    requires table { AreSeatsOf seats (map is_some hands.now) }
    requires somebody { list_any is_some (in_play pot.eligible hands.now) ≡ true }
    requires whole { pot.amount % unit ≡ 0 }
    requires fits { sum awards.old + pot.amount < 2 ^ 53 }
    ensures { awards.new ≡ award_pot hands.now unit button seats awards.old pot }
{
    let rivals = in_play(pot.eligible, hands);
    let highs = winners(Side::High, &rivals);
    let lows = winners(Side::Low, &rivals);
    let high_order = InTurn::of(highs, button, seats);
    if lows.count() == 0 || highs == lows {
        split(pot.amount, unit, awards, high_order.as_slice());
        return;
    }
    let low_order = InTurn::of(lows, button, seats);
    let (high, low) = halves(pot.amount, unit);
    split(high, unit, awards, high_order.as_slice());
    split(low, unit, awards, low_order.as_slice());
}

/// Tells what each player is awarded of the pots, in chips, by seat: index 0 is seat 1. Each pot goes to those of its
/// eligible players who have the best hand; it is cut into units, and units that are left over go one each to the
/// winners, clockwise from the seat after the button. In hi-lo the high half is the greater in units and the low half
/// the rest; where both sides have the same winners the pot is split once, and with no qualifying low the high side
/// takes all.
pub fn award(
    pots: &Pots,
    live: &[Option<Live>; 10],
    board: [Card; 5],
    game: Game,
    unit: u64,
    button: u8,
    seats: u8,
) -> [u64; 10]
    requires unit { 1 ≤ unit }
    requires some { 2 ≤ seats }
    requires most { seats ≤ 10 }
    requires button_low { 1 ≤ button }
    requires button_high { button ≤ seats }
    requires table { AreSeatsOf seats (map is_some live.now) }
    requires apart { AreDealtApart game board live.now }
    requires live { are_for (map is_some live.now) pots.now ≡ true }
    requires somebody { have_somebody pots.now ≡ true }
    requires units { are_whole_pots unit pots.now ≡ true }
    requires fits { total_of pots.now < 2 ^ 53 }
    ensures awards { result ≡ awards_of (hands_of game board live.now) unit button seats pots.now }
    ensures sum { sum result ≡ total_of pots.now }
{
    let hands = hands_of(live, board, game);
    let mut awards = [0; 10];
    for index in 0..pots.len() {
        award_pot(&hands, unit, button, seats, &mut awards, pots.get(index));
    }
    awards
}
