//! Who wins a pot.

ghost use Rattle.std.specs.Prelude.{◌≡◌, false, length};
ghost use Rattle.std.specs.Option.{option_map_or};
ghost use Rattle.showdown.specs.Winners.{is_better_low, beats, contends, in_play, is_beaten, wins, winners};

use crate::hand::{Hand, Side};
use button_blinds::SeatSet;
use low_rank::LowValue;

/// Tells whether a low is better than another: the lesser one, and one before none.
fn is_better_low(low: Option<LowValue>, other: Option<LowValue>) -> bool
    ensures { result ≡ is_better_low low other }
{
    match (low, other) {
        (None, _) => false,
        (Some(_), None) => true,
        (Some(low), Some(other)) => low < other,
    }
}

impl Side {
    /// Tells whether a hand beats another on this side.
    fn beats(self, hand: &Hand, other: &Hand) -> bool
        ensures { result ≡ beats self hand.now other.now }
    {
        match self {
            Side::High => hand.high > other.high,
            Side::Low => is_better_low(hand.low, other.low),
        }
    }

    /// Tells whether a hand takes part on this side.
    fn has(self, hand: &Hand) -> bool
        ensures { result ≡ contends self hand.now }
    {
        match self {
            Side::High => true,
            Side::Low => hand.low.is_some(),
        }
    }
}

/// Gives the hands of those who are eligible, by seat.
pub(crate) fn in_play(eligible: SeatSet, hands: &[Option<Hand>; 10]) -> [Option<Hand>; 10]
    requires { length hands.now ≡ 10 }
    ensures rivals { result ≡ in_play eligible hands.now }
    ensures ten { length result ≡ 10 }
{
    let mut rivals = [None; 10];
    for index in 0..hands.len() {
        rivals[index] = if eligible.has(index as u8 + 1) {
            hands[index]
        } else {
            None
        };
    }
    rivals
}

/// Tells whether the hand of a seat, where it has one, beats another.
fn is_beaten_by(side: Side, rival: &Option<Hand>, hand: &Hand) -> bool
    ensures { result ≡ option_map_or (λ own. beats side own hand.now) rival.now false }
{
    match rival {
        Some(rival) => side.beats(rival, hand),
        None => false,
    }
}

/// Tells whether some hand in play beats this one.
fn is_beaten(side: Side, hands: &[Option<Hand>; 10], hand: &Hand) -> bool
    ensures { result ≡ is_beaten side hands.now hand.now }
{
    for rival in hands {
        if is_beaten_by(side, rival, hand) {
            return true;
        }
    }
    false
}

/// Tells whether a hand in play wins a side.
fn wins(side: Side, hands: &[Option<Hand>; 10], hand: &Option<Hand>) -> bool
    ensures { result ≡ wins side hands.now hand.now }
{
    match hand {
        Some(own) => side.has(own) && !is_beaten(side, hands, own),
        None => false,
    }
}

/// Gives the winners of a side.
pub(crate) fn winners(side: Side, hands: &[Option<Hand>; 10]) -> SeatSet
    requires { length hands.now ≡ 10 }
    ensures { result ≡ winners side hands.now }
{
    let mut winners = SeatSet::empty();
    for (index, hand) in hands.iter().enumerate() {
        if wins(side, hands, hand) {
            winners = winners.with(index as u8 + 1);
        }
    }
    winners
}
