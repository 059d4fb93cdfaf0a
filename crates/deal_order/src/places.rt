//! The places in the deck of the cards of a hand, counted from 0 at its top.

ghost use Rattle.std.specs.Prelude.{◌≡◌, ◌≤◌, ◌<◌};
ghost use Rattle.deal_order.specs.DealOrder.{index_in, dealt_in_order, hole_card_place, burned_before, board_card_place};

use button_blinds::SeatSet;
use rulebook::seat_after;

/// Tells how many players who are dealt in come before this seat in the deal, which goes clockwise from the seat after
/// the button.
fn index_in_deal(dealt: SeatSet, button: u8, seats: u8, seat: u8) -> u8
    requires some { 1 ≤ seats }
    requires most { seats ≤ 10 }
    ensures index { result ≡ index_in seat (dealt_in_order dealt button seats) }
    ensures most { result ≤ 10 }
{
    let mut before = 0;
    let mut next = button;
    for _step in 0..seats {
        next = seat_after(seats, next);
        if dealt.has(next) {
            if next == seat {
                return before;
            }
            before += 1;
        }
    }
    before
}

/// Gives the place in the deck of a player's hole card `k`, counted from 0, where so many `holes` are dealt to each
/// player. Cards are dealt one at a time, clockwise from the seat after the button.
pub fn hole_place(dealt: SeatSet, button: u8, seats: u8, holes: u8, seat: u8, k: u8) -> usize
    requires some { 1 ≤ seats }
    requires most { seats ≤ 10 }
    requires card { k < holes }
    ensures place { result ≡ hole_card_place dealt button seats seat k }
    ensures within { holes ≤ 4 → result < 52 }
{
    let index = index_in_deal(dealt, button, seats, seat);
    k as usize * dealt.count() as usize + index as usize
}

/// Tells how many cards are burned before card `i` of the board: one before the flop, one before the turn and one
/// before the river.
fn burned_before(i: u8) -> usize
    ensures same { result ≡ burned_before i }
    ensures most { result ≤ 3 }
{
    match i {
        0..=2 => 1,
        3 => 2,
        _ => 3,
    }
}

/// Gives the place in the deck of card `i` of the board, where so many players are dealt in and so many `holes` are
/// dealt to each: 0 to 2 are the flop, 3 is the turn and 4 the river.
pub fn board_place(dealt: u8, holes: u8, i: u8) -> usize
    ensures place { result ≡ board_card_place dealt holes i }
    ensures within { dealt ≤ 10 → holes ≤ 4 → i ≤ 4 → result < 52 }
{
    holes as usize * dealt as usize + i as usize + burned_before(i)
}
