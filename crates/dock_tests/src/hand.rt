//! The hand that desks act in.

ghost use Rattle.std.specs.Prelude.{◌≡◌, [], IfOk};
ghost use Rattle.card_set.specs.Decks.{IsDeck};

use button_blinds::Marks;
use card_set::{Deck, Game};
use floor_text::{List, Name};
use level_plan::Blind;
use std::alloc::{AllocError, Global};
use table_engine::{Hand, HandStart, StartSeat};

fn player(number: u32, name: Name, seat: u8, stack: u64) -> StartSeat
    ensures { result ≡ record { seat = seat; player = number; name = name; stack = stack } }
{
    StartSeat {
        seat,
        player: number,
        name,
        stack,
    }
}

/// Makes the start of a hand of these players: the button and the small blind are at seat 1, the big one and the ante at
/// seat 4.
fn start_of(seats: Vec<StartSeat>, deck: Deck) -> HandStart
    requires { IsDeck deck }
    ensures seats { result.seats ≡ seats.items }
    ensures table { result.table ≡ 1 }
    ensures seat_count { result.seat_count ≡ 6 }
    ensures marks { result.marks ≡ record { button = 1; small = 1; big = 4 } }
    ensures deck { IsDeck result.deck }
    ensures blind { result.blind ≡ record { small = 100; big = 200; unit = 100; ante = 100 } }
{
    HandStart {
        table: 1,
        serial: 1,
        seats: List::from_vec(seats),
        seat_count: 6,
        marks: Marks {
            button: 1,
            small: 1,
            big: 4,
        },
        blind: Blind {
            small: 100,
            big: 200,
            unit: 100,
            ante: 100,
        },
        cap: 0,
        game: Game::Omaha,
        deck,
    }
}

/// Makes a hand of ann, who has the button and the small blind, and bob, who has the big one and fewer chips.
pub fn fresh_hand(alloc: Global) -> Result<Hand, AllocError>
    ensures { IfOk result (λ hand. (hand.acts ≡ []) × (hand.start.table ≡ 1)) }
{
    let ann = player(0, Name::read(b"ann").unwrap(), 1, 3000);
    let bob = player(1, Name::read(b"bob").unwrap(), 4, 1000);
    let seats = Vec::from_array(alloc, [ann, bob])?;
    match Hand::new(alloc, start_of(seats, Deck::sorted())) {
        Ok(hand) => Ok(hand),
        Err(_) => Err(AllocError),
    }
}
