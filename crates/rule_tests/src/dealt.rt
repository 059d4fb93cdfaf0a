//! Hands that begin at blinds of 100 and 200.

ghost use Rattle.std.specs.Prelude.{◌≡◌, ◌+◌, ◌<◌, ◌≤◌, ◌^◌, true, [], IfOk, IfSome};
ghost use Rattle.card_set.specs.Decks.{IsDeck};
ghost use Rattle.level_plan.specs.Items.{is_blind};
ghost use Rattle.table_engine.specs.Starts.{is_playable_stack};

use button_blinds::Marks;
use card_set::{Deck, Game, read_row};
use floor_text::{List, Name};
use level_plan::Blind;
use std::alloc::{AllocFailed, Global};
use table_engine::{Hand, HandStart, StartSeat};

/// The unit and the ante of a hand, and the most wagers of a street: 0 where betting has no fixed limit.
#[derive(Clone, Copy)]
pub struct Stakes {
    pub unit: u8,
    pub ante: u16,
    pub cap: u8,
}

/// Who is dealt in, by their stacks.
#[derive(Clone, Copy)]
pub enum Dealt {
    Two(u16, u16),
    Three(u16, u16, u16),
    /// Three players whose hand has these stakes.
    Staked(Stakes, u16, u16, u16),
    Four(u16, u16, u16, u16),
    /// Ten players, who have these stacks by turns.
    Ten(u16, u16),
}

/// A unit of 50, no ante and no fixed limit.
const PLAIN: Stakes = Stakes {
    unit: 50,
    ante: 0,
    cap: 0,
};

/// Why a hand does not begin: a text is no name, or memory ran out.
#[derive(Clone, Copy)]
pub struct Unfit;

impl<T: Drop> From<AllocFailed<T>> for Unfit {
    fn from(_: AllocFailed<T>) -> Unfit {
        Unfit
    }
}

/// Gives the name of a text.
pub fn name(text: &[u8]) -> Result<Name, Unfit>
    ensures { IfOk result (λ name. name ≡ text.now) }
{
    Name::read(text).ok_or(Unfit)
}

/// Gives a player who is dealt in.
fn player(number: u32, name: Name, seat: u8, stack: u64) -> StartSeat
    ensures { result ≡ record { seat = seat; player = number; name = name; stack = stack } }
{
    StartSeat {
        seat,
        player: number,
        name,
        stack,
    }
}

/// Gives the start of a hand of these players at blinds of 100 and 200, without an ante and without a fixed limit.
fn start_of(
    seats: Vec<StartSeat>,
    seat_count: u8,
    marks: Marks,
    unit: u64,
    game: Game,
    deck: Deck,
) -> HandStart
    ensures seats { result.seats ≡ seats.items }
    ensures table { result.seat_count ≡ seat_count }
    ensures marks { result.marks ≡ marks }
    ensures deck { IsDeck result.deck }
    ensures blind { result.blind ≡ record { small = 100; big = 200; unit = unit; ante = 0 } }
{
    HandStart {
        table: 1,
        serial: 1,
        seats: List::from_vec(seats),
        seat_count,
        marks,
        blind: Blind {
            small: 100,
            big: 200,
            unit,
            ante: 0,
        },
        cap: 0,
        game,
        deck,
    }
}

/// Begins a hand of ann, who has the button and the small blind, and of bob, who has the big blind and is dealt to
/// first. The unit is 100.
pub fn two(alloc: Global, game: Game, deck: Deck, first: u64, second: u64) -> Result<Hand, Unfit>
    requires first { is_playable_stack 100 first ≡ true }
    requires second { is_playable_stack 100 second ≡ true }
    requires small { first + second < 2 ^ 53 }
    ensures { IfOk result (λ hand. hand.acts ≡ []) }
{
    let seats = [
        player(0, name(b"ann")?, 1, first),
        player(1, name(b"bob")?, 4, second),
    ];
    let marks = Marks {
        button: 1,
        small: 1,
        big: 4,
    };
    let start = start_of(Vec::from_array(alloc, seats)?, 6, marks, 100, game, deck);
    Hand::new(alloc, start).map_err(|_| Unfit)
}

/// Begins a hand of ann, bob and cat: the button, the small and the big blind.
fn three(
    alloc: Global,
    game: Game,
    deck: Deck,
    blind: Blind,
    cap: u64,
    first: u64,
    second: u64,
    third: u64,
) -> Result<Hand, Unfit>
    requires blind { is_blind blind ≡ true }
    requires first { is_playable_stack blind.unit first ≡ true }
    requires second { is_playable_stack blind.unit second ≡ true }
    requires third { is_playable_stack blind.unit third ≡ true }
    requires small { first + second + third < 2 ^ 53 }
{
    let seats = [
        player(0, name(b"ann")?, 1, first),
        player(1, name(b"bob")?, 2, second),
        player(2, name(b"cat")?, 3, third),
    ];
    let marks = Marks {
        button: 1,
        small: 2,
        big: 3,
    };
    let start = start_of(
        Vec::from_array(alloc, seats)?,
        6,
        marks,
        blind.unit,
        game,
        deck,
    );
    Hand::new(
        alloc,
        HandStart {
            blind,
            cap,
            ..start
        },
    )
    .map_err(|_| Unfit)
}

/// Begins a hand of ann to dan in the seats 1 to 4, with the button at the empty seat 6: ann has the small blind, and
/// bob the big one. The unit is 100.
fn four(
    alloc: Global,
    game: Game,
    deck: Deck,
    first: u64,
    second: u64,
    third: u64,
    fourth: u64,
) -> Result<Hand, Unfit>
    requires first { is_playable_stack 100 first ≡ true }
    requires second { is_playable_stack 100 second ≡ true }
    requires third { is_playable_stack 100 third ≡ true }
    requires fourth { is_playable_stack 100 fourth ≡ true }
    requires small { first + second + third + fourth < 2 ^ 53 }
{
    let seats = [
        player(0, name(b"ann")?, 1, first),
        player(1, name(b"bob")?, 2, second),
        player(2, name(b"cat")?, 3, third),
        player(3, name(b"dan")?, 4, fourth),
    ];
    let marks = Marks {
        button: 6,
        small: 1,
        big: 2,
    };
    let start = start_of(Vec::from_array(alloc, seats)?, 6, marks, 100, game, deck);
    Hand::new(alloc, start).map_err(|_| Unfit)
}

/// Begins a hand of ten players in the seats 1 to 10, who have these stacks by turns, with the button at seat 8. The
/// unit is 50.
fn ten(alloc: Global, game: Game, deck: Deck, first: u64, second: u64) -> Result<Hand, Unfit>
    requires first { is_playable_stack 50 first ≡ true }
    requires second { is_playable_stack 50 second ≡ true }
    requires small { first < 2 ^ 48 }
    requires small_too { second < 2 ^ 48 }
{
    let seats = [
        player(0, name(b"ann")?, 1, first),
        player(1, name(b"bob")?, 2, second),
        player(2, name(b"cat")?, 3, first),
        player(3, name(b"dan")?, 4, second),
        player(4, name(b"eve")?, 5, first),
        player(5, name(b"fay")?, 6, second),
        player(6, name(b"gus")?, 7, first),
        player(7, name(b"hal")?, 8, second),
        player(8, name(b"ida")?, 9, first),
        player(9, name(b"jon")?, 10, second),
    ];
    let marks = Marks {
        button: 8,
        small: 9,
        big: 10,
    };
    let start = start_of(Vec::from_array(alloc, seats)?, 10, marks, 50, game, deck);
    Hand::new(alloc, start).map_err(|_| Unfit)
}

/// Gives a stack, if a player can be dealt in with it.
fn playable(unit: u64, stack: u16) -> Option<u64>
    requires { 1 ≤ unit }
    ensures stack { IfSome result (λ stack. is_playable_stack unit stack ≡ true) }
    ensures small { IfSome result (λ stack. stack < 2 ^ 16) }
{
    let stack = u64::from(stack);
    if stack > 0 && stack % unit == 0 {
        Some(stack)
    } else {
        None
    }
}

/// Gives blinds of 100 and 200 with a unit and an ante, if they are lawful.
fn blind_of(unit: u8, ante: u16) -> Option<Blind>
    ensures blind { IfSome result (λ blind. is_blind blind ≡ true) }
    ensures unit { IfSome result (λ blind. 1 ≤ blind.unit) }
{
    let unit = u64::from(unit);
    let ante = u64::from(ante);
    if unit > 0 && 100 % unit == 0 && 200 % unit == 0 && ante % unit == 0 {
        Some(Blind {
            small: 100,
            big: 200,
            unit,
            ante,
        })
    } else {
        None
    }
}

/// Begins a hand of three that has these stakes.
fn staked(
    alloc: Global,
    game: Game,
    deck: Deck,
    stakes: Stakes,
    a: u16,
    b: u16,
    c: u16,
) -> Option<Hand> {
    let blind = blind_of(stakes.unit, stakes.ante)?;
    let cap = u64::from(stakes.cap);
    let (a, b) = (playable(blind.unit, a)?, playable(blind.unit, b)?);
    three(
        alloc,
        game,
        deck,
        blind,
        cap,
        a,
        b,
        playable(blind.unit, c)?,
    )
    .ok()
}

/// Begins a hand. `None` where a player cannot be dealt in with his stack, or memory ran out.
pub fn deal(alloc: Global, dealt: Dealt, game: Game, deck: Deck) -> Option<Hand> {
    match dealt {
        Dealt::Two(a, b) => two(alloc, game, deck, playable(100, a)?, playable(100, b)?).ok(),
        Dealt::Three(a, b, c) => staked(alloc, game, deck, PLAIN, a, b, c),
        Dealt::Staked(stakes, a, b, c) => staked(alloc, game, deck, stakes, a, b, c),
        Dealt::Four(a, b, c, d) => {
            let (a, b) = (playable(100, a)?, playable(100, b)?);
            let (c, d) = (playable(100, c)?, playable(100, d)?);
            four(alloc, game, deck, a, b, c, d).ok()
        }
        Dealt::Ten(a, b) => ten(alloc, game, deck, playable(50, a)?, playable(50, b)?).ok(),
    }
}

/// Gives the deck of a row.
pub fn deck_of(text: &[u8]) -> Option<Deck> {
    let row = read_row(text)?;
    Deck::of_row(&row)
}
