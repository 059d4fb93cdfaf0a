//! The orders that the floor owes, drawn decks and simulated acts.

use crate::dealt::{Dealt, deal};
use crate::rows::{are_right, are_right_in};
use crate::seating::{BEGUN, PLAYS, RACES, RESTS, Table, book_of};
use betting_round::Act;
use card_set::{Deck, Game, read_row};
use floor_director::{deck_of, next_order, sim_act};
use floor_text::Name;
use seat_book::{Place, SeatBook};
use std::alloc::Global;
use table_engine::Hand;
use tournament_events::Event;

/// Gives a number as eight bytes, the least first, and 24 zero bytes.
fn seed_of(number: u64) -> [u8; 32] {
    let mut bytes = [0; 32];
    bytes[0..8].copy_from_slice(&number.to_le_bytes());
    bytes
}

/// An order, without its draw.
#[derive(Clone, Copy, PartialEq, Eq)]
enum Owed {
    Nothing,
    Balance(u64, u64),
    Break(u64),
    Other,
}

/// How many seats three tables have, how they stand, and what is owed.
type OrderRow = (u8, &'static [Table], Owed);

static ORDERS: [OrderRow; 12] = [
    // a full table and one with seven players
    (
        9,
        &[
            (&[1, 2, 3, 4, 5, 6, 7, 8, 9], RESTS),
            (&[1, 2, 3, 4, 6, 7, 9], RESTS),
            (&[], RESTS),
        ],
        Owed::Balance(1, 2),
    ),
    // once a player has moved
    (
        9,
        &[
            (&[2, 3, 4, 5, 6, 7, 8, 9], RESTS),
            (&[1, 2, 3, 4, 6, 7, 8, 9], RESTS),
            (&[], RESTS),
        ],
        Owed::Nothing,
    ),
    // a difference of one
    (
        9,
        &[
            (&[1, 2, 3, 4, 5, 6, 7, 8, 9], RESTS),
            (&[1, 2, 3, 4, 6, 7, 8, 9], RESTS),
            (&[], RESTS),
        ],
        Owed::Nothing,
    ),
    // two players and two empty seats
    (
        6,
        &[
            (&[1, 2, 3, 4], RESTS),
            (&[1, 2, 3, 5, 6], RESTS),
            (&[2, 4], RESTS),
        ],
        Owed::Break(3),
    ),
    // a break before a balance
    (
        6,
        &[
            (&[1, 2, 3, 4, 5], RESTS),
            (&[1, 2, 3], RESTS),
            (&[1, 2], RESTS),
        ],
        Owed::Break(3),
    ),
    // a balance while the last table plays
    (
        6,
        &[
            (&[1, 2, 3, 4, 5], RESTS),
            (&[1, 2, 3], RESTS),
            (&[1, 2], PLAYS),
        ],
        Owed::Balance(1, 3),
    ),
    // the fullest table and the last one play
    (
        6,
        &[
            (&[1, 2, 3, 4, 5], PLAYS),
            (&[1, 2, 3], RESTS),
            (&[1, 2], PLAYS),
        ],
        Owed::Nothing,
    ),
    // the first of the fullest tables plays
    (
        9,
        &[
            (&[1, 2, 3, 4, 5, 6, 7], PLAYS),
            (&[1, 2, 3, 4, 5, 6, 7], RESTS),
            (&[1, 2, 3], PLAYS),
        ],
        Owed::Balance(2, 3),
    ),
    // the first of the tables with the fewest players
    (
        9,
        &[
            (&[1, 2, 3, 4, 5, 6, 7], RESTS),
            (&[1, 2, 3], RESTS),
            (&[1, 2, 3], PLAYS),
        ],
        Owed::Balance(1, 2),
    ),
    // a race is pending
    (
        6,
        &[
            (&[1, 2, 3, 4, 5], RESTS),
            (&[1, 2, 3], RACES),
            (&[1, 2], RESTS),
        ],
        Owed::Nothing,
    ),
    // a table has begun in the round
    (
        6,
        &[
            (&[1, 2, 3, 4, 5], RESTS),
            (&[1, 2, 3], BEGUN),
            (&[1, 2], RESTS),
        ],
        Owed::Nothing,
    ),
    // a table that is not open takes nobody
    (
        2,
        &[(&[1, 2], RESTS), (&[1], RESTS), (&[], RESTS)],
        Owed::Nothing,
    ),
];

/// Gives an order without its draw.
fn without_draw(order: &Option<Event>) -> Owed {
    match order {
        None => Owed::Nothing,
        Some(Event::Balance { from, to }) => Owed::Balance(*from, *to),
        Some(Event::Break { table, .. }) => Owed::Break(*table),
        Some(_) => Owed::Other,
    }
}

/// Makes the book of tables, where hand-for-hand is on if one has begun in the round.
fn book_with_rounds(alloc: Global, seats: u8, tables: &[Table]) -> Option<SeatBook> {
    let mut book = book_of(alloc, seats, tables)?;
    let begun = tables.iter().any(|table| table.1.begun);
    book.set_hands(begun);
    Some(book)
}

/// Tells whether this is owed.
fn owes(alloc: Global, book: &SeatBook, owed: Owed) -> bool {
    match next_order(alloc, book, seed_of(7), 5) {
        Ok(order) => without_draw(&order) == owed,
        Err(_) => false,
    }
}

fn is_owed(alloc: Global, row: &OrderRow) -> bool {
    match book_with_rounds(alloc, row.0, row.1) {
        Some(book) => owes(alloc, &book, row.2),
        None => false,
    }
}

#[test]
fn the_order_that_is_owed(rt: HostRuntime) {
    are_right_in(&rt, rt.alloc(), &ORDERS, is_owed);
}

const ONE: Place = Place { table: 1, seat: 3 };

const TWO: Place = Place { table: 2, seat: 3 };

const THREE: Place = Place { table: 1, seat: 4 };

/// The number of a draw by the seed 7, and the seats that it leaves. Both leave the names bob, ann and cat. The orders
/// of three were made once by a program in another language that knew nothing of floor_director. It gave the 60 orders
/// of break_draw's tests, which `rand`'s own shuffle gave.
static BREAKS: [(u64, &[Place]); 2] = [(5, &[TWO, ONE, THREE]), (6, &[ONE, TWO, THREE])];

/// Tells whether an order is a break with these seats and the names bob, ann and cat.
fn is_break(order: &Option<Event>, places: &[Place]) -> bool {
    match order {
        Some(Event::Break { seats, names, .. }) => {
            seats.items() == places && are_bob_ann_cat(names.items())
        }
        _ => false,
    }
}

/// Tells whether names are bob, ann and cat.
fn are_bob_ann_cat(names: &[Name]) -> bool {
    match names {
        [one, two, three] => {
            one.bytes() == b"bob".as_slice()
                && two.bytes() == b"ann".as_slice()
                && three.bytes() == b"cat".as_slice()
        }
        _ => false,
    }
}

/// Tells whether the draw of this number is a break with these seats.
fn breaks(alloc: Global, book: &SeatBook, k: u64, places: &[Place]) -> bool {
    match next_order(alloc, book, seed_of(7), k) {
        Ok(order) => is_break(&order, places),
        Err(_) => false,
    }
}

fn is_broken(alloc: Global, row: &(u64, &[Place])) -> bool {
    let tables: [Table; 3] = [(&[1, 2], RESTS), (&[1, 2], RESTS), (&[1, 2, 3], RESTS)];
    match book_of(alloc, 9, &tables) {
        Some(book) => breaks(alloc, &book, row.0, row.1),
        None => false,
    }
}

#[test]
fn the_draw_of_a_break(rt: HostRuntime) {
    are_right_in(&rt, rt.alloc(), &BREAKS, is_broken);
}

/// The seed, the number of the draw and the deck. The decks were made by the same program.
static DECKS: [(u64, u64, &[u8]); 2] = [
    (
        7,
        0,
        b"Ks6d3h7c8d6h3d7dAs5hQdQsJc5s7sTc2h2sKdTh3sTd3c8cAc5d9cKh8sAd7hJsQc4hAh9d8h4c6cKc6s9s9h4dJhQh4s2c2dTsJd5c",
    ),
    (
        7,
        33,
        b"Qs9h8dAsKcQh9dTh3h7cJd7d8hKs2cTcJh2sTsQdAd8s4c5h2hJcJsTd2d3c3d5c4d5s4hAc6s6hAhKh8c7s7hQc4s3s6c9sKd5d9c6d",
    ),
];

fn is_drawn(row: &(u64, u64, &[u8])) -> bool {
    let (seed, k, text) = *row;
    match read_row(text) {
        Some(wanted) => deck_of(seed_of(seed), k).cards == wanted.cards,
        None => false,
    }
}

#[test]
fn drawn_decks(rt: HostRuntime) {
    are_right(&rt, &DECKS, is_drawn);
}

/// Acts in a hand of two, a number, and the act of who is due then by the seed 7 and this number. The numbers that are
/// drawn by the seed 7 and by 11, 4, 1, 57, 33, 10 and 2 are 0, 1, 2, 3, 7, 8 and 9, by the same program.
type ActRow = (&'static [Act], u64, Act);

static ACTS: [ActRow; 14] = [
    // 0 goes all-in
    (&[], 11, Act::AllIn),
    // 1 raises by a full raise
    (&[], 4, Act::Raise(400)),
    // 2 raises by a full raise
    (&[], 1, Act::Raise(400)),
    // 3 calls
    (&[], 57, Act::Call),
    // 7 calls
    (&[], 33, Act::Call),
    // 8 folds to a bet
    (&[], 10, Act::Fold),
    // 9 folds to a bet
    (&[], 2, Act::Fold),
    // 3 checks where there is nothing to call
    (&[Act::Call], 57, Act::Check),
    // 8 checks where it may
    (&[Act::Call], 10, Act::Check),
    // 1 raises the big blind
    (&[Act::Call], 4, Act::Raise(400)),
    // 1 bets where nobody has
    (&[Act::Call, Act::Check], 4, Act::Bet(200)),
    // 7 checks where nobody has bet
    (&[Act::Call, Act::Check], 33, Act::Check),
    // 0 goes all-in where nobody has bet
    (&[Act::Call, Act::Check], 11, Act::AllIn),
    // 1 calls where his stack is shorter than a full raise
    (&[Act::Raise(1000)], 4, Act::Call),
];

/// Gives the act of who is due after these acts, by the seed 7 and this number.
fn simulated(hand: &mut Hand, acts: &[Act], k: u64) -> Option<Act> {
    for act in acts {
        let name = hand.due()?;
        hand.act(name, *act).ok()?;
    }
    if hand.is_over() {
        None
    } else {
        Some(sim_act(seed_of(7), k, hand))
    }
}

fn is_simulated(alloc: Global, row: &ActRow) -> bool {
    match deal(alloc, Dealt::Two(3000, 1500), Game::Holdem, Deck::sorted()) {
        Some(mut hand) => simulated(&mut hand, row.0, row.1) == Some(row.2),
        None => false,
    }
}

#[test]
fn simulated_acts(rt: HostRuntime) {
    are_right_in(&rt, rt.alloc(), &ACTS, is_simulated);
}
