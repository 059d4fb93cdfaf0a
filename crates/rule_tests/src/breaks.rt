//! Draws, and the seats that a broken table's players take.

use crate::rows::{are_right, are_right_in};
use crate::seating::{RESTS, book_of, has_table};
use balance_rule::names_at;
use break_draw::{DrawFault, DrawKind, check_draw, draw, fill_list, shuffle};
use floor_text::Name;
use seat_book::{Place, SeatBook};
use std::alloc::Global;

/// A seed as the tables below name it.
#[derive(Clone, Copy)]
enum Seed {
    /// 32 bytes that are all the same.
    Equal(u8),
    /// A number as eight bytes, the least first, and 24 zero bytes.
    Number(u64),
}

/// Gives the bytes of a seed.
fn bytes_of(seed: Seed) -> [u8; 32] {
    match seed {
        Seed::Equal(byte) => [byte; 32],
        Seed::Number(number) => {
            let mut bytes = [0; 32];
            bytes[0..8].copy_from_slice(&number.to_le_bytes());
            bytes
        }
    }
}

type OrderRow = (Seed, DrawKind, u64, &'static [u8]);

/// The seed, the kind and the number of a draw, and the order of 1, 2 and so on after it. These were made once, by a
/// program that calls the shuffle of `rand` directly, with `ChaCha20Rng::from_seed` of 32 bytes that it put together
/// byte by byte; it knew nothing of break_draw.
static ORDERS: [OrderRow; 60] = [
    (Seed::Equal(3), DrawKind::Seats, 0, &[1, 2]),
    (Seed::Equal(11), DrawKind::Names, 1, &[2, 1, 3]),
    (Seed::Equal(19), DrawKind::Seats, 2, &[2, 3, 4, 1]),
    (Seed::Equal(27), DrawKind::Names, 17, &[2, 1, 4, 3, 5]),
    (Seed::Equal(35), DrawKind::Seats, 255, &[6, 1, 4, 5, 2, 3]),
    (
        Seed::Equal(43),
        DrawKind::Names,
        256,
        &[2, 4, 1, 5, 3, 6, 7],
    ),
    (
        Seed::Equal(51),
        DrawKind::Seats,
        65535,
        &[7, 1, 6, 5, 3, 8, 4, 2],
    ),
    (
        Seed::Equal(59),
        DrawKind::Names,
        65536,
        &[2, 7, 1, 6, 3, 8, 5, 4, 9],
    ),
    (
        Seed::Equal(67),
        DrawKind::Seats,
        4294967296,
        &[7, 9, 5, 1, 4, 3, 8, 6, 10, 2],
    ),
    (
        Seed::Equal(75),
        DrawKind::Names,
        1152921504606846975,
        &[2, 1],
    ),
    (Seed::Equal(83), DrawKind::Seats, 0, &[2, 3, 1]),
    (Seed::Equal(91), DrawKind::Names, 1, &[1, 2, 3, 4]),
    (Seed::Equal(99), DrawKind::Seats, 2, &[4, 1, 3, 2, 5]),
    (Seed::Equal(107), DrawKind::Names, 17, &[4, 6, 5, 3, 1, 2]),
    (
        Seed::Equal(115),
        DrawKind::Seats,
        255,
        &[4, 2, 3, 1, 6, 5, 7],
    ),
    (
        Seed::Equal(123),
        DrawKind::Names,
        256,
        &[4, 5, 1, 6, 8, 2, 3, 7],
    ),
    (
        Seed::Equal(131),
        DrawKind::Seats,
        65535,
        &[2, 9, 5, 8, 7, 6, 3, 4, 1],
    ),
    (
        Seed::Equal(139),
        DrawKind::Names,
        65536,
        &[1, 5, 2, 6, 4, 8, 10, 3, 7, 9],
    ),
    (Seed::Equal(147), DrawKind::Seats, 4294967296, &[1, 2]),
    (
        Seed::Equal(155),
        DrawKind::Names,
        1152921504606846975,
        &[1, 2, 3],
    ),
    (Seed::Equal(163), DrawKind::Seats, 0, &[3, 1, 2, 4]),
    (Seed::Equal(171), DrawKind::Names, 1, &[5, 4, 2, 1, 3]),
    (Seed::Equal(179), DrawKind::Seats, 2, &[2, 6, 1, 3, 5, 4]),
    (
        Seed::Equal(187),
        DrawKind::Names,
        17,
        &[2, 1, 6, 5, 4, 3, 7],
    ),
    (
        Seed::Equal(195),
        DrawKind::Seats,
        255,
        &[3, 1, 6, 7, 2, 5, 8, 4],
    ),
    (
        Seed::Equal(203),
        DrawKind::Names,
        256,
        &[7, 8, 6, 1, 9, 3, 5, 2, 4],
    ),
    (
        Seed::Equal(211),
        DrawKind::Seats,
        65535,
        &[3, 4, 10, 1, 6, 7, 8, 5, 9, 2],
    ),
    (Seed::Equal(219), DrawKind::Names, 65536, &[2, 1]),
    (Seed::Equal(227), DrawKind::Seats, 4294967296, &[1, 3, 2]),
    (
        Seed::Equal(235),
        DrawKind::Names,
        1152921504606846975,
        &[4, 2, 1, 3],
    ),
    (Seed::Number(0), DrawKind::Seats, 0, &[2, 1, 5, 4, 3, 6]),
    (
        Seed::Number(1),
        DrawKind::Names,
        1000003,
        &[4, 7, 3, 1, 6, 2, 5],
    ),
    (
        Seed::Number(2),
        DrawKind::Seats,
        4000012,
        &[8, 2, 3, 5, 1, 6, 7, 4],
    ),
    (
        Seed::Number(3),
        DrawKind::Names,
        9000027,
        &[8, 2, 9, 5, 3, 1, 6, 7, 4],
    ),
    (
        Seed::Number(4),
        DrawKind::Seats,
        16000048,
        &[2, 9, 5, 4, 10, 1, 7, 3, 8, 6],
    ),
    (Seed::Number(5), DrawKind::Names, 25000075, &[1, 2]),
    (Seed::Number(6), DrawKind::Seats, 36000108, &[2, 1, 3]),
    (Seed::Number(7), DrawKind::Names, 49000147, &[4, 1, 2, 3]),
    (Seed::Number(8), DrawKind::Seats, 64000192, &[3, 5, 1, 2, 4]),
    (
        Seed::Number(9),
        DrawKind::Names,
        81000243,
        &[1, 4, 2, 6, 3, 5],
    ),
    (
        Seed::Number(0),
        DrawKind::Seats,
        100000300,
        &[3, 2, 7, 6, 4, 5, 1],
    ),
    (
        Seed::Number(11),
        DrawKind::Names,
        121000363,
        &[5, 7, 8, 6, 2, 4, 3, 1],
    ),
    (
        Seed::Number(24),
        DrawKind::Seats,
        144000432,
        &[2, 3, 9, 5, 4, 6, 1, 7, 8],
    ),
    (
        Seed::Number(221),
        DrawKind::Names,
        169000507,
        &[10, 2, 5, 7, 6, 9, 8, 1, 4, 3],
    ),
    (Seed::Number(3570), DrawKind::Seats, 196000588, &[2, 1]),
    (Seed::Number(3840), DrawKind::Names, 225000675, &[2, 1, 3]),
    (
        Seed::Number(1048560),
        DrawKind::Seats,
        256000768,
        &[2, 3, 1, 4],
    ),
    (
        Seed::Number(1114112),
        DrawKind::Names,
        289000867,
        &[2, 5, 1, 3, 4],
    ),
    (
        Seed::Number(77309411328),
        DrawKind::Seats,
        324000972,
        &[1, 5, 2, 4, 6, 3],
    ),
    (
        Seed::Number(3458764513820540909),
        DrawKind::Names,
        361001083,
        &[1, 2, 7, 3, 5, 4, 6],
    ),
    (
        Seed::Number(0),
        DrawKind::Seats,
        400001200,
        &[6, 1, 3, 8, 7, 2, 4, 5],
    ),
    (
        Seed::Number(21),
        DrawKind::Names,
        441001323,
        &[8, 4, 1, 9, 5, 2, 7, 6, 3],
    ),
    (
        Seed::Number(44),
        DrawKind::Seats,
        484001452,
        &[1, 2, 9, 10, 7, 6, 8, 4, 5, 3],
    ),
    (Seed::Number(391), DrawKind::Names, 529001587, &[2, 1]),
    (Seed::Number(6120), DrawKind::Seats, 576001728, &[2, 1, 3]),
    (
        Seed::Number(6400),
        DrawKind::Names,
        625001875,
        &[3, 1, 4, 2],
    ),
    (
        Seed::Number(1703910),
        DrawKind::Seats,
        676002028,
        &[4, 1, 5, 3, 2],
    ),
    (
        Seed::Number(1769472),
        DrawKind::Names,
        729002187,
        &[4, 6, 5, 2, 3, 1],
    ),
    (
        Seed::Number(120259084288),
        DrawKind::Seats,
        784002352,
        &[4, 3, 7, 1, 6, 2, 5],
    ),
    (
        Seed::Number(14987979559889010659),
        DrawKind::Names,
        841002523,
        &[1, 4, 8, 6, 2, 3, 7, 5],
    ),
];

/// Tells whether a draw leaves 1, 2 and so on in this order.
fn is_order(row: &OrderRow) -> bool {
    let (seed, kind, number, order) = *row;
    let mut items = [1, 2, 3, 4, 5, 6, 7, 8, 9, 10];
    let len = order.len();
    if len > 10 {
        return false;
    }
    shuffle(&mut items[..len], bytes_of(seed), kind, number);
    &items[..len] == order
}

#[test]
fn shuffles_are_those_of_rand(rt: HostRuntime) {
    are_right(&rt, &ORDERS, is_order);
}

/// Three tables of so many seats, which of them are taken, and the seats that the players of the third take, by table
/// and seat, if there is room.
type FillRow = (u8, [&'static [u8]; 3], Option<&'static [(u8, u8)]>);

static FILLS: [FillRow; 9] = [
    // ties go to the lower number
    (
        6,
        [&[1, 2, 3, 4], &[1, 2, 3, 5, 6], &[2, 4]],
        Some(&[(1, 5), (1, 6)]),
    ),
    // in turn
    (
        9,
        [&[1, 2], &[1, 2], &[5, 7, 9]],
        Some(&[(1, 3), (2, 3), (1, 4)]),
    ),
    // the fewest players first
    (
        10,
        [&[1, 2, 3, 4], &[8], &[1, 2, 3]],
        Some(&[(2, 1), (2, 2), (2, 3)]),
    ),
    // a table that is not open takes nobody
    (9, [&[], &[2, 4], &[1, 3]], Some(&[(2, 1), (2, 3)])),
    // tables of two
    (2, [&[2], &[1], &[1, 2]], Some(&[(1, 1), (2, 2)])),
    // no room, and just enough
    (6, [&[1, 2, 3, 4, 5, 6], &[1, 2, 3, 5, 6], &[2, 4]], None),
    (
        6,
        [&[1, 2, 3, 4, 5, 6], &[1, 2, 3, 5], &[2, 4]],
        Some(&[(2, 4), (2, 6)]),
    ),
    (6, [&[], &[], &[2]], None),
    (2, [&[1, 2], &[1], &[1, 2]], None),
];

/// Makes the book of three tables where no hand is played.
fn three(alloc: Global, seats: u8, taken: [&'static [u8]; 3]) -> Option<SeatBook> {
    let [one, two, three] = taken;
    book_of(alloc, seats, &[(one, RESTS), (two, RESTS), (three, RESTS)])
}

/// Tells whether these are the places, by table and seat.
fn are_places(places: &[Place], wanted: &[(u8, u8)]) -> bool {
    places.len() == wanted.len()
        && places
            .iter()
            .zip(wanted)
            .all(|(place, row)| (place.table, place.seat) == *row)
}

/// Tells whether the players of the third table take these seats, if there is room.
fn is_fill(alloc: Global, book: &SeatBook, wanted: Option<&[(u8, u8)]>) -> bool {
    if !has_table(book, 3) {
        return false;
    }
    match (fill_list(alloc, book, 3), wanted) {
        (Ok(fill), Some(wanted)) => are_places(&fill, wanted),
        (Err(DrawFault::NoRoom), None) => true,
        _ => false,
    }
}

fn is_filled(alloc: Global, row: &FillRow) -> bool {
    let (seats, taken, wanted) = *row;
    match three(alloc, seats, taken) {
        Some(book) => is_fill(alloc, &book, wanted),
        None => false,
    }
}

#[test]
fn the_seats_to_fill(rt: HostRuntime) {
    are_right_in(&rt, rt.alloc(), &FILLS, is_filled);
}

const ONE_FIVE: Place = Place { table: 1, seat: 5 };

const ONE_SIX: Place = Place { table: 1, seat: 6 };

const TWO_FOUR: Place = Place { table: 2, seat: 4 };

/// Seats and names, and whether they are a draw of a table whose players are ann and bob, where the seats to fill are
/// the fifth and the sixth of table 1.
static DRAWS: [(&[Place], [&[u8]; 2], bool); 6] = [
    (&[ONE_SIX, ONE_FIVE], [b"ann", b"bob"], true),
    (&[ONE_FIVE, ONE_SIX], [b"bob", b"ann"], true),
    (&[ONE_SIX, ONE_FIVE], [b"ann", b"ann"], false),
    (&[ONE_SIX, ONE_SIX], [b"ann", b"bob"], false),
    (&[ONE_SIX], [b"ann", b"bob"], false),
    (&[ONE_SIX, TWO_FOUR], [b"bob", b"cat"], false),
];

/// Tells whether these seats and names are or are not a draw of the third table.
fn is_draw(book: &SeatBook, seats: &[Place], names: [&[u8]; 2], right: bool) -> bool {
    let fill = [ONE_FIVE, ONE_SIX];
    match (Name::read(names[0]), Name::read(names[1])) {
        (Some(first), Some(second)) => {
            has_table(book, 3) && check_draw(book, 3, &fill, seats, &[first, second]) == right
        }
        _ => false,
    }
}

/// Makes the book of a table with two players, ann and bob, and of two more with two empty seats together.
fn two_to_seat(alloc: Global) -> Option<SeatBook> {
    three(alloc, 6, [&[1, 2, 3, 4], &[1, 2, 3, 5, 6], &[2, 4]])
}

fn is_drawn(alloc: Global, row: &(&[Place], [&[u8]; 2], bool)) -> bool {
    let (seats, names, right) = *row;
    match two_to_seat(alloc) {
        Some(book) => is_draw(&book, seats, names, right),
        None => false,
    }
}

#[test]
fn right_and_wrong_draws(rt: HostRuntime) {
    are_right_in(&rt, rt.alloc(), &DRAWS, is_drawn);
}

/// Tells whether a draw by the seed of this byte passes its check.
fn passes(alloc: Global, book: &SeatBook, fill: &Vec<Place>, names: &Vec<Name>, byte: u8) -> bool {
    if !has_table(book, 3) {
        return false;
    }
    match draw(alloc, [byte; 32], u64::from(byte), fill, names) {
        Ok((seats, players)) => check_draw(book, 3, fill, &seats, &players),
        Err(_) => false,
    }
}

/// Tells whether draws of the third table pass their check.
fn all_pass(alloc: Global, book: &SeatBook) -> Option<bool> {
    if !has_table(book, 3) {
        return None;
    }
    let names = names_at(alloc, book, 3).ok()?;
    let fill = fill_list(alloc, book, 3).ok()?;
    let mut all = true;
    for byte in 0..20u8 {
        all = all && passes(alloc, book, &fill, &names, byte);
    }
    Some(all)
}

#[test]
fn a_draw_passes_its_check(rt: HostRuntime) {
    let alloc = rt.alloc();
    let passed = match two_to_seat(alloc) {
        Some(book) => all_pass(alloc, &book),
        None => None,
    };
    assert!(rt; passed == Some(true));
}
