//! Who sits where, and how the tables stand.

use crate::seating::{has_place, has_table, set_status, sit};
use button_blinds::Marks;
use seat_book::{Place, SeatBook, TableStatus};

/// Tells whether so many players sit at a table: by the kept count, by its taken seats and by its slots.
fn is_count(book: &SeatBook, table: u8, count: u8) -> bool {
    if !has_table(book, table) {
        return false;
    }
    let slots = book.table_slots(table);
    book.count(table) == count
        && book.occupied(table).count() == count
        && slots.len() == usize::from(book.seat_count())
        && slots.iter().flatten().count() == usize::from(count)
}

/// Gives the number and the stack of the player who sits in a place, if one does.
fn at(book: &SeatBook, table: u8, seat: u8) -> Option<(u32, u64)> {
    let place = Place { table, seat };
    if !has_place(book, place) {
        return None;
    }
    let (player, _, stack) = book.at(place)?;
    Some((player, stack))
}

/// Seats the players 601 to 610 in the seats of table 1, from the last seat to the first.
fn seat_ten(book: &mut SeatBook) -> bool {
    for step in 0..10u8 {
        let seat = 10 - step;
        let place = Place { table: 1, seat };
        if !sit(book, 600 + u32::from(seat), b"ann", place, 1000) {
            return false;
        }
    }
    true
}

/// Tells whether the players 601 to 610 and 639 have their slots in this order.
fn are_in_order(book: &SeatBook) -> bool {
    let mut next = 601;
    for slot in book.slots() {
        if let Some(seated) = slot {
            if seated.player != next {
                return false;
            }
            next = if next < 610 { next + 1 } else { 639 };
        }
    }
    next == 639
}

/// Seats ten players and one more, and tells whether all is counted and in order.
fn are_seated(book: &mut SeatBook) -> bool {
    let empty = (book.table_count(), book.seat_count()) == (2, 10)
        && (book.fullest(), book.fewest()) == (0, 0);
    let ten = seat_ten(book)
        && is_count(book, 1, 10)
        && is_count(book, 2, 0)
        && (book.fullest(), book.fewest()) == (10, 10);
    let place = Place { table: 2, seat: 10 };
    empty
        && ten
        && sit(book, 639, b"ann", place, 50)
        && (book.fullest(), book.fewest()) == (10, 1)
        && are_in_order(book)
}

#[test]
fn a_table_of_ten(rt: HostRuntime) {
    let seated = match SeatBook::new(rt.alloc(), 2, 10) {
        Ok(mut book) => are_seated(&mut book),
        Err(_) => false,
    };
    assert!(rt; seated);
}

const FIRST: Place = Place { table: 1, seat: 1 };

const LAST: Place = Place { table: 64, seat: 2 };

const NEXT_TO_LAST: Place = Place { table: 64, seat: 1 };

/// Gives the player in the last place this stack, and tells whether one sits there.
fn set_last(book: &mut SeatBook, stack: u64) -> bool {
    if !has_place(book, LAST) || book.at(LAST).is_none() {
        return false;
    }
    book.set_stack(LAST, stack);
    true
}

/// Lifts the player 0 from his seat.
fn lift(book: &mut SeatBook) -> Option<(Place, u64)> {
    if book.find(0).is_none() {
        return None;
    }
    Some(book.lift(0))
}

/// Seats two players, gives one another stack and moves him.
fn is_moved(book: &mut SeatBook) -> bool {
    let seated = sit(book, 0, b"ann", LAST, 300)
        && sit(book, 1, b"ann", NEXT_TO_LAST, 200)
        && book.find(0) == Some(LAST)
        && book.find(2) == None
        && set_last(book, 250)
        && at(book, 64, 2) == Some((0, 250))
        && at(book, 64, 1) == Some((1, 200));
    let lifted = lift(book) == Some((LAST, 250)) && at(book, 64, 2) == None;
    seated
        && lifted
        && sit(book, 0, b"ann", FIRST, 250)
        && at(book, 1, 1) == Some((0, 250))
        && is_count(book, 1, 1)
        && is_count(book, 64, 1)
}

#[test]
fn a_player_moves(rt: HostRuntime) {
    let moved = match SeatBook::new(rt.alloc(), 64, 2) {
        Ok(mut book) => is_moved(&mut book),
        Err(_) => false,
    };
    assert!(rt; moved);
}

/// A table that plays a hand, with a race pending.
const PLAYING: TableStatus = TableStatus {
    marks: Some(Marks {
        button: 7,
        small: 8,
        big: 9,
    }),
    playing: true,
    race: Some(100),
    unit: 25,
    begun: true,
};

/// Sets how a table of two stands, and hand-for-hand on, and tells whether all is as it should be.
fn stand_so(book: &mut SeatBook) -> bool {
    let off = !book.hands();
    book.set_hands(true);
    if !has_table(book, 1) || !has_table(book, 2) || book.status(2) != TableStatus::fresh() {
        return false;
    }
    off && book.hands()
        && set_status(book, 2, PLAYING)
        && has_table(book, 2)
        && book.status(2) == PLAYING
        && has_table(book, 1)
        && book.status(1) == TableStatus::fresh()
}

#[test]
fn how_tables_stand(rt: HostRuntime) {
    let stand = match SeatBook::new(rt.alloc(), 2, 9) {
        Ok(mut book) => stand_so(&mut book),
        Err(_) => false,
    };
    assert!(rt; stand);
}
