//! The plan of the runs, and what is served of it.

use crate::sessions::SEED;
use card_set::card_text;
use floor_director::deck_of;
use std::alloc::Global;
use std::process::Abort;

/// One table of two seats.
pub const PLAN: &str =
    "game = \"holdem\"\ntables = 1\nseats = 2\nstack = 1000\nbuyin = 100\nlate = 1\n\
    blinds = [[100, 200, 100]]\nshares = [700, 300]\nfloor_word = \"f\"\n[words]\nann = \"a\"\n";

/// The lines of that plan, their end, and the entries of both players.
pub const ENTERED: &[u8] = b"game holdem\ntables 1\nseats 2\nstack 1000\nbuyin 100\nlate 1\n\
    blinds 100 200 100\nshares 700 300\ngo\nenter ann 1 1\nenter bob 1 2\n";

/// The stop, and the report where both players have what they came with.
pub const UNPLAYED: &[u8] =
    b"stop\n* report\n* level 1\n* sold 2000\n* removed 0\n* added 0\n* rest 2000\n* play 0\n\
    * seat 1 1 ann 1000\n* seat 1 2 bob 1000\n* end\n";

/// Writes the line of a hand that begins at table 1, with the deck that is drawn as the event of this number.
pub fn begin_line(rt: &impl Abort, alloc: Global, number: u64) -> Vec<u8> {
    let mut line = b"begin 1 ".to_vec(alloc).expect(rt, "memory");
    for card in deck_of(SEED, number).cards.as_slice() {
        line.extend_from_slice(&card_text(*card))
            .expect(rt, "memory");
    }
    line.push(b'\n').expect(rt, "memory");
    line
}

/// Writes the text that is served where the first hand has begun and then the tournament is stopped.
pub fn text_unplayed(rt: &impl Abort, alloc: Global) -> Vec<u8> {
    let mut text = ENTERED.to_vec(alloc).expect(rt, "memory");
    text.extend_from_slice(&begin_line(rt, alloc, 11))
        .expect(rt, "memory");
    text.extend_from_slice(UNPLAYED).expect(rt, "memory");
    text
}
