//! Desks at doors.

ghost use Rattle.session_desk.specs.Desks.{AreInOrder, IsDeskOf};

use super::hall::{Hall, Open};
use crate::client::{FINE, client_of};
use floor_text::Failed;
use links::Door;
use mem_links::{MemDoor, MemLink};
use session_desk::{Desk, work_desk};
use std::process::Abort;
use std::sync::Wait;

/// A door at which two clients come, by their transcripts.
#[derive(Clone, Copy)]
pub struct Knocks<'a> {
    pub clients: [&'a str; 2],
    /// The number of the knock that fails, from 1, or 0.
    pub fails: u64,
    /// How many links come back.
    pub back: u64,
}

/// A door that counts the links that came back.
#[derive(Drop)]
struct Counted {
    door: MemDoor,
    back: u64,
}

impl Door for Counted {
    type L = MemLink;

    ghost told = { λ c. ⟦<MemDoor as Door>⟧.told c.door };

    ghost faults = { λ c. ⟦<MemDoor as Door>⟧.faults c.door };

    fn knock(&mut self) -> Result<Option<MemLink>, Failed> {
        self.door.knock()
    }

    fn back(&mut self, link: MemLink) {
        self.back = self.back.wrapping_add(1);
        self.door.back(link);
    }
}

/// Lets the desk work at a door. Tells whether the door fails where that is told, so many links come back, and all was
/// put.
pub fn attend<R: Wait + Abort>(rt: &R, hall: &Hall, desk: Desk, knocks: Knocks<'_>) -> (Desk, bool)
    requires desk { IsDeskOf hall.now.book hall.now.docks.items desk }
    requires docks { AreInOrder hall.now.docks.items }
    ensures { IsDeskOf hall.now.book hall.now.docks.items result.0 }
{
    let Hall {
        alloc,
        told,
        words,
        book,
        docks,
    } = hall;
    let [first, second] = knocks.clients;
    let (one, one_put) = client_of(rt, *alloc, told.as_str(), first, FINE);
    let (two, two_put) = client_of(rt, *alloc, told.as_str(), second, FINE);
    let links = Vec::from_array(*alloc, [one, two]).expect(rt, "memory");
    let failing = Vec::from_array(*alloc, [knocks.fails]).expect(rt, "memory");
    let door = MemDoor::new(*alloc, links, failing).expect(rt, "memory");
    let mut door = Counted { door, back: 0 };
    let (desk, failed) = work_desk(rt, *alloc, &mut door, words, book, docks, desk, &Open);
    let fine = failed == (knocks.fails > 0)
        && door.back == knocks.back
        && one_put.is_all(rt, *alloc)
        && two_put.is_all(rt, *alloc);
    (desk, fine)
}
