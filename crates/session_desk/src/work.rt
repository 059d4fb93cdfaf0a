//! A desk serves the clients of a door.

ghost use Rattle.std.specs.Prelude.{◌≡◌, ◌≤◌, false, true, vec_len};
ghost use Rattle.floor_text.specs.Outside.{Rose};
ghost use Rattle.history_lock.specs.Passes.{lock_of, seen};
ghost use Rattle.dock_rules.specs.Journals.{tale_of};
ghost use Rattle.book_dock.specs.Docks.{book_id};
ghost use Rattle.session_desk.specs.Desks.{AreInOrder, HasDeskMoved, IsDeskOf, nothing};
ghost use Rattle.session_desk.specs.Works.{HasWorked};

use crate::desk::Desk;
use crate::sessions::serve_session;
use book_dock::BookDock;
use floor_text::Failed;
use links::Door;
use plan_files::Words;
use std::alloc::Global;
use std::sync::Wait;
use table_dock::{Gate, TableDock};

/// Knocks once, and serves the client who came, if one did. Answers whether the door failed.
fn serve_next<R: Wait, D: Door, G: Gate>(
    rt: &R,
    alloc: Global,
    door: &mut D,
    words: &Words,
    book: &BookDock,
    docks: &Vec<TableDock>,
    desk: Desk,
    gate: &G,
) -> (Desk, bool)
    requires desk { IsDeskOf book.now docks.now.items desk }
    requires docks { AreInOrder docks.now.items }
    ensures desk { IsDeskOf book.now docks.now.items result.0 }
    ensures worked { HasWorked D.told D.L.told D.L.faults words.now (vec_len docks.now) door.old door.new desk
        result.0 }
    ensures later { D.faults door.old ≤ D.faults door.new }
    ensures failed { result.1 ≡ true → Rose (D.faults door.old) (D.faults door.new) }
    ensures steady { result.1 ≡ false → D.faults door.new ≡ D.faults door.old }
{
    match door.knock() {
        Ok(Some(mut link)) => {
            let (desk, _end) = serve_session(rt, alloc, &mut link, words, book, docks, desk, gate);
            door.back(link);
            (desk, false)
        }
        Ok(None) => (desk, false),
        Err(Failed) => (desk, true),
    }
}

/// Looks whether the tournament was stopped, where the journal has not as many entries as at the last look, and notes
/// how many it has. Where it has as many it makes no hold.
fn look_if_news<R: Wait>(rt: &R, book: &BookDock, desk: Desk, noted: &mut u64) -> (Desk, bool)
    requires { lock_of desk.book ≡ book_id book.now }
    ensures moved { HasDeskMoved 0 (λ table. 0) nothing desk result.0 }
    ensures stopped { result.1 ≡ true → (tale_of (seen result.0.book)).ended ≡ true }
{
    let mut desk = desk;
    let count = book.news(&mut desk.book);
    if count == *noted {
        return (desk, false);
    }
    *noted = count;
    desk.stopped(rt, book)
}

/// Serves the clients of a door, one after another, until the tournament is stopped. It knocks before it first looks at
/// the journal, and hands each link back to the door once its session is over. Answers whether the door failed. The
/// docks are those of the tables 1, 2 and so on, and the desk's passes are theirs and the book's.
pub fn work_desk<R: Wait, D: Door, G: Gate>(
    rt: &R,
    alloc: Global,
    door: &mut D,
    words: &Words,
    book: &BookDock,
    docks: &Vec<TableDock>,
    desk: Desk,
    gate: &G,
) -> (Desk, bool)
    requires desk { IsDeskOf book.now docks.now.items desk }
    requires docks { AreInOrder docks.now.items }
    ensures desk { IsDeskOf book.now docks.now.items result.0 }

    // The door was knocked, each link that it gave was served and is back, and the desk brought just what the lines
    // brought.
    ensures worked { HasWorked D.told D.L.told D.L.faults words.now (vec_len docks.now) door.old door.new desk
        result.0 }

    // Where the door failed its count rose. Else the count stands as it stood, and the tournament was stopped.
    ensures later { D.faults door.old ≤ D.faults door.new }
    ensures failed { result.1 ≡ true → Rose (D.faults door.old) (D.faults door.new) }
    ensures steady { result.1 ≡ false → D.faults door.new ≡ D.faults door.old }
    ensures stopped { result.1 ≡ false → (tale_of (seen result.0.book)).ended ≡ true }
{
    let mut desk = desk;
    let mut noted = 0;
    for _ in rt.forever() {
        let (served, failed) = serve_next(rt, alloc, door, words, book, docks, desk, gate);
        if failed {
            return (served, true);
        }
        let (looked, stopped) = look_if_news(rt, book, served, &mut noted);
        if stopped {
            return (looked, false);
        }
        desk = looked;
    }
    unreachable!()
}
