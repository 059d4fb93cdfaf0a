//! A whole session.

ghost use Rattle.std.specs.Prelude.{◌≡◌, ◌≤◌, [], false, true, vec_len};
ghost use Rattle.floor_text.specs.Outside.{Rose};
ghost use Rattle.session_desk.specs.Desks.{AreInOrder, IsDeskOf};
ghost use Rattle.session_desk.specs.Inboxes.{waiting};
ghost use Rattle.session_desk.specs.Talks.{IsServed, is_by_fault};
ghost use Rattle.session_desk.specs.Telling.{first_reach, reach_of};
ghost use Rattle.session_desk.specs.Turns.{end_after};

use crate::desk::Desk;
use crate::session::{Session, SessionEnd, Step};
use book_dock::BookDock;
use links::Link;
use plan_files::Words;
use std::alloc::Global;
use std::sync::Wait;
use table_dock::{Gate, TableDock};

/// Serves one client until the session is over, and gives the desk back with why it is over. Without the memory that a
/// session needs it is over at once.
pub fn serve_session<R: Wait, L: Link, G: Gate>(
    rt: &R,
    alloc: Global,
    link: &mut L,
    words: &Words,
    book: &BookDock,
    docks: &Vec<TableDock>,
    desk: Desk,
    gate: &G,
) -> (Desk, SessionEnd)
    requires desk { IsDeskOf book.now docks.now.items desk }
    requires docks { AreInOrder docks.now.items }
    ensures desk { IsDeskOf book.now docks.now.items result.0 }
    ensures served { IsServed L.told L.faults words.now (vec_len docks.now) result.1 link.old link.new desk
        result.0 }
    ensures later { L.faults link.old ≤ L.faults link.new }
    ensures cause { is_by_fault result.1 ≡ true → Rose (L.faults link.old) (L.faults link.new) }
{
    match Session::new(alloc, desk) {
        Ok(session) => run_session(rt, link, words, book, docks, gate, session),
        Err(desk) => (desk, SessionEnd::NoMemory),
    }
}

/// Tells why a session is over after a step, if it is.
fn end_of(step: Step) -> Option<SessionEnd>
    ensures { result ≡ end_after step }
{
    match step {
        Step::Over(end) => Some(end),
        Step::Took | Step::Replied | Step::Idled => None,
    }
}

/// Makes turns until the session is over, of a client who has said nothing yet.
fn run_session<R: Wait, L: Link, G: Gate>(
    rt: &R,
    link: &mut L,
    words: &Words,
    book: &BookDock,
    docks: &Vec<TableDock>,
    gate: &G,
    session: Session,
) -> (Desk, SessionEnd)
    requires desk { IsDeskOf book.now docks.now.items session.desk }
    requires docks { AreInOrder docks.now.items }
    requires told { reach_of session.told ≡ first_reach (vec_len session.desk.tables) }
    requires inbox { (waiting session.inbox ≡ []) × (session.inbox.ended ≡ false) }
    ensures desk { IsDeskOf book.now docks.now.items result.0 }
    ensures served { IsServed L.told L.faults words.now (vec_len docks.now) result.1 link.old link.new session.desk
        result.0 }
    ensures later { L.faults link.old ≤ L.faults link.new }
    ensures cause { is_by_fault result.1 ≡ true → Rose (L.faults link.old) (L.faults link.new) }
{
    let mut session = session;
    for _ in rt.forever() {
        let (next, step) = session.turn(rt, link, words, book, docks, gate);
        session = next;
        if let Some(end) = end_of(step) {
            return (session.parts(), end);
        }
    }
    unreachable!()
}
