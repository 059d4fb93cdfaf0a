//! Sessions by their transcripts: whole ones, and one that goes on while others are served.

ghost use Rattle.std.specs.Prelude.{◌≡◌};
ghost use Rattle.session_desk.specs.Desks.{AreInOrder, IsDeskOf};

use super::hall::{Hall, Open};
use crate::client::{FINE, Fault, Put, client_of, text_of};
use mem_links::MemLink;
use session_desk::{Desk, Session, SessionEnd, Step, serve_session};
use std::alloc::{AllocError, Global};
use std::process::Abort;
use std::sync::Wait;

/// Serves the client of a transcript to the end of his session. Tells whether it is over so, and all was put.
pub fn serve<R: Wait + Abort>(
    rt: &R,
    hall: &Hall,
    desk: Desk,
    wanted: SessionEnd,
    fault: Fault,
    transcript: &str,
) -> (Desk, bool)
    requires desk { IsDeskOf hall.now.book hall.now.docks.items desk }
    requires docks { AreInOrder hall.now.docks.items }
    ensures { IsDeskOf hall.now.book hall.now.docks.items result.0 }
{
    let Hall {
        alloc,
        told,
        words,
        book,
        docks,
    } = hall;
    let (mut link, put) = client_of(rt, *alloc, told.as_str(), transcript, fault);
    let (desk, end) = serve_session(rt, *alloc, &mut link, words, book, docks, desk, &Open);
    (desk, end == wanted && put.is_all(rt, *alloc))
}

/// Writes the transcript of somebody who asks by a line and is told these news, off a row that has his words, the line
/// and its reply: `ann a: act 1 fold = ok`.
fn asking(alloc: Global, news: &str, row: &str) -> Result<String, AllocError> {
    let (who, asks) = row.split_once(": ").unwrap_or(("", row));
    let (line, reply) = asks.split_once(" = ").unwrap_or((asks, ""));
    format!(in alloc; "> hello {who}\n= ok\n> {line}\n{news}= {reply}\n.\n")
}

/// Lets one after another ask by a line in a session of his own, each as his row tells. Tells whether all are replied so.
pub fn ask_each<R: Wait + Abort>(
    rt: &R,
    hall: &Hall,
    desk: Desk,
    news: &str,
    rows: &str,
) -> (Desk, bool)
    requires desk { IsDeskOf hall.now.book hall.now.docks.items desk }
    requires docks { AreInOrder hall.now.docks.items }
    ensures { IsDeskOf hall.now.book hall.now.docks.items result.0 }
{
    let mut desk = desk;
    let mut all = true;
    for row in rows.lines() {
        let text = asking(hall.alloc, news, row).expect(rt, "memory");
        let (next, fine) = serve(rt, hall, desk, SessionEnd::Ended, FINE, text.as_str());
        desk = next;
        all &= fine;
    }
    (desk, all)
}

/// A client's session that goes on while others are served.
#[derive(Drop)]
pub struct Held {
    pub session: Session,
    link: MemLink,
    put: Put,
}

impl Held {
    /// Gives the desk back.
    pub fn desk(self) -> Desk
        ensures { result ≡ self.session.desk }
    {
        self.session.parts()
    }
}

/// Begins the session of the client of a transcript.
pub fn hold(rt: &impl Abort, hall: &Hall, desk: Desk, transcript: &str) -> Held
    ensures { result.session.desk ≡ desk }
{
    let (link, put) = client_of(rt, hall.alloc, hall.told.as_str(), transcript, FINE);
    let Ok(session) = Session::new(hall.alloc, desk) else {
        panic!(rt; "memory")
    };
    Held { session, link, put }
}

/// Makes one turn of a session.
fn step<R: Wait>(rt: &R, hall: &Hall, session: Session, link: &mut MemLink) -> (Session, Step)
    requires desk { IsDeskOf hall.now.book hall.now.docks.items session.desk }
    requires docks { AreInOrder hall.now.docks.items }
    ensures { IsDeskOf hall.now.book hall.now.docks.items result.0.desk }
{
    session.turn(rt, link, &hall.words, &hall.book, &hall.docks, &Open)
}

/// Makes a turn. Tells whether it comes to this, and puts what is in the transcript.
pub fn turn<R: Wait + Abort>(
    rt: &R,
    hall: &Hall,
    held: Held,
    wanted: Step,
    transcript: &str,
) -> (Held, bool)
    requires desk { IsDeskOf hall.now.book hall.now.docks.items held.session.desk }
    requires docks { AreInOrder hall.now.docks.items }
    ensures { IsDeskOf hall.now.book hall.now.docks.items result.0.session.desk }
{
    let Held {
        session,
        mut link,
        mut put,
    } = held;
    let (session, come) = step(rt, hall, session, &mut link);
    put.want(
        rt,
        &text_of(rt, hall.alloc, hall.told.as_str(), transcript, 1),
    );
    let fine = come == wanted && put.is_all(rt, hall.alloc);
    (Held { session, link, put }, fine)
}

/// Makes turns until the link is idle or the session is over. Tells whether the last turn came to this, and where that
/// is an end, whether all was put.
pub fn go_on<R: Wait + Abort>(rt: &R, hall: &Hall, held: Held, wanted: Step) -> (Held, bool)
    requires desk { IsDeskOf hall.now.book hall.now.docks.items held.session.desk }
    requires docks { AreInOrder hall.now.docks.items }
    ensures { IsDeskOf hall.now.book hall.now.docks.items result.0.session.desk }
{
    let Held {
        session,
        mut link,
        put,
    } = held;
    let mut session = session;
    let mut come = Step::Took;
    for _ in 0..100u32 {
        let (next, now) = step(rt, hall, session, &mut link);
        session = next;
        come = now;
        if matches!(come, Step::Idled | Step::Over(_)) {
            break;
        }
    }
    let fine = come == wanted && (come == Step::Idled || put.is_all(rt, hall.alloc));
    (Held { session, link, put }, fine)
}
