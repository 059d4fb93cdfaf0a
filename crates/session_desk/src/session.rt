//! A session.

ghost use Rattle.std.specs.Prelude.{◌≡◌, [], false, IfErr, IfOk, vec_len};
ghost use Rattle.session_desk.specs.Desks.{sights};
ghost use Rattle.session_desk.specs.Inboxes.{waiting};
ghost use Rattle.session_desk.specs.Telling.{IsToldOf, first_reach, reach_of};

use crate::desk::Desk;
use crate::inbox::Inbox;
use crate::told::Told;
use session_lines::ReplyText;
use std::alloc::{AllocError, Global};

/// Why a session is over.
#[derive(Clone, Copy, PartialEq, Eq)]
pub enum SessionEnd {
    /// The link gave its end, and no line is held.
    Ended,
    /// The client said `quit`.
    Quit,
    /// The link gave Idle, and the tournament was stopped.
    Closed,
    /// The link failed as bytes were taken from it.
    LinkRead,
    /// The link failed as bytes were put on it.
    LinkWrite,
    /// Memory ran out before the first line was taken.
    NoMemory,
}

/// What a turn of a session came to.
#[derive(Clone, Copy, PartialEq, Eq)]
pub enum Step {
    /// Bytes were taken.
    Took,
    /// A line was handled, and replied.
    Replied,
    /// The link gave Idle, and the news were told.
    Idled,
    /// The session is over.
    Over(SessionEnd),
}

/// A client's session at a desk.
#[derive(Drop)]
pub struct Session {
    pub(crate) desk: Desk,
    pub(crate) told: Told,
    pub(crate) inbox: Inbox,
    pub(crate) out: Vec<u8>,
    pub(crate) reply: ReplyText,
    /// The client was told no more than the desk has seen.
    pub ghost within: { IsToldOf (sights desk) (reach_of told) },
    /// There is a watch for each table, or room for one.
    pub ghost count: { vec_len told.watches ≡ vec_len desk.tables },
}

/// Takes all that a session needs for so many tables.
fn take_room(alloc: Global, tables: usize) -> Result<(Told, Inbox, ReplyText), AllocError>
    ensures told { IfOk result (λ room. reach_of room.0 ≡ first_reach tables) }
    ensures inbox { IfOk result (λ room. (waiting room.1 ≡ []) × (room.1.ended ≡ false)) }
{
    let told = Told::new(alloc, tables)?;
    let inbox = Inbox::new(alloc)?;
    Ok((told, inbox, ReplyText::new(alloc)?))
}

impl Session {
    /// Makes the session of a client who has said nothing. The desk comes back for want of memory alone.
    pub fn new(alloc: Global, desk: Desk) -> Result<Session, Desk>
        ensures desk { IfOk result (λ session. session.desk ≡ desk) }
        ensures told { IfOk result (λ session. reach_of session.told ≡ first_reach (vec_len desk.tables)) }
        ensures inbox { IfOk result (λ session. (waiting session.inbox ≡ []) × (session.inbox.ended ≡ false)) }
        ensures err { IfErr result (λ back. back ≡ desk) }
    {
        match take_room(alloc, desk.tables.len()) {
            Ok((told, inbox, reply)) => Ok(Session {
                desk,
                told,
                inbox,
                out: Vec::new(alloc),
                reply,
            }),
            Err(_) => Err(desk),
        }
    }

    /// Gives the desk back.
    pub fn parts(self) -> Desk
        ensures { result ≡ self.desk }
    {
        let Session { desk, .. } = self;
        desk
    }
}
