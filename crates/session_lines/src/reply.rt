//! Replies, and their text.

ghost use Rattle.std.specs.Prelude.{◌≡◌, ◌+◌, ◌≤◌, ◌<◌, ◌++◌, [], ◌∷◌, IfOk, length};
ghost use Rattle.session_lines.specs.Replies.{refusal_words, reply_words, behind_words, reply_line};
ghost use Rattle.session_lines.specs.Limits.{longest_reply};

use crate::limits::LONGEST_REPLY;
use floor_text::Refusal;
use std::alloc::{AllocError, Global};
use std::marker::Model;

/// What a client is replied.
#[derive(Clone, Copy, PartialEq, Eq)]
pub enum Reply {
    /// It was done.
    Ok,
    /// He has not said hello.
    Who,
    /// It is refused.
    No(Refusal),
    /// No order is owed.
    NoOrder,
    /// Memory ran out, and nothing was done.
    NoMemory,
}

/// Gives what a reply says where its news is behind: nothing where memory ran out for the line itself.
fn behind_words(reply: Reply, behind: bool) -> &'static [u8]
    ensures { result.now ≡ behind_words reply behind }
{
    match reply {
        Reply::NoMemory => b"",
        _ if behind => b" behind",
        _ => b"",
    }
}

/// The text of one reply. It has room for the longest. Contracts see it as its bytes.
#[derive(Drop)]
pub struct ReplyText {
    bytes: Vec<u8>,
}

impl Model for ReplyText {
    ghost use Rattle.std.specs.Prelude.{◌≤◌, ℕ, List, vec_capacity};
    ghost use Rattle.session_lines.specs.Limits.{longest_reply};

    ghost Value = { List ℕ };

    ghost view = { λ text. text.bytes.items };

    ghost invariant = { λ text. longest_reply ≤ vec_capacity text.bytes };
}

impl ReplyText {
    /// Makes an empty text, and takes the room for the longest.
    pub fn new(alloc: Global) -> Result<ReplyText, AllocError>
        ensures { IfOk result (λ text. text ≡ []) }
    {
        Ok(ReplyText {
            bytes: Vec::with_capacity(alloc, LONGEST_REPLY)?,
        })
    }

    /// Gives the bytes of the text.
    pub fn bytes(&self) -> &[u8]
        ensures { result.now ≡ self.now }
    {
        &self.bytes
    }

    fn push(&mut self, piece: &[u8])
        requires { length self.old + length piece.now ≤ longest_reply }
        ensures { self.new ≡ self.old ++ piece.now }
    {
        let _ = self.bytes.extend_from_slice(piece);
    }

    fn push_refusal(&mut self, refusal: Refusal)
        requires { length self.old + length (refusal_words refusal) ≤ longest_reply }
        ensures { self.new ≡ self.old ++ refusal_words refusal }
    {
        self.push(b"no ");
        self.push(itoa::Buffer::new().format(refusal.number()).as_bytes());
        self.push(b" ");
        self.push(refusal.name().as_bytes());
    }

    fn push_words(&mut self, reply: Reply)
        requires { length self.old + length (reply_words reply) ≤ longest_reply }
        ensures { self.new ≡ self.old ++ reply_words reply }
    {
        match reply {
            Reply::Ok => self.push(b"ok"),
            Reply::Who => self.push(b"who"),
            Reply::No(refusal) => self.push_refusal(refusal),
            Reply::NoOrder => self.push(b"none"),
            Reply::NoMemory => self.push(b"memory"),
        }
    }

    fn push_end(&mut self, reply: Reply, behind: bool)
        requires { length self.old + length (behind_words reply behind) < longest_reply }
        ensures { self.new ≡ self.old ++ (behind_words reply behind ++ 10 ∷ []) }
    {
        self.push(behind_words(reply, behind));
        self.push(b"\n");
    }

    /// Writes a reply in place of the one before, with its line feed. Where its news is behind, it says so. It takes no
    /// memory.
    #[tactic(auto, using(crate::proofs::ReplyLengths::words_fit, crate::proofs::ReplyLengths::behind_fit), unfolding(crate::specs::Replies::reply_line))]
    pub fn write(&mut self, reply: Reply, behind: bool)
        ensures { self.new ≡ reply_line reply behind }
    {
        self.bytes.clear();
        self.push(b"= ");
        self.push_words(reply);
        self.push_end(reply, behind);
    }
}
