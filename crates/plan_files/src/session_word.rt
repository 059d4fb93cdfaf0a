//! Session words.

ghost use Rattle.std.specs.Prelude.{◌≡◌, true, IfOk};
ghost use Rattle.std.specs.Char.{is_ascii_alphanumeric};
ghost use Rattle.std.specs.List.{list_all};
ghost use Rattle.plan_files.specs.SessionWords.{is_session_word};

use crate::limits::LONGEST_SESSION_WORD;
use std::alloc::{AllocError, Global};
use std::marker::Model;

/// A word that somebody has to say who opens a session: 1 to 32 letters and digits. Contracts see it as its bytes.
#[derive(Drop)]
pub struct SessionWord {
    bytes: Vec<u8>,
}

impl Model for SessionWord {
    ghost use Rattle.std.specs.Prelude.{ℕ, List, IsTrue};
    ghost use Rattle.plan_files.specs.SessionWords.{is_session_word};

    ghost Value = { List ℕ };

    ghost view = { λ word. word.bytes.items };

    ghost invariant = { λ word. IsTrue (is_session_word word.bytes.items) };
}

/// Tells whether all bytes are letters and digits.
fn are_word_bytes(bytes: &[u8]) -> bool
    ensures { result ≡ list_all is_ascii_alphanumeric bytes.now }
{
    bytes.iter().all(|byte| byte.is_ascii_alphanumeric())
}

/// Tells whether bytes are a session word.
pub fn is_session_word(bytes: &[u8]) -> bool
    ensures { result ≡ is_session_word bytes.now }
{
    (1..=LONGEST_SESSION_WORD).contains(&bytes.len()) && are_word_bytes(bytes)
}

impl SessionWord {
    ghost use Rattle.std.specs.Prelude.{IsTrue};

    /// Copies the text of a session word.
    pub(crate) fn copy_of(alloc: Global, text: &[u8]) -> Result<SessionWord, AllocError>
        requires { is_session_word text.now ≡ true }
        ensures { IfOk result (λ word. word ≡ text.now) }
    {
        Ok(SessionWord {
            bytes: Vec::from_slice(alloc, text)?,
        })
    }

    /// Gives the word's bytes.
    pub fn bytes(&self) -> &[u8]
        ensures same { result.now ≡ self.now }
        ensures word { IsTrue (is_session_word self.now) }
    {
        &self.bytes
    }
}
