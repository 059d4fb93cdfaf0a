//! What a line means in a session.

ghost use Rattle.std.specs.Prelude.{◌≡◌, option_map};
ghost use Rattle.session_lines.specs.Meanings.{meaning_of};

use crate::hello::{Speaker, read_hello};
use crate::request::{Request, read_request};
use plan_files::Words;

/// What a line means in a session.
#[derive(Clone, Copy)]
pub enum Meaning {
    /// The session ends.
    Quit,
    /// Somebody says hello, with the right word.
    Hello(Speaker),
    /// A line from somebody who has not said hello.
    Stranger,
    /// A line in no grammar.
    Nonsense,
    /// Whoever speaks there asks for something.
    Asks(Request),
}

/// Tells what a line means where `speaker` speaks, or nobody before a right hello. `None` stands for a line of more
/// than 400 bytes.
#[tactic(auto, unfolding(crate::specs::Meanings::meaning_of))]
pub fn read_line(words: &Words, speaker: Option<Speaker>, line: Option<&[u8]>) -> Meaning
    ensures { result ≡ meaning_of words.now speaker (option_map (λ line. line.now) line.entry) }
{
    match (speaker, line) {
        (_, Some(line)) if line == b"quit".as_slice() => Meaning::Quit,
        (None, Some(line)) => match read_hello(words, line) {
            Some(speaker) => Meaning::Hello(speaker),
            None => Meaning::Stranger,
        },
        (None, None) => Meaning::Stranger,
        (Some(speaker), Some(line)) => match read_request(speaker, line) {
            Some(request) => Meaning::Asks(request),
            None => Meaning::Nonsense,
        },
        (Some(_), None) => Meaning::Nonsense,
    }
}
