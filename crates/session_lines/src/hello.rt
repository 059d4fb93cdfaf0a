//! Who speaks in a session.

ghost use Rattle.std.specs.Prelude.{◌≡◌};
ghost use Rattle.session_lines.specs.Hellos.{hello_of, speaker_named};

use floor_text::Name;
use line_words::{LineWords, is};
use plan_files::Words;

/// Who speaks in a session.
#[derive(Clone, Copy, PartialEq, Eq)]
pub enum Speaker {
    /// The floor.
    Floor,
    /// The player of a name.
    Player(Name),
}

/// Finds who says hello by a name and a word. `None` exactly where it is not the word of that name.
fn speaker_named(words: &Words, name: &[u8], word: &[u8]) -> Option<Speaker>
    ensures { result ≡ speaker_named words.now name.now word.now }
{
    if is(name, b"floor") {
        return (word == words.floor()).then_some(Speaker::Floor);
    }
    let name = Name::read(name)?;
    if words.word(name)? == word {
        Some(Speaker::Player(name))
    } else {
        None
    }
}

/// Reads a line as a hello. `None` exactly where it is none, or its word is not that of its name.
#[tactic(auto, unfolding(crate::specs::Hellos::hello_of))]
pub(crate) fn read_hello(words: &Words, line: &[u8]) -> Option<Speaker>
    ensures { result ≡ hello_of words.now line.now }
{
    let mut pieces = LineWords::of_line(line);
    if !is(pieces.next_word()?, b"hello") {
        return None;
    }
    let name = pieces.next_word()?;
    let word = pieces.next_word()?;
    if pieces.is_done() {
        speaker_named(words, name, word)
    } else {
        None
    }
}
