//! The written commands of the offline program.

ghost use Rattle.std.specs.Prelude.{◌≡◌, map, string_bytes};
ghost use Rattle.command_lines.specs.Commands.{command_of};

use floor_text::{Name, read_number};

/// A written command of the offline program.
#[derive(Clone, Copy, PartialEq, Eq)]
pub enum Command {
    /// The lines of a tournament are answered, and its report comes behind the answers.
    Replay,
    /// The player of this name is told of the lines of a tournament.
    View(Name),
    /// A tournament of this number is simulated over the plan that the input is.
    Simulate(u64),
}

impl Command {
    /// Reads the words of a command, as they stand. `None` exactly where they are no written command of this program.
    pub fn read(words: &[String]) -> Option<Command>
        ensures { result ≡ command_of (map string_bytes words.now) }
    {
        match words {
            [word] if word.as_str() == "replay" => Some(Command::Replay),
            [word, name] if word.as_str() == "view" => {
                Some(Command::View(Name::read(name.as_bytes())?))
            }
            [word, number] if word.as_str() == "simulate" => {
                Some(Command::Simulate(read_number(number.as_bytes())?))
            }
            _ => None,
        }
    }
}
