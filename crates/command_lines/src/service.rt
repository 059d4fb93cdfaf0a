//! The written command of the server.

ghost use Rattle.std.specs.Prelude.{◌≡◌, ◌<◌, ◌≤◌, IfSome, map, string_bytes};
ghost use Rattle.command_lines.specs.Commands.{number_up_to, service_of};
ghost use Rattle.command_lines.specs.Limits.{most_desks};

use crate::limits::{LAST_PORT, MOST_DESKS};
use floor_text::read_number;

/// What the server is asked for: so many desks, each with a door. The first door is at the port, and each other one at
/// the port behind that of the door before it.
#[derive(Clone, Copy, PartialEq, Eq)]
pub struct Service {
    /// The port of the first door.
    pub port: u16,
    /// How many desks there are.
    pub desks: u32,
}

/// Reads a number from 1 to a greatest one, as a line has it. `None` exactly where the word is none.
fn read_up_to(most: u64, word: &[u8]) -> Option<u64>
    ensures number { result ≡ number_up_to most word.now }
    ensures between { IfSome result (λ number. (1 ≤ number) × (number ≤ most)) }
{
    let number = read_number(word)?;
    if 1 <= number && number <= most {
        Some(number)
    } else {
        None
    }
}

impl Service {
    /// Reads the words of a command, as they stand. `None` exactly where they are no written command of the server.
    pub fn read(words: &[String]) -> Option<Service>
        ensures read { result ≡ service_of (map string_bytes words.now) }
        ensures desks { IfSome result (λ service. (0 < service.desks) × (service.desks ≤ most_desks)) }
    {
        match words {
            [word, port, desks] if word.as_str() == "serve" => Some(Service {
                port: read_up_to(LAST_PORT, port.as_bytes())? as u16,
                desks: read_up_to(MOST_DESKS, desks.as_bytes())? as u32,
            }),
            _ => None,
        }
    }
}
