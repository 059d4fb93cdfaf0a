//! What a line asks for.

ghost use Rattle.std.specs.Prelude.{◌≡◌};
ghost use Rattle.line_words.specs.Rows.{read_by};
ghost use Rattle.session_lines.specs.Requests.{floor_rows, player_rows, request_of};

use crate::hello::Speaker;
use betting_round::Act;
use dock_rules::Ask;
use floor_text::Name;
use line_words::{LineWords, is};

/// What a line of a session asks for.
#[derive(Clone, Copy)]
pub enum Request {
    /// To be told of the table of a number. Any number of the grammar may stand here.
    Watch(u64),
    /// That a player acts.
    Act {
        /// The number of the table. Any number of the grammar may stand here.
        table: u64,
        /// Who acts: the player who speaks.
        name: Name,
        /// What he does.
        act: Act,
    },
    /// That time is called at the table of a number. Any number of the grammar may stand here.
    Time(u64),
    /// That an order is carried out.
    Order(Ask),
}

/// Reads what the floor asks for by its first word.
#[tactic(auto, unfolding(line_words::specs::Rows::read_fields))]
fn read_for_floor(word: &[u8], line: &mut LineWords<'_>) -> Option<Request>
    ensures { result ≡ read_by floor_rows word.now line.old }
{
    match word {
        _ if is(word, b"watch") => Some(Request::Watch(line.last_field()?)),
        _ if is(word, b"time") => Some(Request::Time(line.last_field()?)),
        _ if is(word, b"enter") => Some(Request::Order(Ask::Enter {
            name: line.field()?,
            table: line.field()?,
            seat: line.last_field()?,
        })),
        _ if is(word, b"reenter") => Some(Request::Order(Ask::Reenter {
            name: line.field()?,
            table: line.field()?,
            seat: line.last_field()?,
        })),
        _ if is(word, b"balance") => Some(Request::Order(Ask::Balance {
            from: line.field()?,
            to: line.last_field()?,
        })),
        _ if is(word, b"break") => Some(Request::Order(Ask::Break {
            table: line.last_field()?,
        })),
        _ if is(word, b"level") => line.is_done().then_some(Request::Order(Ask::Level)),
        _ if is(word, b"race") => Some(Request::Order(Ask::Race {
            table: line.last_field()?,
        })),
        _ if is(word, b"hands") => Some(Request::Order(Ask::Hands(line.last_field()?))),
        _ if is(word, b"round") => line.is_done().then_some(Request::Order(Ask::Round)),
        _ if is(word, b"stop") => line.is_done().then_some(Request::Order(Ask::Stop)),
        _ if is(word, b"next") => line.is_done().then_some(Request::Order(Ask::NextOrder)),
        _ => None,
    }
}

/// Reads what a player asks for by its first word.
#[tactic(auto, unfolding(line_words::specs::Rows::read_fields))]
fn read_for_player(name: Name, word: &[u8], line: &mut LineWords<'_>) -> Option<Request>
    ensures { result ≡ read_by (player_rows name) word.now line.old }
{
    match word {
        _ if is(word, b"watch") => Some(Request::Watch(line.last_field()?)),
        _ if is(word, b"act") => Some(Request::Act {
            table: line.field()?,
            name,
            act: line.act()?,
        }),
        _ => None,
    }
}

/// Reads what a line asks for. `None` exactly where the line is in no grammar of the speaker.
#[tactic(auto, unfolding(crate::specs::Requests::request_of))]
pub(crate) fn read_request(speaker: Speaker, line: &[u8]) -> Option<Request>
    ensures { result ≡ request_of speaker line.now }
{
    let mut words = LineWords::of_line(line);
    let word = words.next_word()?;
    match speaker {
        Speaker::Floor => read_for_floor(word, &mut words),
        Speaker::Player(name) => read_for_player(name, word, &mut words),
    }
}
