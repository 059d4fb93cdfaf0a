//! Words of a line are read as fields.

ghost use Rattle.std.specs.Prelude.{◌≡◌, ℕ, List, Option};
ghost use Rattle.floor_text.specs.Numbers.{number_of};
ghost use Rattle.card_set.specs.Cards.{row_of};
ghost use Rattle.line_words.specs.Fields.{name_of, game_of, switch_of, meaning, act_list, amount_list, place_at, place_of};

use crate::words::{LineWords, is};
use betting_round::Act;
use card_set::{CardRow, Game, read_row};
use floor_text::{Name, read_number};
use rulebook::{MOST_SEATS, MOST_TABLES};
use seat_book::Place;

/// The byte between the numbers of a place.
pub(crate) const POINT: u8 = b'.';

/// What a word of a line may spell.
pub trait Spelled: Sized {
    /// What each word spells, if it does.
    ghost spelled: { List ℕ → Option Self };

    /// Reads a word. `None` exactly where it spells nothing.
    fn read(word: &[u8]) -> Option<Self>
        ensures { result ≡ spelled word.now };
}

impl Spelled for u64 {
    ghost spelled = { number_of };

    fn read(word: &[u8]) -> Option<u64> {
        read_number(word)
    }
}

impl Spelled for Name {
    ghost spelled = { name_of };

    fn read(word: &[u8]) -> Option<Name> {
        Name::read(word)
    }
}

impl Spelled for CardRow {
    ghost spelled = { row_of };

    fn read(word: &[u8]) -> Option<CardRow> {
        read_row(word)
    }
}

impl Spelled for Game {
    ghost spelled = { game_of };

    fn read(word: &[u8]) -> Option<Game> {
        read_game(word)
    }
}

/// Whether something is on.
impl Spelled for bool {
    ghost spelled = { switch_of };

    fn read(word: &[u8]) -> Option<bool> {
        match word {
            _ if is(word, b"on") => Some(true),
            _ if is(word, b"off") => Some(false),
            _ => None,
        }
    }
}

impl Spelled for Place {
    ghost spelled = { place_of };

    #[tactic(auto, unfolding(crate::specs::Fields::place_of))]
    fn read(word: &[u8]) -> Option<Place> {
        let mut numbers = LineWords::between(POINT, word);
        let table = numbers.field()?;
        place_at(table, numbers.last_field()?)
    }
}

/// Reads a game. `None` exactly where the word names none.
fn read_game(word: &[u8]) -> Option<Game>
    ensures { result ≡ game_of word.now }
{
    match word {
        _ if is(word, b"holdem") => Some(Game::Holdem),
        _ if is(word, b"omaha") => Some(Game::Omaha),
        _ if is(word, b"hilo") => Some(Game::Hilo),
        _ => None,
    }
}

/// Gives the place of a table's number and a seat's. `None` exactly where there is none.
fn place_at(table: u64, seat: u64) -> Option<Place>
    ensures { result ≡ place_at table seat }
{
    if (1..=MOST_TABLES).contains(&table) && (1..=MOST_SEATS).contains(&seat) {
        Some(Place {
            table: table as u8,
            seat: seat as u8,
        })
    } else {
        None
    }
}

/// Reads an act without an amount. `None` exactly where the word names none.
pub fn read_act(word: &[u8]) -> Option<Act>
    ensures { result ≡ meaning act_list word.now }
{
    match word {
        _ if is(word, b"fold") => Some(Act::Fold),
        _ if is(word, b"check") => Some(Act::Check),
        _ if is(word, b"call") => Some(Act::Call),
        _ if is(word, b"allin") => Some(Act::AllIn),
        _ => None,
    }
}

/// Reads an act with an amount, in chips. `None` exactly where the word names none.
pub fn read_act_with(word: &[u8], amount: u64) -> Option<Act>
    ensures { result ≡ meaning (amount_list amount) word.now }
{
    match word {
        _ if is(word, b"bet") => Some(Act::Bet(amount)),
        _ if is(word, b"raise") => Some(Act::Raise(amount)),
        _ => None,
    }
}
