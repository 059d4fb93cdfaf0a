//! The words of fields that are written.

ghost use Rattle.std.specs.Prelude.{◌≡◌, ◌∷◌, map};
ghost use Rattle.std.specs.Option.{option_to_list};
ghost use Rattle.std.specs.Fmt.{decimal};
ghost use Rattle.line_words.specs.Fields.{game_word, switch_word, act_words};

use betting_round::Act;
use card_set::Game;

/// Gives the word of a game.
pub fn game_word(game: Game) -> &'static [u8]
    ensures { result.now ≡ game_word game }
{
    match game {
        Game::Holdem => b"holdem",
        Game::Omaha => b"omaha",
        Game::Hilo => b"hilo",
    }
}

/// Gives the word for on or off.
pub fn switch_word(on: bool) -> &'static [u8]
    ensures { result.now ≡ switch_word on }
{
    if on { b"on" } else { b"off" }
}

/// Gives the word of an act, and the amount behind it, in chips, where it has one.
pub fn act_word(act: Act) -> (&'static [u8], Option<u64>)
    ensures { act_words act ≡ result.0.now ∷ map decimal (option_to_list result.1) }
{
    match act {
        Act::Fold => (b"fold", None),
        Act::Check => (b"check", None),
        Act::Call => (b"call", None),
        Act::AllIn => (b"allin", None),
        Act::Bet(amount) => (b"bet", Some(amount)),
        Act::Raise(amount) => (b"raise", Some(amount)),
    }
}
