//! A line that ends in a player's hole cards.

ghost use Rattle.std.specs.Prelude.{◌≡◌, ◌≤◌, ◌∷◌, ◌++◌, [], codes, length, map, OnOk};
ghost use Rattle.std.specs.Fmt.{decimal};
ghost use Rattle.card_set.specs.Cards.{cards_text};
ghost use Rattle.line_words.specs.Words.{Extends, line_of_words};
ghost use Rattle.line_words.specs.Written.{word_text};
ghost use Rattle.table_engine.specs.Starts.{IsLawfulStart};
ghost use Rattle.view_rules.specs.Shown.{hole_places};
ghost use Rattle.view_rules.specs.Seen.{cards_at};

use crate::line::push_cards_line;
use card_set::Game;
use line_words::Word;
use std::alloc::AllocError;
use table_engine::HandStart;

/// Writes a line of a table whose last word is the hole cards of the player in a seat, in the order dealt.
pub(crate) fn push_hole_cards(
    table: u8,
    words: &[Word<'_>],
    start: &HandStart,
    seat: u8,
    out: &mut Vec<u8>,
) -> Result<(), AllocError>
    requires lawful { IsLawfulStart start.now }
    requires words { 1 ≤ length words.now }
    ensures ok { OnOk result (out.new.items ≡ out.old.items ++ (decimal table ++ (codes ": "
        ++ line_of_words (map word_text words.now
        ++ cards_text (cards_at start.now (hole_places start.now seat)) ∷ [])))) }
    ensures kept { Extends out.old.items out.new.items }
{
    let first = start.hole_card(seat, 0);
    let second = start.hole_card(seat, 1);
    match start.game {
        Game::Holdem => push_cards_line(table, words, &[first, second], out),
        Game::Omaha | Game::Hilo => {
            let third = start.hole_card(seat, 2);
            let fourth = start.hole_card(seat, 3);
            push_cards_line(table, words, &[first, second, third, fourth], out)
        }
    }
}
