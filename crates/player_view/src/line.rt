//! Lines of the floor and of a table, word by word.

ghost use Rattle.std.specs.Prelude.{◌≡◌, ◌≤◌, ◌∷◌, ◌++◌, [], codes, length, map, OnOk};
ghost use Rattle.std.specs.Fmt.{decimal};
ghost use Rattle.card_set.specs.Cards.{cards_text};
ghost use Rattle.line_words.specs.Words.{line_of_words, Extends};
ghost use Rattle.line_words.specs.Written.{word_text};

use card_set::{Card, card_text};
use line_words::{Word, WriteText, push_line, push_words};
use std::alloc::AllocError;

/// Writes what lines of the floor begin with.
pub(crate) fn push_floor(out: &mut Vec<u8>) -> Result<(), AllocError>
    ensures ok { OnOk result (out.new.items ≡ out.old.items ++ codes "# ") }
    ensures kept { Extends out.old.items out.new.items }
{
    out.extend_from_slice(b"# ")
}

/// Writes a line of the floor.
#[inline(always)]
pub(crate) fn push_floor_line(words: &[Word<'_>], out: &mut Vec<u8>) -> Result<(), AllocError>
    ensures ok { OnOk result (out.new.items
        ≡ out.old.items ++ (codes "# " ++ line_of_words (map word_text words.now))) }
    ensures kept { Extends out.old.items out.new.items }
{
    push_floor(out)?;
    push_line(out, words)
}

/// Writes what lines of a table begin with.
#[inline(always)]
fn push_table(table: u8, out: &mut Vec<u8>) -> Result<(), AllocError>
    ensures ok { OnOk result (out.new.items ≡ out.old.items ++ (decimal table ++ codes ": ")) }
    ensures kept { Extends out.old.items out.new.items }
{
    u64::from(table).push_text(out)?;
    out.push(b':')?;
    out.push(b' ')?;
    Ok(())
}

/// Writes a line of a table.
#[inline(always)]
pub(crate) fn push_table_line(
    table: u8,
    words: &[Word<'_>],
    out: &mut Vec<u8>,
) -> Result<(), AllocError>
    ensures ok { OnOk result (out.new.items
        ≡ out.old.items ++ (decimal table ++ (codes ": " ++ line_of_words (map word_text words.now)))) }
    ensures kept { Extends out.old.items out.new.items }
{
    push_table(table, out)?;
    push_line(out, words)
}

/// Writes cards, with nothing between them.
fn push_cards(cards: &[Card], out: &mut Vec<u8>) -> Result<(), AllocError>
    ensures ok { OnOk result (out.new.items ≡ out.old.items ++ cards_text cards.now) }
    ensures kept { Extends out.old.items out.new.items }
{
    for card in cards {
        out.extend_from_slice(&card_text(*card))?;
    }
    Ok(())
}

/// Writes a line of a table whose last word is cards.
pub(crate) fn push_cards_line(
    table: u8,
    words: &[Word<'_>],
    cards: &[Card],
    out: &mut Vec<u8>,
) -> Result<(), AllocError>
    requires { 1 ≤ length words.now }
    ensures ok { OnOk result (out.new.items ≡ out.old.items ++ (decimal table ++ (codes ": "
        ++ line_of_words (map word_text words.now ++ cards_text cards.now ∷ [])))) }
    ensures kept { Extends out.old.items out.new.items }
{
    push_table(table, out)?;
    push_words(out, words)?;
    out.push(b' ')?;
    push_cards(cards, out)?;
    out.push(b'\n')?;
    Ok(())
}
