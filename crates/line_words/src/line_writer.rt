//! The words of a line that is written.

ghost use Rattle.std.specs.Prelude.{◌≡◌, ◌∷◌, [], ◌++◌, map, OnOk, OnErr};
ghost use Rattle.std.specs.Fmt.{decimal};
ghost use Rattle.std.specs.List.{join_with_byte, flat_map};
ghost use Rattle.card_set.specs.Cards.{row_text};
ghost use Rattle.line_words.specs.Fields.{place_text};
ghost use Rattle.line_words.specs.Words.{line_of_words, Extends};
ghost use Rattle.line_words.specs.Written.{word_text};

use crate::few::COMMA;
use crate::fields::POINT;
use crate::text::{WriteText, push_joined};
use crate::words::SPACE;
use card_set::{CardRow, card_text};
use floor_text::Name;
use seat_book::Place;
use std::alloc::AllocError;

/// A word of a line.
#[derive(Clone, Copy)]
pub enum Word<'a> {
    /// Bytes as they are.
    Text(&'a [u8]),
    /// A number in decimal digits.
    Number(u64),
    /// A row of cards, with nothing between them.
    Cards(&'a CardRow),
    /// Places, with a comma between each two.
    Places(&'a [Place]),
    /// Names, with a comma between each two.
    Names(&'a [Name]),
}

/// Writes a number in decimal digits.
#[inline(never)]
fn push_digits(out: &mut Vec<u8>, number: u64) -> Result<(), AllocError>
    ensures ok { OnOk result (out.new.items ≡ out.old.items ++ decimal number) }
    ensures err { OnErr result (out.new.items ≡ out.old.items) }
{
    out.extend_from_slice(itoa::Buffer::new().format(number).as_bytes())
}

/// Writes a number in decimal digits: at once where it has one, as most seats and tables do.
#[inline(always)]
#[tactic(auto, using(std::proofs::lemmas::Fmt::decimal_digit))]
fn push_number(out: &mut Vec<u8>, number: u64) -> Result<(), AllocError>
    ensures ok { OnOk result (out.new.items ≡ out.old.items ++ decimal number) }
    ensures err { OnErr result (out.new.items ≡ out.old.items) }
{
    if number >= 10 {
        return push_digits(out, number);
    }
    out.push(b'0' + number as u8)?;
    Ok(())
}

fn push_cards(out: &mut Vec<u8>, row: &CardRow) -> Result<(), AllocError>
    ensures ok { OnOk result (out.new.items ≡ out.old.items ++ row_text row.now.cards) }
    ensures kept { Extends out.old.items out.new.items }
{
    for card in &row.cards {
        out.extend_from_slice(&card_text(*card))?;
    }
    Ok(())
}

impl WriteText for u64 {
    ghost text = { decimal };

    fn push_text(&self, out: &mut Vec<u8>) -> Result<(), AllocError> {
        push_number(out, *self)
    }
}

impl WriteText for Place {
    ghost text = { place_text };

    fn push_text(&self, out: &mut Vec<u8>) -> Result<(), AllocError> {
        push_number(out, u64::from(self.table))?;
        out.push(POINT)?;
        push_number(out, u64::from(self.seat))
    }
}

impl WriteText for Name {
    ghost text = { λ name. name };

    fn push_text(&self, out: &mut Vec<u8>) -> Result<(), AllocError> {
        out.extend_from_slice(self.bytes())
    }
}

impl WriteText for Word<'_> {
    ghost text = { word_text };

    #[inline(always)]
    fn push_text(&self, out: &mut Vec<u8>) -> Result<(), AllocError> {
        match *self {
            Word::Text(text) => out.extend_from_slice(text),
            Word::Number(number) => push_number(out, number),
            Word::Cards(row) => push_cards(out, row),
            Word::Places(places) => push_joined(COMMA, places, out),
            Word::Names(names) => push_joined(COMMA, names, out),
        }
    }
}

/// Writes words with one space between each two. Where memory runs out, `out` has something behind what it had.
#[inline(always)]
pub fn push_words(out: &mut Vec<u8>, words: &[Word<'_>]) -> Result<(), AllocError>
    ensures ok { OnOk result (out.new.items ≡ out.old.items ++ join_with_byte 32 (map word_text words.now)) }
    ensures kept { Extends out.old.items out.new.items }
{
    push_joined(SPACE, words, out)
}

/// Writes a line of words with one space between each two, and a line feed. Where memory runs out, `out` has
/// something behind what it had.
#[inline(always)]
pub fn push_line(out: &mut Vec<u8>, words: &[Word<'_>]) -> Result<(), AllocError>
    ensures ok { OnOk result (out.new.items ≡ out.old.items ++ line_of_words (map word_text words.now)) }
    ensures kept { Extends out.old.items out.new.items }
{
    push_words(out, words)?;
    out.push(b'\n')?;
    Ok(())
}

/// Writes lines of words one after another.
pub fn push_lines(out: &mut Vec<u8>, lines: &[&[Word<'_>]]) -> Result<(), AllocError>
    ensures ok { OnOk result (out.new.items ≡ out.old.items
        ++ flat_map (λ line. line_of_words (map word_text line.now)) lines.now) }
    ensures kept { Extends out.old.items out.new.items }
{
    for line in lines {
        push_line(out, line)?;
    }
    Ok(())
}
