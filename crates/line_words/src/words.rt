//! The words of a line that is read.

ghost use Rattle.std.specs.Prelude.{◌≡◌, ◌==◌, Some, None, [], ◌∷◌, take, MatchOption};
ghost use Rattle.std.specs.List.{position};
ghost use Rattle.std.specs.Str.{bytes_eq};
ghost use Rattle.line_words.specs.Words.{pieces_of, words_of_line, no_word};
ghost use Rattle.line_words.specs.Fields.{act_of, amount_if_any, next_by, last_by};

use crate::fields::{Spelled, read_act, read_act_with};
use betting_round::Act;
use floor_text::read_number;
use memchr::memchr;
use std::marker::Model;

/// The byte between two words of a line.
pub(crate) const SPACE: u8 = b' ';

/// How many bytes of a word are looked at before the search is called: most words are shorter, and a call costs more.
const NEAR_BYTES: usize = 8;

/// Tells whether a word is a text. The length of a text is known where its word is looked up, so that the two are
/// compared at once; a call for that would cost more than the bytes do.
#[inline(always)]
pub fn is<const N: usize>(word: &[u8], text: &[u8; N]) -> bool
    ensures { result ≡ bytes_eq word.now text.now }
{
    match <&[u8; N]>::try_from(word) {
        Ok(word) => word == text,
        Err(_) => false,
    }
}

/// Gives the index of the first byte that is this one among the near bytes.
#[inline(always)]
fn near(between: u8, bytes: &[u8]) -> Option<usize>
    ensures { result ≡ position (λ byte. byte == between) (take NEAR_BYTES bytes.now) }
{
    for index in 0..bytes.len().min(NEAR_BYTES) {
        if bytes[index] == between {
            return Some(index);
        }
    }
    None
}

/// Gives the index of the first byte that is this one. The near bytes are looked at here, and the others searched.
#[inline(always)]
fn first_of(between: u8, bytes: &[u8]) -> Option<usize>
    ensures { result ≡ position (λ byte. byte == between) bytes.now }
{
    if let Some(index) = near(between, bytes) {
        return Some(index);
    }
    if bytes.len() <= NEAR_BYTES {
        return None;
    }
    let index = memchr(between, &bytes[NEAR_BYTES..])?;
    Some(index + NEAR_BYTES)
}

/// The words of a line that are still to be read, or the pieces of a word. Contracts see it as their list.
#[derive(Drop)]
pub struct LineWords<'a> {
    between: u8,
    rest: Option<&'a [u8]>,
}

impl<'a> Model for LineWords<'a> {
    ghost use Rattle.std.specs.Prelude.{ℕ, List};
    ghost use Rattle.std.specs.Option.{option_copied};
    ghost use Rattle.line_words.specs.Words.{pieces_of_rest};

    ghost Value = { List (List ℕ) };

    ghost view = { λ words. pieces_of_rest words.between (option_copied words.rest) };
}

impl<'a> LineWords<'a> {
    /// Gives all pieces of bytes between those that are this one, empty pieces too.
    pub fn between(between: u8, bytes: &'a [u8]) -> LineWords<'a>
        ensures { result ≡ pieces_of between bytes.now }
    {
        LineWords {
            between,
            rest: Some(bytes),
        }
    }

    /// Gives all words of a line: the pieces between its spaces.
    pub fn of_line(line: &'a [u8]) -> LineWords<'a>
        ensures { result ≡ words_of_line line.now }
    {
        LineWords::between(SPACE, line)
    }

    /// Tells whether no word is left.
    pub fn is_done(&self) -> bool
        ensures { result ≡ no_word self.now }
    {
        self.rest.is_none()
    }

    /// Takes the next word, or gives `None` where no word is left.
    // It and what takes a word by it are compiled into their callers, so that the rest of a line is not stored between.
    #[inline(always)]
    pub fn next_word(&mut self) -> Option<&'a [u8]>
        ensures { MatchOption result ((self.old ≡ []) × (self.new ≡ [])) (λ word. self.old ≡ word.now ∷ self.new) }
    {
        let rest = self.rest?;
        match first_of(self.between, rest) {
            Some(end) => {
                self.rest = Some(&rest[end + 1..]);
                Some(&rest[..end])
            }
            None => {
                self.rest = None;
                Some(rest)
            }
        }
    }

    /// Takes the next word as a field.
    #[tactic(auto, unfolding(crate::specs::Fields::next_by))]
    #[inline(always)]
    pub fn field<T: Spelled>(&mut self) -> Option<T>
        ensures { MatchOption result (next_by T.spelled self.old ≡ None)
            (λ field. next_by T.spelled self.old ≡ Some (field, self.new)) }
    {
        T::read(self.next_word()?)
    }

    /// Takes the only word that is left as a field.
    #[tactic(auto, unfolding(crate::specs::Fields::last_by))]
    pub fn last_field<T: Spelled>(&mut self) -> Option<T>
        ensures { result ≡ last_by T.spelled self.old }
    {
        let word = self.next_word()?;
        if self.is_done() { T::read(word) } else { None }
    }

    /// Takes all words that are left as an act.
    #[tactic(auto, unfolding(crate::specs::Fields::act_of))]
    #[inline(always)]
    pub fn act(&mut self) -> Option<Act>
        ensures { MatchOption result (act_of self.old ≡ None) (λ act. (act_of self.old ≡ Some act) × (self.new ≡ [])) }
    {
        let word = self.next_word()?;
        let Some(amount) = self.next_word() else {
            return read_act(word);
        };
        let act = read_act_with(word, read_number(amount)?)?;
        if self.is_done() { Some(act) } else { None }
    }

    /// Takes all words that are left as an amount: no word is 0, and one word is a number above 0.
    #[tactic(auto, unfolding(crate::specs::Fields::amount_if_any))]
    pub fn amount_if_any(&mut self) -> Option<u64>
        ensures { result ≡ amount_if_any self.old }
    {
        let Some(word) = self.next_word() else {
            return Some(0);
        };
        let amount = read_number(word)?;
        if self.is_done() && amount > 0 {
            Some(amount)
        } else {
            None
        }
    }
}
