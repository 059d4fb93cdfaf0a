//! The letters of cards.

ghost use Rattle.std.specs.Prelude.{◌≡◌, ◌==◌, None, Some, cond, slice_index};
ghost use Rattle.card_set.specs.declared.letters.TheConstants.{NONE};
ghost use Rattle.card_set.specs.Cards.{rank_of, suit_of};

/// The letters of the ranks, from two to the ace.
pub(crate) const RANKS: [u8; 13] = *b"23456789TJQKA";

/// The letters of the suits: clubs, diamonds, hearts and spades.
pub(crate) const SUITS: [u8; 4] = *b"cdhs";

/// What a table has for a byte that is none of its letters.
const NONE: u8 = 255;

/// Writes what a table has for each byte, sixteen to a row. `_` is `NONE`. A table takes the same way for each letter;
/// a search takes another for each, which the processor cannot foresee where the cards are shuffled.
macro_rules! by_bytes {
    ($($number:tt)*) => { [$(at_byte!($number)),*] };
}

macro_rules! at_byte {
    (_) => { NONE };
    ($number:literal) => { $number };
}

/// For each byte the rank whose letter it is.
const RANKS_BY_BYTE: [u8; 256] = by_bytes! {
    _ _ _ _ _ _ _ _ _ _ _ _ _ _ _ _
    _ _ _ _ _ _ _ _ _ _ _ _ _ _ _ _
    _ _ _ _ _ _ _ _ _ _ _ _ _ _ _ _
    _ _ 2 3 4 5 6 7 8 9 _ _ _ _ _ _
    _ 14 _ _ _ _ _ _ _ _ 11 13 _ _ _ _
    _ 12 _ _ 10 _ _ _ _ _ _ _ _ _ _ _
    _ _ _ _ _ _ _ _ _ _ _ _ _ _ _ _
    _ _ _ _ _ _ _ _ _ _ _ _ _ _ _ _
    _ _ _ _ _ _ _ _ _ _ _ _ _ _ _ _
    _ _ _ _ _ _ _ _ _ _ _ _ _ _ _ _
    _ _ _ _ _ _ _ _ _ _ _ _ _ _ _ _
    _ _ _ _ _ _ _ _ _ _ _ _ _ _ _ _
    _ _ _ _ _ _ _ _ _ _ _ _ _ _ _ _
    _ _ _ _ _ _ _ _ _ _ _ _ _ _ _ _
    _ _ _ _ _ _ _ _ _ _ _ _ _ _ _ _
    _ _ _ _ _ _ _ _ _ _ _ _ _ _ _ _
};

/// For each byte the suit whose letter it is.
const SUITS_BY_BYTE: [u8; 256] = by_bytes! {
    _ _ _ _ _ _ _ _ _ _ _ _ _ _ _ _
    _ _ _ _ _ _ _ _ _ _ _ _ _ _ _ _
    _ _ _ _ _ _ _ _ _ _ _ _ _ _ _ _
    _ _ _ _ _ _ _ _ _ _ _ _ _ _ _ _
    _ _ _ _ _ _ _ _ _ _ _ _ _ _ _ _
    _ _ _ _ _ _ _ _ _ _ _ _ _ _ _ _
    _ _ _ 0 1 _ _ _ 2 _ _ _ _ _ _ _
    _ _ _ 3 _ _ _ _ _ _ _ _ _ _ _ _
    _ _ _ _ _ _ _ _ _ _ _ _ _ _ _ _
    _ _ _ _ _ _ _ _ _ _ _ _ _ _ _ _
    _ _ _ _ _ _ _ _ _ _ _ _ _ _ _ _
    _ _ _ _ _ _ _ _ _ _ _ _ _ _ _ _
    _ _ _ _ _ _ _ _ _ _ _ _ _ _ _ _
    _ _ _ _ _ _ _ _ _ _ _ _ _ _ _ _
    _ _ _ _ _ _ _ _ _ _ _ _ _ _ _ _
    _ _ _ _ _ _ _ _ _ _ _ _ _ _ _ _
};

/// Tells what a table has for a byte.
#[inline(always)]
fn looked_up(table: &[u8; 256], letter: u8) -> Option<u8>
    ensures { result ≡ cond (slice_index table.now letter == NONE) None (Some (slice_index table.now letter)) }
{
    match table[usize::from(letter)] {
        NONE => None,
        index => Some(index),
    }
}

/// Gives the rank that a letter spells.
#[tactic(auto, using(crate::proofs::LetterTables::rank_looked_up))]
pub(crate) fn rank_of(letter: u8) -> Option<u8>
    ensures { result ≡ rank_of letter }
{
    looked_up(&RANKS_BY_BYTE, letter)
}

/// Gives the suit that a letter spells.
#[tactic(auto, using(crate::proofs::LetterTables::suit_looked_up))]
pub(crate) fn suit_of(letter: u8) -> Option<u8>
    ensures { result ≡ suit_of letter }
{
    looked_up(&SUITS_BY_BYTE, letter)
}
