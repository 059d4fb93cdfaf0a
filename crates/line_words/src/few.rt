//! Items that stand in a line, one word each, without memory of the heap.

ghost use Rattle.std.specs.Prelude.{◌≡◌, ◌≤◌, ◌<◌, ◌==◌, [], ◌∷◌, ◌++◌, length, IfOk};
ghost use Rattle.line_words.specs.Fields.{few_of, members_of};
ghost use Rattle.line_words.specs.Limits.{most_members};

use crate::fields::Spelled;
use crate::limits::MOST_MEMBERS;
use crate::words::LineWords;
use floor_text::List;
use std::alloc::{AllocError, Global};
use std::marker::Model;

/// The byte between two members of a list.
pub(crate) const COMMA: u8 = b',';

/// At most `MOST` items, with at least one. Contracts see it as the list of its items.
#[derive(Drop)]
pub struct Few<T, const MOST: usize> {
    items: [T; MOST],
    count: usize,
}

impl<T, const MOST: usize> Model for Few<T, MOST> {
    ghost use Rattle.std.specs.Prelude.{◌≤◌, List, length, take};

    ghost Value = { List T };

    ghost view = { λ few. take few.count few.items };

    ghost invariant = { λ few. few.count ≤ length few.items };
}

impl<T: Copy, const MOST: usize> Few<T, MOST> {
    fn of(first: T) -> Few<T, MOST>
        requires { 1 ≤ MOST }
        ensures { result ≡ first ∷ [] }
    {
        Few {
            items: [first; MOST],
            count: 1,
        }
    }

    fn is_full(&self) -> bool
        ensures { result ≡ (length self.now == MOST) }
    {
        self.count == MOST
    }

    fn push(&mut self, item: T)
        requires { length self.old < MOST }
        ensures { self.new ≡ self.old ++ item ∷ [] }
    {
        self.items[self.count] = item;
        self.count += 1;
    }

    /// Gives the items as a list of its own.
    pub fn to_list(&self, alloc: Global) -> Result<List<T>, AllocError>
        ensures { IfOk result (λ list. list ≡ self.now) }
    {
        Ok(List::from_vec(Vec::from_slice(alloc, &self.items[..self.count])?))
    }
}

/// Reads all words that are left as items. `None` exactly where they are not 1 to `MOST` of them.
pub fn read_few<T: Spelled + Copy, const MOST: usize>(
    line: &mut LineWords<'_>,
) -> Option<Few<T, MOST>>
    requires { 1 ≤ MOST }
    ensures { result ≡ few_of MOST T.spelled line.old }
{
    let mut few = Few::of(T::read(line.next_word()?)?);
    while let Some(word) = line.next_word() {
        if few.is_full() {
            return None;
        }
        few.push(T::read(word)?);
    }
    Some(few)
}

/// The members of a list.
impl<T: Spelled + Copy> Spelled for Few<T, MOST_MEMBERS> {
    ghost spelled = { members_of most_members T.spelled };

    #[tactic(auto, unfolding(crate::specs::Fields::members_of))]
    fn read(word: &[u8]) -> Option<Few<T, MOST_MEMBERS>> {
        read_few(&mut LineWords::between(COMMA, word))
    }
}
