//! Players who tie.

ghost use Rattle.std.specs.Prelude.{◌≡◌, ◌<◌, ◌≤◌, length, slice_index_or, drop};
ghost use Rattle.rulebook.specs.Limits.{most_entries};
ghost use Rattle.place_list.specs.declared.bust.Bust.{Bust};
ghost use Rattle.place_list.specs.TiedAtHead.{tied_at_head};

use crate::Bust;
use crate::order::ties;

/// The players of a list in the order of their places who tie, next to one another.
#[derive(Clone, Copy)]
pub(crate) struct Tie {
    /// The index of the first of them.
    pub(crate) first: usize,
    /// How many they are.
    pub(crate) players: usize,
}

/// Tells how many at the head of a list tie with this player.
fn tied_at_head(busts: &[Bust], bust: &Bust) -> usize
    ensures { result ≡ tied_at_head bust.now busts.now }
{
    busts.iter().take_while(|other| ties(other, bust)).count()
}

impl Tie {
    ghost use Rattle.place_list.specs.Orders.{Placed};
    ghost use Rattle.place_list.specs.Ties.{IsTieAt, IsTieBefore};

    /// Gives the players from this index on who tie with the one at it.
    fn at(busts: &[Bust], first: usize) -> Tie
        requires { first < length busts.now }
        ensures first { result.first ≡ first }
        ensures players { (d : Bust)
            → result.players ≡ tied_at_head (slice_index_or busts.now first d) (drop first busts.now) }
    {
        Tie {
            first,
            players: tied_at_head(&busts[first..], &busts[first]),
        }
    }

    /// Gives the players who tie with the one at an index, where `self` is the tie of the one before.
    pub(crate) fn next(self, busts: &[Bust], index: usize) -> Tie
        requires within { index < length busts.now }
        requires most { length busts.now ≤ most_entries }
        requires placed { Placed busts.now }
        requires before { IsTieBefore busts.now self index }
        ensures { IsTieAt busts.now result index }
    {
        if index == self.first + self.players {
            Tie::at(busts, index)
        } else {
            self
        }
    }
}
