//! The best low hand.

ghost use Rattle.std.specs.Prelude.{◌≡◌, ◌++◌};
ghost use Rattle.card_choices.specs.Choices.{omaha_choices, AreDistinct};
ghost use Rattle.low_rank.specs.Lows.{best_low_of};

use crate::low_ranks::LowRanks;
use crate::low_value::LowValue;
use card_set::Card;

/// Gives the best low of two of four hole cards with three of five board cards: five different ranks, eight or lower,
/// of which the ace counts as 1, as the list of these ranks in falling order. The lesser list is better. `None` exactly
/// where no such cards have a low. No card may come twice.
///
/// Two ranks at most may be of the hole alone, three at most of the board alone, and any that lie in both. So the best
/// low is the five least of the two least of the hole alone, the three least of the board alone, and those of both.
pub fn best_low(hole: [Card; 4], board: [Card; 5]) -> Option<LowValue>
    requires distinct { AreDistinct (hole ++ board) }
    ensures best { result ≡ best_low_of (omaha_choices hole board) }
{
    let hole = LowRanks::of(&hole);
    let board = LowRanks::of(&board);
    let of_hole = hole.minus(board).least(2);
    let of_board = board.minus(hole).least(3);
    let of_either = of_hole.union(of_board);
    of_either.union(hole.meet(board)).five_least()
}
