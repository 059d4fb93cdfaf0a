//! The best high hand.

ghost use Rattle.std.specs.Prelude.{◌≡◌, ◌++◌};
ghost use Rattle.card_choices.specs.Choices.{holdem_choices, omaha_choices, AreDistinct};
ghost use Rattle.hand_rank.specs.BestHigh.{best_high};

use crate::board::Board;
use crate::held::Held;
use crate::high_value::HighValue;
use card_choices::pairs;
use card_set::Card;

/// Gives the two hole cards and then the five of the board.
fn together(hole: [Card; 2], board: [Card; 5]) -> [Card; 7]
    ensures { result ≡ hole ++ board }
{
    let [a, b] = hole;
    let [c, d, e, f, g] = board;
    [a, b, c, d, e, f, g]
}

/// Gives the best value of five of two hole cards and five board cards, as the list of its category and its ranks. No
/// card may come twice. No hole card has to be shown, so all seven are looked at as a board.
pub fn best_holdem(hole: [Card; 2], board: [Card; 5]) -> HighValue
    requires distinct { AreDistinct (hole ++ board) }
    ensures best { result ≡ best_high (holdem_choices hole board) }
{
    Held::none(together(hole, board)).best_hand()
}

/// Gives the best value of two of four hole cards with three of five board cards, as the list of its category and its
/// ranks. No card may come twice. Each pair of hole cards is looked at with the sets of ranks of the board, and not
/// with its choices of three cards.
pub fn best_omaha(hole: [Card; 4], board: [Card; 5]) -> HighValue
    requires distinct { AreDistinct (hole ++ board) }
    ensures best { result ≡ best_high (omaha_choices hole board) }
{
    let prepared = Board::of(board);
    let mut best = HighValue::least();
    let pairs = pairs(hole);
    for pair in &pairs {
        best = best.max(Held::of(*pair, &prepared).best_hand());
    }
    best
}
