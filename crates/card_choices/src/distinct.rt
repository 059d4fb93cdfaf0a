//! Whether a card comes twice.

ghost use Rattle.std.specs.Prelude.{◌≡◌, ◌++◌, ◌↔◌, not, IsTrue};
ghost use Rattle.card_set.specs.Decks.{repeats_a_card};
ghost use Rattle.card_choices.specs.Choices.{AreDistinct};

use card_set::Card;

/// Tells whether each card differs from each later one.
fn differ(cards: &[Card]) -> bool
    ensures { result ≡ not (repeats_a_card cards.now) }
{
    match cards {
        [] => true,
        [first, others @ ..] => !others.contains(first) && differ(others),
    }
}

/// Tells whether each card of two lists together differs from each later one.
fn differ_together(hole: &[Card], board: &[Card]) -> bool
    ensures { result ≡ not (repeats_a_card (hole.now ++ board.now)) }
{
    match hole {
        [] => differ(board),
        [first, others @ ..] => {
            !others.contains(first) && !board.contains(first) && differ_together(others, board)
        }
    }
}

/// Tells whether no card comes twice among a player's hole cards and the board.
pub fn are_distinct(hole: &[Card], board: &[Card]) -> bool
    ensures { IsTrue result ↔ AreDistinct (hole.now ++ board.now) }
{
    differ_together(hole, board)
}
