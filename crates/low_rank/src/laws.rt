//! Laws of the best low hand, over all cards.

ghost use Rattle.std.specs.Prelude.{◌≡◌, ℕ, List, ◌∷◌, ◌++◌};
ghost use Rattle.card_set.specs.declared.card.Card.{Card};
ghost use Rattle.card_choices.specs.Changes.{AreRenamed};
ghost use Rattle.card_choices.specs.Choices.{omaha_choices};
ghost use Rattle.low_rank.specs.Lows.{best_low_of};

/// Says that two neighbours among the hole cards, or among the board cards, may change places and the low stays. So the
/// order of the hole cards does not count, and that of the board cards does not, since exchanges of neighbours reach
/// each order.
pub fn order_does_not_count()
    ensures hole { (front : List Card) (a b : Card) (back board : List Card)
        → best_low_of (omaha_choices (front ++ a ∷ b ∷ back) board)
        ≡ best_low_of (omaha_choices (front ++ b ∷ a ∷ back) board) }
    ensures board { (hole front : List Card) (a b : Card) (back : List Card)
        → best_low_of (omaha_choices hole (front ++ a ∷ b ∷ back))
        ≡ best_low_of (omaha_choices hole (front ++ b ∷ a ∷ back)) }
{}

/// Says that where suits are renamed in any way, the low stays.
pub fn suits_do_not_count()
    ensures { (suit : ℕ → ℕ) (hole others board boards : List Card) → AreRenamed suit hole others
        → AreRenamed suit board boards
        → best_low_of (omaha_choices hole board) ≡ best_low_of (omaha_choices others boards) }
{}
