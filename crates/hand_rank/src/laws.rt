//! Laws of the best high hand, over all cards.

ghost use Rattle.std.specs.Prelude.{◌≡◌, ℕ, List, ◌∷◌, ◌++◌};
ghost use Rattle.card_set.specs.declared.card.Card.{Card};
ghost use Rattle.card_choices.specs.Changes.{AreRenamed, IsOneToOne};
ghost use Rattle.card_choices.specs.Choices.{holdem_choices, omaha_choices};
ghost use Rattle.hand_rank.specs.BestHigh.{best_high};

/// Says that two neighbours among the hole cards, or among the board cards, may change places and the value stays. So
/// the order of the hole cards does not count, and that of the board cards does not, since exchanges of neighbours
/// reach each order.
pub fn order_does_not_count()
    ensures hole_of_holdem { (front : List Card) (a b : Card) (back board : List Card)
        → best_high (holdem_choices (front ++ a ∷ b ∷ back) board)
        ≡ best_high (holdem_choices (front ++ b ∷ a ∷ back) board) }
    ensures board_of_holdem { (hole front : List Card) (a b : Card) (back : List Card)
        → best_high (holdem_choices hole (front ++ a ∷ b ∷ back))
        ≡ best_high (holdem_choices hole (front ++ b ∷ a ∷ back)) }
    ensures hole_of_omaha { (front : List Card) (a b : Card) (back board : List Card)
        → best_high (omaha_choices (front ++ a ∷ b ∷ back) board)
        ≡ best_high (omaha_choices (front ++ b ∷ a ∷ back) board) }
    ensures board_of_omaha { (hole front : List Card) (a b : Card) (back : List Card)
        → best_high (omaha_choices hole (front ++ a ∷ b ∷ back))
        ≡ best_high (omaha_choices hole (front ++ b ∷ a ∷ back)) }
{}

/// Says that where suits are renamed one to one, the value stays.
pub fn suits_break_no_tie()
    ensures holdem { (suit : ℕ → ℕ) → IsOneToOne suit → (hole others board boards : List Card)
        → AreRenamed suit hole others → AreRenamed suit board boards
        → best_high (holdem_choices hole board) ≡ best_high (holdem_choices others boards) }
    ensures omaha { (suit : ℕ → ℕ) → IsOneToOne suit → (hole others board boards : List Card)
        → AreRenamed suit hole others → AreRenamed suit board boards
        → best_high (omaha_choices hole board) ≡ best_high (omaha_choices others boards) }
{}
