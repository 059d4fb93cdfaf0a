//! Laws of balances, over every seating.

ghost use Rattle.std.specs.Prelude.{◌≡◌, ◌≢◌, ◌≤◌, ◌+◌, ℕ, true, false, None, Some};
ghost use Rattle.rulebook.specs.Checks.{first_that_holds};
ghost use Rattle.seat_book.specs.Places.{IsTableOf};
ghost use Rattle.seat_book.specs.Counts.{count_at, is_open};
ghost use Rattle.seat_book.specs.Seatings.{Seating, IsSeating, is_race_pending, is_round_open};
ghost use Rattle.balance_rule.specs.declared.balance.Move.{Move};
ghost use Rattle.balance_rule.specs.Balance.{balance_checks, balance_move, after_move};
ghost use Rattle.balance_rule.specs.Moves.{Balance, IsFreeTable, IsLawfulMove};

/// Says that a lawful balance goes from a fullest open table to one with the fewest players, and narrows the gap
/// between them: the one has one player fewer and the other one more, all others have as many as before, and the other
/// still has no more than the one.
pub fn a_balance_narrows_the_gap()
    ensures from_a_fullest { (seating : Seating) (from to other : ℕ) (move_ : Move)
        → IsLawfulMove seating (Balance from to move_) → IsTableOf seating.table_count other
        → is_open seating.players other ≡ true → count_at seating.players other ≤ count_at seating.players from }
    ensures to_a_fewest { (seating : Seating) (from to other : ℕ) (move_ : Move)
        → IsLawfulMove seating (Balance from to move_) → IsTableOf seating.table_count other
        → is_open seating.players other ≡ true → count_at seating.players to ≤ count_at seating.players other }
    ensures gives { (seating : Seating) (from to : ℕ) (move_ : Move) → IsSeating seating
        → IsLawfulMove seating (Balance from to move_)
        → count_at (after_move move_ seating).players from + 1 ≡ count_at seating.players from }
    ensures takes { (seating : Seating) (from to : ℕ) (move_ : Move) → IsSeating seating
        → IsLawfulMove seating (Balance from to move_)
        → count_at (after_move move_ seating).players to ≡ count_at seating.players to + 1 }
    ensures others { (seating : Seating) (from to other : ℕ) (move_ : Move) → IsSeating seating
        → IsLawfulMove seating (Balance from to move_) → other ≢ from → other ≢ to
        → count_at (after_move move_ seating).players other ≡ count_at seating.players other }
    ensures narrower { (seating : Seating) (from to : ℕ) (move_ : Move) → IsSeating seating
        → IsLawfulMove seating (Balance from to move_)
        → count_at (after_move move_ seating).players to ≤ count_at (after_move move_ seating).players from }
{}

/// Says that a lawful balance can never be turned round at once: no lawful balance of the seating after it goes back.
pub fn a_balance_is_never_turned_round()
    ensures { (seating : Seating) (from to : ℕ) (move_ back : Move) → IsSeating seating
        → IsLawfulMove seating (Balance from to move_)
        → ¬ IsLawfulMove (after_move move_ seating) (Balance to from back) }
{}

/// Says that what passes the checks of a balance is lawful, where the one table is open and not playing, the other
/// open, no race pending and no round open.
pub fn a_checked_balance_is_lawful()
    ensures { (seating : Seating) (from to : ℕ) (move_ : Move) → is_race_pending seating ≡ false
        → is_round_open seating ≡ false → IsFreeTable seating from → IsTableOf seating.table_count to
        → is_open seating.players to ≡ true → first_that_holds (balance_checks seating from to) ≡ None
        → balance_move seating from to ≡ Some move_ → IsLawfulMove seating (Balance from to move_) }
{}

/// Says that a lawful balance passes its checks: so where no two tables pass them, no balance is lawful.
pub fn a_lawful_balance_is_checked()
    ensures { (seating : Seating) (from to : ℕ) (move_ : Move) → IsLawfulMove seating (Balance from to move_)
        → first_that_holds (balance_checks seating from to) ≡ None }
{}
