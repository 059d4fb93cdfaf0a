//! What the book says of a called time and of a settle, before the hand is asked.

ghost use Rattle.std.specs.Prelude.{IfOk};
ghost use Rattle.rulebook.specs.Checks.{IsChecked};
ghost use Rattle.tournament_rules.specs.Checks.{before_hand_checks};
ghost use Rattle.floor_book.specs.Tables.{IsPlayedAt};

use crate::book::Book;
use floor_text::Refusal;

impl Book {
    /// Makes the checks of a called time and of a settle before those of the hand, and gives the table's number.
    pub fn check_hand(&self, table: u64) -> Result<u8, Refusal>
        ensures checked { IsChecked (before_hand_checks self.now table) result }
        ensures told { IfOk result (IsPlayedAt self.now table) }
    {
        self.check_going()?;
        self.check_playing(table)
    }
}
