//! What is left when the lock is opened for good.

ghost use Rattle.std.specs.Prelude.{◌≡◌, IfOk};
ghost use Rattle.tournament_rules.specs.Report.{report_of};
ghost use Rattle.dock_rules.specs.Journals.{tale_of};
ghost use Rattle.book_dock.specs.Ends.{journal_of};

use crate::hold::BookHold;
use player_view::JournalEntry;
use std::alloc::AllocError;
use tournament_events::Report;

/// The journal of a tournament whose lock was opened, and its book.
#[derive(Drop)]
pub struct BookEnd {
    pub(crate) hold: BookHold,
}

impl BookEnd {
    /// Gives the journal. It takes no memory.
    pub fn journal(&self) -> &Vec<JournalEntry>
        ensures { result.now.items ≡ journal_of self.now }
    {
        &self.hold.journal
    }

    /// Reports how the tournament stands after the journal. Want of memory is the only error.
    pub fn report(&self) -> Result<Report, AllocError>
        ensures { IfOk result (λ report. report ≡ report_of (tale_of (journal_of self.now)).state) }
    {
        self.hold.report()
    }
}
