//! Laws of the hands of a table and its worker.

ghost use Rattle.std.specs.Prelude.{ℕ, List};
ghost use Rattle.view_rules.specs.declared.entries.JournalEntry.{JournalEntry};
ghost use Rattle.view_rules.specs.declared.entries.TableEntry.{TableEntry};
ghost use Rattle.dock_rules.specs.Tables.{IsLegalTableHistory};
ghost use Rattle.dock_rules.specs.Journals.{tale_of};
ghost use Rattle.dock_rules.specs.Whole.{IsMatch, hands_of};
ghost use Rattle.table_worker.specs.Alone.{IsAlone};
ghost use Rattle.table_worker.specs.Ties.{IsBrought};

/// Says that a table and the journal match, as the law of the whole asks, where the table's worker is done and nobody
/// else began or settled a hand there.
pub fn a_table_with_its_worker_alone_matches()
    ensures { (caller table : ℕ) (journal : List JournalEntry) (history : List TableEntry)
        → IsLegalTableHistory history → IsAlone caller table journal → IsBrought caller table journal history
        → IsMatch table (tale_of journal) (hands_of history) }
{}
