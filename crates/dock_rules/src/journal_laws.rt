//! Laws of journals.

ghost use Rattle.std.specs.Prelude.{◌≡◌, ◌==◌, ◌++◌, ℕ, true, [], List, filter, length};
ghost use Rattle.table_engine.specs.declared.start.HandStart.{HandStart};
ghost use Rattle.tournament_rules.specs.States.{first_state, run};
ghost use Rattle.tournament_rules.specs.Valid.{IsValidState};
ghost use Rattle.view_rules.specs.declared.entries.JournalEntry.{JournalEntry};
ghost use Rattle.dock_rules.specs.Journals.{Has, expand, is_legal_list, journal_caller, tale_of};

/// Says that a journal comes to the state after its events, with the acts of each settled hand before its settle; that
/// these events are a legal list where the journal is legal; that the state is valid; and that the entries are counted.
pub fn a_journal_is_told_as_its_events()
    ensures state { (journal : List JournalEntry)
        → (tale_of journal).state ≡ run first_state (expand journal) }
    ensures legal { (journal : List JournalEntry) → (tale_of journal).legal ≡ true
        → is_legal_list (expand journal) ≡ true }
    ensures valid { (journal : List JournalEntry) → IsValidState (tale_of journal).state }
    ensures count { (journal : List JournalEntry) → (tale_of journal).count ≡ length journal }
{}

/// Says that a hand that is out with a caller stays so, or the tournament is stopped, while others add to a journal.
pub fn others_leave_a_hand_with_its_caller()
    ensures { (caller : ℕ) (start : HandStart) (before others : List JournalEntry)
        → (tale_of (before ++ others)).legal ≡ true → filter (λ entry. journal_caller entry == caller) others ≡ []
        → Has caller start (tale_of before) → Has caller start (tale_of (before ++ others)) }
{}
