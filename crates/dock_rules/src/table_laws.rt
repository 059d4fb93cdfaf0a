//! Laws of the history of a table.

ghost use Rattle.std.specs.Prelude.{◌≡◌, ◌==◌, List, filter, Some, is_some};
ghost use Rattle.table_engine.specs.Hands.{HandTerms};
ghost use Rattle.table_engine.specs.Plays.{IsLawfulPlay};
ghost use Rattle.table_engine.specs.Starts.{IsLawfulStart};
ghost use Rattle.view_rules.specs.declared.entries.TableEntry.{TableEntry};
ghost use Rattle.dock_rules.specs.Tables.{HasItsChips, IsLegalTableHistory, lies, lying_hand, openings, table_caller};

/// Says that the hand that lies at a table by a legal history started lawfully and was played lawfully so far, and has
/// all the chips that it began with.
pub fn a_hand_that_lies_there_has_its_chips()
    ensures start { (history : List TableEntry) (hand : HandTerms) → IsLegalTableHistory history
        → lying_hand history ≡ Some hand → IsLawfulStart hand.start }
    ensures play { (history : List TableEntry) (hand : HandTerms) → IsLegalTableHistory history
        → lying_hand history ≡ Some hand → IsLawfulPlay hand }
    ensures chips { (history : List TableEntry) (hand : HandTerms) → IsLegalTableHistory history
        → lying_hand history ≡ Some hand → HasItsChips hand }
{}

/// Says that the worker's own entries tell which hands were opened at a table, and whether one lies there.
pub fn the_worker_knows_of_each_hand()
    ensures openings { (history : List TableEntry)
        → openings (filter (λ entry. table_caller entry == 0) history) ≡ openings history }
    ensures lies { (history : List TableEntry)
        → lies (filter (λ entry. table_caller entry == 0) history) ≡ is_some (lying_hand history) }
{}
