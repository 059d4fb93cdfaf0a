//! Laws of a journal and the histories of all tables.

ghost use Rattle.std.specs.Prelude.{◌≡◌, ◌++◌, ◌∷◌, ℕ, true, List};
ghost use Rattle.std.specs.List.{list_any};
ghost use Rattle.card_set.specs.declared.card.CardRow.{CardRow};
ghost use Rattle.tournament_events.specs.declared.event.Event.TheVariants.{Begin};
ghost use Rattle.view_rules.specs.declared.entries.JournalEntry.{JournalEntry};
ghost use Rattle.dock_rules.specs.Journals.{tale_of};
ghost use Rattle.dock_rules.specs.Whole.{TheWholeIsLegal};
ghost use Rattle.whole_laws.specs.Between.{settles_at};

/// Says that where a journal and the histories of all tables are legal and match, the one list of events that they are
/// together is legal, holds every act of every table once and in order, and ends in the journal's report.
pub fn the_whole_is_legal()
    ensures { TheWholeIsLegal }
{}

/// Says that between two hands that begin at a table a journal settles one there.
pub fn each_hand_is_settled_before_the_next()
    ensures { (table : ℕ) (row other : CardRow) (before between after : List JournalEntry) (one next : JournalEntry)
        → (tale_of (before ++ one ∷ (between ++ next ∷ after))).legal ≡ true
        → one.event ≡ Begin table row → next.event ≡ Begin table other
        → list_any (λ entry. settles_at table entry.event) between ≡ true }
{}
