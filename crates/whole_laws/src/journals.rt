//! Laws of the hands that a journal has out.

ghost use Rattle.std.specs.Prelude.{◌≡◌, ◌==◌, ◌+◌, ◌++◌, ◌↔◌, ℕ, true, List, [], Some, Contains, filter, sum_by};
ghost use Rattle.std.specs.Option.{option_to_list};
ghost use Rattle.table_engine.specs.declared.start.HandStart.{HandStart};
ghost use Rattle.table_engine.specs.Starts.{chips_of};
ghost use Rattle.tournament_rules.specs.Books.{start_at};
ghost use Rattle.tournament_rules.specs.Chips.{added, play, removed, rest, sold};
ghost use Rattle.view_rules.specs.declared.entries.JournalEntry.{JournalEntry};
ghost use Rattle.dock_rules.specs.Journals.{book_of, hands_out, tale_of};

/// Says that by a legal journal the stacks with which the hands that are out began are the chips in play, and that
/// they, the stacks at rest and what races took away sum to what was sold and what races gave.
pub fn chips_are_kept_across_locks()
    ensures play { (journal : List JournalEntry) → (tale_of journal).legal ≡ true
        → sum_by (λ start. chips_of start.seats) (hands_out journal) ≡ play (tale_of journal).state }
    ensures kept { (journal : List JournalEntry) → (tale_of journal).legal ≡ true
        → rest (tale_of journal).state + sum_by (λ start. chips_of start.seats) (hands_out journal)
        + removed (tale_of journal).state ≡ sold (tale_of journal).state + added (tale_of journal).state }
{}

/// Says that the hands that are out by a legal journal are just those that its book has started: at each table the one
/// that has started there, once, or none; and none at all once the tournament is stopped.
pub fn the_hands_out_are_those_of_the_book()
    ensures at_table { (journal : List JournalEntry) (table : ℕ) → (tale_of journal).legal ≡ true
        → filter (λ start. start.table == table) (hands_out journal)
        ≡ option_to_list (start_at (book_of (tale_of journal)).started table) }
    ensures each { (journal : List JournalEntry) (start : HandStart) → (tale_of journal).legal ≡ true
        → Contains (hands_out journal) start
        ↔ (start_at (book_of (tale_of journal)).started start.table ≡ Some start) }
    ensures stopped { (journal : List JournalEntry) → (tale_of journal).legal ≡ true
        → (book_of (tale_of journal)).stopped ≡ true → hands_out journal ≡ [] }
{}

/// Says that a legal journal ends with the stop exactly where its tournament is stopped, and that nothing comes behind
/// the stop.
pub fn a_journal_ends_with_the_stop()
    ensures ended { (journal : List JournalEntry) → (tale_of journal).legal ≡ true
        → (tale_of journal).ended ≡ (book_of (tale_of journal)).stopped }
    ensures last { (before others : List JournalEntry) → (tale_of (before ++ others)).legal ≡ true
        → (tale_of before).ended ≡ true → others ≡ [] }
{}
