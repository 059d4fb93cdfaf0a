//! Laws of who listens.

ghost use Rattle.std.specs.Prelude.{◌≡◌, ◌++◌, ℕ, List};
ghost use Rattle.std.specs.List.{flat_map};
ghost use mathlib.Core.List.{IsPrefix};
ghost use Rattle.table_engine.specs.declared.start.HandStart.{HandStart};
ghost use Rattle.view_rules.specs.declared.entries.JournalEntry.{JournalEntry};
ghost use Rattle.view_rules.specs.declared.entries.TableEntry.{TableEntry};
ghost use Rattle.view_rules.specs.declared.entries.TableEntry.TheVariants.{Opened};
ghost use Rattle.view_rules.specs.Entries.{entry_lines, journal_lines};
ghost use Rattle.view_rules.specs.Shown.{Viewer};
ghost use Rattle.view_rules.specs.Views.{lines_seen_by};
ghost use Rattle.dock_rules.specs.Tables.{entries_lines};
ghost use Rattle.dock_rules.specs.Whole.{DoMatch, whole};
ghost use Rattle.listening_laws.specs.Parts.{AreAllOpened, IsLastToOpen, part_of_floor, part_of_table};
ghost use Rattle.plan_files.specs.Words.{WordTerms};
ghost use Rattle.session_desk.specs.Desks.{AreLater, Numbers, Sights};
ghost use Rattle.session_desk.specs.Exchanges.{Exchange};
ghost use Rattle.session_desk.specs.Standings.{standing_through};
ghost use Rattle.session_desk.specs.Talks.{AreMoments, floor_in, lines_of_table, sights_through};
ghost use Rattle.session_desk.specs.Telling.{first_teller, viewer_of};

/// Says that a player, or nobody, who only listens at a table is told what the whole tells him of that table: where a
/// journal and the histories of all tables are legal and match, the lines of the table's history are the first of those
/// of the table in the whole. They are all of them where each hand that began at the table was opened there, and else
/// the opening lines of the last hand that began come behind, and nothing more.
pub fn who_listens_at_a_table_is_told_its_part_of_the_whole()
    ensures first { (who : Viewer) (table : ℕ) (journal : List JournalEntry) (histories : ℕ → List TableEntry)
        → DoMatch journal histories
        → IsPrefix (entries_lines (first_teller who table) (histories table))
        (part_of_table table (lines_seen_by who (whole journal histories))) }
    ensures all { (who : Viewer) (table : ℕ) (journal : List JournalEntry) (histories : ℕ → List TableEntry)
        → DoMatch journal histories → AreAllOpened table journal (histories table)
        → part_of_table table (lines_seen_by who (whole journal histories))
        ≡ entries_lines (first_teller who table) (histories table) }
    ensures but_last { (who : Viewer) (table : ℕ) (journal : List JournalEntry) (histories : ℕ → List TableEntry)
        (last : HandStart) → DoMatch journal histories → IsLastToOpen table journal (histories table) last
        → part_of_table table (lines_seen_by who (whole journal histories))
        ≡ entries_lines (first_teller who table) (histories table)
        ++ entry_lines (first_teller who table) (Opened last) }
{}

/// Says that a player, or nobody, who only listens to the floor is told what the whole tells at the floor: where a
/// journal and the histories of all tables are legal and match, the lines of the journal are those of the floor in the
/// whole.
pub fn who_listens_to_the_floor_is_told_its_part_of_the_whole()
    ensures { (who : Viewer) (journal : List JournalEntry) (histories : ℕ → List TableEntry)
        → DoMatch journal histories
        → part_of_floor (lines_seen_by who (whole journal histories)) ≡ flat_map journal_lines journal }
{}

/// Says that what a client was told is part of what the whole tells, whatever was asked for: where all that had been
/// seen in its session is the beginning of a journal and of the histories of all tables, which are legal and match, the
/// lines that it was told of a table are the first of those of the table in the whole, and the floor's lines that it
/// was told are the first of those of the floor.
pub fn a_client_is_told_its_part_of_the_whole()
    ensures tables { (words : WordTerms) (count : ℕ) (numbers : Numbers) (start : Sights) (log : List Exchange)
        (table : ℕ) (journal : List JournalEntry) (histories : ℕ → List TableEntry)
        → AreMoments words count numbers start log
        → AreLater (sights_through start log) (record { journal = journal; tables = histories })
        → DoMatch journal histories
        → IsPrefix (lines_of_table table log)
        (part_of_table table (lines_seen_by (viewer_of (standing_through words count log).speaker)
        (whole journal histories))) }
    ensures floor { (words : WordTerms) (count : ℕ) (numbers : Numbers) (start : Sights) (log : List Exchange)
        (who : Viewer) (journal : List JournalEntry) (histories : ℕ → List TableEntry)
        → AreMoments words count numbers start log
        → AreLater (sights_through start log) (record { journal = journal; tables = histories })
        → DoMatch journal histories
        → IsPrefix (flat_map journal_lines (floor_in log))
        (part_of_floor (lines_seen_by who (whole journal histories))) }
{}
