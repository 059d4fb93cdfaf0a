//! Laws of the text that is served, of what was held at doors, and of what clients are told of it.

ghost use Rattle.std.specs.Prelude.{◌≡◌, ◌++◌, ℕ, List, filter, None};
ghost use Rattle.std.specs.List.{AllByRecursion, flat_map};
ghost use mathlib.Core.List.{IsPrefix};
ghost use Rattle.floor_text.specs.Lines.{lines_of_bytes};
ghost use Rattle.tournament_events.specs.declared.answer.Answer.TheVariants.{Ok};
ghost use Rattle.tournament_events.specs.declared.event.Event.{Event};
ghost use Rattle.floor_events.specs.Spelling.{IsWritable, answer_text};
ghost use Rattle.level_plan.specs.Plans.{PlanTerms};
ghost use Rattle.plan_files.specs.Words.{WordTerms};
ghost use Rattle.replay_rules.specs.Replay.{final_text, replay_text, tournament_text};
ghost use Rattle.tournament_rules.specs.States.{first_state, run};
ghost use Rattle.view_rules.specs.declared.entries.JournalEntry.{JournalEntry};
ghost use Rattle.view_rules.specs.Entries.{journal_lines};
ghost use Rattle.view_rules.specs.Views.{lines_seen_by};
ghost use Rattle.dock_rules.specs.Journals.{IsLegalJournal, expand};
ghost use Rattle.dock_rules.specs.Whole.{IsWhole, is_act_at, whole};
ghost use Rattle.session_desk.specs.Standings.{standing_through};
ghost use Rattle.session_desk.specs.Talks.{Served, floor_in, lines_of_table};
ghost use Rattle.session_desk.specs.Telling.{viewer_of};
ghost use Rattle.listening_laws.specs.Parts.{part_of_floor, part_of_table};
ghost use Rattle.floor_crew.specs.Acted.{events_acted};
ghost use Rattle.floor_crew.specs.DoorRuns.{DoorRun};
ghost use Rattle.floor_crew.specs.FloorPart.{is_floor_line};
ghost use Rattle.floor_crew.specs.Held.{HasHeld};
ghost use Rattle.floor_crew.specs.Sessions.{IsSessionOf};
ghost use Rattle.floor_crew.specs.Tournaments.{AreLawful, IsWholeTournament};

use links::Door;

/// Says that a served text is that of one tournament alone: no other list of writable events has it.
pub fn a_served_text_is_of_one_tournament()
    ensures { (one other : List Event) → AllByRecursion IsWritable one → AllByRecursion IsWritable other
        → tournament_text one ≡ tournament_text other → one ≡ other }
{}

/// Says that a served text is answered `ok` on every line when it is replayed, and ends with the same report.
pub fn a_served_text_replays()
    ensures { (plan : PlanTerms) (events : List Event) → IsWholeTournament plan events
        → replay_text (tournament_text events)
        ≡ flat_map (λ line. answer_text Ok) (lines_of_bytes (tournament_text events))
        ++ final_text (run first_state events) }
{}

/// Says that the floor's lines of the entries of a legal journal, whose hands were played lawfully, are one after
/// another the floor's among the lines of its events, which are the same for all who are told. So what the floor tells
/// of the first entries is a front of them.
pub fn the_floor_tells_of_each_event()
    ensures whole { (journal : List JournalEntry) → IsLegalJournal journal → AreLawful journal
        → flat_map journal_lines journal ≡ filter is_floor_line (lines_seen_by None (expand journal)) }
    ensures fronts { (journal told : List JournalEntry) → IsLegalJournal journal → AreLawful journal
        → IsPrefix told journal
        → IsPrefix (flat_map journal_lines told) (filter is_floor_line (lines_seen_by None (expand journal))) }
{}

/// Says that a tournament that was held at doors is one tournament as a whole: its journal and the histories of its
/// tables are together one legal list of events, which ends in the report of the journal. It holds each act and each
/// called time that was accepted at a table, once and in order, also those of a hand that the stop made void.
pub fn what_was_held_is_one_tournament<D: Door>()
    ensures whole { (plan : PlanTerms) (words : WordTerms) (seed : List ℕ) (journal : List JournalEntry)
        (doors : List (DoorRun D))
        → (held : HasHeld D.told D.faults D.L.told D.L.faults plan words seed journal doors)
        → IsWhole journal held.histories }
    ensures acts { (plan : PlanTerms) (words : WordTerms) (seed : List ℕ) (journal : List JournalEntry)
        (doors : List (DoorRun D)) (table : ℕ)
        → (held : HasHeld D.told D.faults D.L.told D.L.faults plan words seed journal doors)
        → filter (is_act_at table) (whole journal held.histories) ≡ events_acted table (held.histories table) }
{}

/// Says that each client of a tournament that was held at doors is told a part of it: the lines that were told in a
/// session of a table, and those of the floor, are the first of those that this whole tournament tells its client.
pub fn each_client_is_told_its_part_of_what_was_held<D: Door>()
    ensures tables { (plan : PlanTerms) (words : WordTerms) (seed : List ℕ) (journal : List JournalEntry)
        (doors : List (DoorRun D)) (one : Served D.L) (table : ℕ)
        → (held : HasHeld D.told D.faults D.L.told D.L.faults plan words seed journal doors)
        → IsSessionOf D.told D.L.told D.L.faults words plan.tables
        (record { journal = journal; tables = held.histories }) one
        → IsPrefix (lines_of_table table one.log)
        (part_of_table table (lines_seen_by (viewer_of (standing_through words plan.tables one.log).speaker)
        (whole journal held.histories))) }
    ensures floor { (plan : PlanTerms) (words : WordTerms) (seed : List ℕ) (journal : List JournalEntry)
        (doors : List (DoorRun D)) (one : Served D.L)
        → (held : HasHeld D.told D.faults D.L.told D.L.faults plan words seed journal doors)
        → IsSessionOf D.told D.L.told D.L.faults words plan.tables
        (record { journal = journal; tables = held.histories }) one
        → IsPrefix (flat_map journal_lines (floor_in one.log))
        (part_of_floor (lines_seen_by (viewer_of (standing_through words plan.tables one.log).speaker)
        (whole journal held.histories))) }
{}
