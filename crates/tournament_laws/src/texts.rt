//! Laws of the text of a tournament.

ghost use Rattle.std.specs.Prelude.{◌≡◌, ◌++◌, true, List, Option, map};
ghost use Rattle.std.specs.List.{flat_map, AllByRecursion};
ghost use Rattle.floor_text.specs.Lines.{lines_of_bytes};
ghost use Rattle.tournament_events.specs.declared.answer.Answer.TheVariants.{Ok};
ghost use Rattle.tournament_events.specs.declared.event.Event.{Event};
ghost use Rattle.tournament_events.specs.declared.event.Item.{Item};
ghost use Rattle.floor_events.specs.Spelling.{answer_text, IsWritable};
ghost use Rattle.tournament_rules.specs.States.{first_state, run, answers};
ghost use Rattle.replay_rules.specs.Replay.{answers_to_items, state_after_items, events_of, item_of_event, final_text, replay_text, tournament_text};
ghost use Rattle.tournament_laws.specs.Accepted.{are_accepted};

/// Says that the lines of a stream leave the state that the run of their events leaves, so the laws of runs hold of
/// what is reported; and lines that all hold events are answered as the run answers these.
pub fn lines_are_a_run()
    ensures state { (items : List (Option Item))
        → state_after_items first_state items ≡ run first_state (events_of items) }
    ensures answers { (events : List Event)
        → answers_to_items first_state (map item_of_event events) ≡ answers first_state events }
{}

/// Says that the text of a tournament, a line for each of its events, which are writable and all accepted, and behind
/// them the report, is answered `ok` on every line, and ends with the same report.
pub fn a_tournaments_text_is_answered_alike()
    ensures { (events : List Event) → AllByRecursion IsWritable events → are_accepted first_state events ≡ true
        → replay_text (tournament_text events)
        ≡ flat_map (λ line. answer_text Ok) (lines_of_bytes (tournament_text events))
        ++ final_text (run first_state events) }
{}
