//! What holds of streams whose lines are all of the first edition, and of hands without an ante and without a fixed
//! limit.

ghost use Rattle.std.specs.Prelude.{◌≡◌, ℕ, true, List, Option, Some};
ghost use Rattle.tournament_events.specs.declared.event.Item.{Item};
ghost use Rattle.table_engine.specs.Hands.{HandTerms};
ghost use Rattle.tournament_rules.specs.States.{first_state};
ghost use Rattle.replay_rules.specs.Replay.{item_of_cut, items_of_bytes, replay_text, state_after_items};
ghost use Rattle.first_edition.specs.First.{IsFirstState, are_first_lines, first_item_of_cut, first_replay_text, is_first_item};
ghost use Rattle.first_edition.specs.FirstHands.{IsAsBefore, IsFirstStart};

/// Says which lines those are: the lines of now whose events are none that entered again, gave a fixed limit, or gave a
/// level an ante.
pub fn lines_of_the_first_edition_are_those_without_ante_limit_and_reentry()
    ensures { (cut : Option (List ℕ)) (item : Item)
        → (first_item_of_cut cut ≡ Some item → (item_of_cut cut ≡ Some item) × (is_first_item item ≡ true))
        × ((item_of_cut cut ≡ Some item) × (is_first_item item ≡ true) → first_item_of_cut cut ≡ Some item) }
{}

/// Says that a stream whose lines are all in the grammar as it stood in the first edition is answered as it was then:
/// each line, and the report at the end.
pub fn lines_of_the_first_edition_are_answered_as_before()
    ensures { (bytes : List ℕ) → are_first_lines bytes ≡ true → replay_text bytes ≡ first_replay_text bytes }
{}

/// Says that such a stream leads to a state in which no level has an ante, there is no fixed limit, nobody entered
/// again, and each hand that is played began so.
pub fn lines_of_the_first_edition_give_no_ante_no_limit_and_no_reentry()
    ensures { (bytes : List ℕ) → are_first_lines bytes ≡ true
        → IsFirstState (state_after_items first_state (items_of_bytes bytes)) }
{}

/// Says that a hand that began without an ante and without a fixed limit has the streets, the checks of its acts, what
/// they come to, the pots, the awards and the stacks that it had in the first edition.
pub fn hands_without_ante_and_limit_are_as_before()
    ensures { (hand : HandTerms) → IsFirstStart hand.start → IsAsBefore hand }
{}
