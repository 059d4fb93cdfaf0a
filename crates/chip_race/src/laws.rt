//! What holds of every race.

ghost use Rattle.std.specs.Prelude.{◌≡◌, ◌==◌, ◌+◌, ◌*◌, ◌%◌, ◌<◌, ◌≤◌, ℕ, true, sum, count_by, slice_index, List, length};
ghost use Rattle.card_set.specs.declared.card.Card.{Card};
ghost use Rattle.card_set.specs.Decks.{IsDeck};
ghost use Rattle.chip_race.specs.Races.{race_result, odd_value, are_whole, winners, awarded_chips};

/// Says that a race keeps each player in: who had a stack has one.
pub fn each_player_stays_in()
    ensures { (stacks : List ℕ) (cards : List Card) (old new index : ℕ) → 1 ≤ new → index < length stacks
        → 0 < slice_index stacks index → 0 < slice_index (race_result stacks old new cards).stacks index }
{}

/// Says that an empty seat stays empty.
pub fn an_empty_seat_stays_empty()
    ensures { (stacks : List ℕ) (cards : List Card) (old new index : ℕ) → 1 ≤ old → 1 ≤ new → length stacks ≡ 10
        → IsDeck cards → index < 10
        → slice_index stacks index ≡ 0 → slice_index (race_result stacks old new cards).stacks index ≡ 0 }
{}

/// Says that a race takes from nobody more than his odd chips.
pub fn nobody_loses_more_than_his_odd_chips()
    ensures { (stacks : List ℕ) (cards : List Card) (old new index : ℕ) → index < length stacks
        → slice_index stacks index
        ≤ slice_index (race_result stacks old new cards).stacks index + odd_value new (slice_index stacks index) }
{}

/// Says that a race gives nobody more than one chip of the new unit.
pub fn nobody_gets_more_than_one_chip()
    ensures { (stacks : List ℕ) (cards : List Card) (old new index : ℕ) → 1 ≤ new → index < length stacks
        → slice_index (race_result stacks old new cards).stacks index + odd_value new (slice_index stacks index)
        ≤ slice_index stacks index + new }
{}

/// Says that the chips after a race and those that are removed are the chips before it and those that are added.
pub fn chips_change_by_what_is_removed_and_added()
    ensures { (stacks : List ℕ) (cards : List Card) (old new : ℕ)
        → sum (race_result stacks old new cards).stacks + (race_result stacks old new cards).removed
        ≡ sum stacks + (race_result stacks old new cards).added }
{}

/// Says that all stacks after a race are whole chips of the new unit.
pub fn stacks_are_whole_chips_of_the_new_unit()
    ensures { (stacks : List ℕ) (cards : List Card) (old new : ℕ) → 1 ≤ new
        → are_whole new (race_result stacks old new cards).stacks ≡ true }
{}

/// Says that each chip that is awarded goes to a player: there are as many winners as chips.
pub fn each_chip_that_is_awarded_goes_to_a_player()
    ensures { (stacks : List ℕ) (cards : List Card) (old new : ℕ) → length stacks ≡ 10 → 50 ≤ length cards → 1 ≤ old
        → 1 ≤ new → new ≤ 6 * old → new % old ≡ 0 → are_whole old stacks ≡ true
        → length (winners old new (awarded_chips new stacks) stacks cards) ≡ awarded_chips new stacks }
{}

/// Says that no player wins two chips.
pub fn nobody_wins_two_chips()
    ensures { (stacks : List ℕ) (cards : List Card) (old new chips player : ℕ)
        → count_by (λ winner. winner == player) (winners old new chips stacks cards) ≤ 1 }
{}
