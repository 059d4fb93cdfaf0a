//! Laws of the tournament, over every list of events, lawful or not.
//!
//! It stands on `tournament_rules` and has no code but the laws' functions: each law is the contract of a function that
//! does nothing. Nothing that runs stands on it.
#![tactic(auto)]

mod chips;
mod hands;
mod levels;
mod places;
mod players;
mod runs;
mod tables;
mod texts;

pub use chips::{
    a_race_changes_the_chips_by_what_it_records, chips_are_kept,
    entries_and_races_alone_change_the_chips, stacks_are_lawful,
    stacks_are_moved_by_their_own_events_alone, the_last_player_has_all_chips,
};
pub use hands::{
    a_table_plays_where_a_hand_has_started, acts_stay_at_their_table, hands_are_lawful_plays,
    hands_are_numbered_as_they_begin, hands_have_their_players, no_hand_gets_stuck,
    nobody_is_dealt_in_at_two_tables, starts_are_lawful, who_folds_in_a_tournament_is_covered,
};
pub use levels::{
    a_level_changes_no_hand, a_race_changes_no_other_table, a_table_races_once_between_levels,
    levels_follow_the_plan, units_follow_the_level,
};
pub use places::{
    a_report_counts_the_chips, a_report_names_each_player_once, places_in_a_report_are_a_ranking,
    places_rise_without_entries, prizes_are_the_pool,
};
pub use players::{
    a_group_is_of_one_round, a_later_entry_moves_each_place_by_one,
    a_reentry_takes_a_row_off_the_list, each_entry_is_in_or_bust, groups_never_fall,
    no_two_entered_under_one_name, once_over_it_stays_over, players_are_in_order,
    who_is_bust_stays_bust_until_he_reenters, who_is_named_has_entered,
};
pub use runs::{
    a_book_and_its_hands_answer_alike, neighbors_may_change_places, nothing_follows_a_stop,
    one_order_has_one_end,
};
pub use tables::{
    a_broken_table_is_left, a_table_begins_once_in_a_round, a_table_that_is_not_open_is_bare,
    entries_go_to_the_fewest, halted_tables_wait, moves_are_lawful,
};
pub use texts::{a_tournaments_text_is_answered_alike, lines_are_a_run};
