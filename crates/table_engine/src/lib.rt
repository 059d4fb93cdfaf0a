//! One hand: its start and its acts, and what they come to.
//!
//! It stands on floor_text, card_set, rulebook, level_plan, button_blinds, betting_round, limit_betting, deal_order,
//! pot_layers and showdown. A `Hand` is made of a `HandStart` that is lawful, takes acts from the players who are due
//! and called times on all streets (`act` answers just by `refusal_of_act`, `time` by `refusal_of_time`; `check` and
//! `check_time` answer the same and change nothing), and ends by `finish`, whose record is a complete play of its
//! start, or by `void`, which gives its start back. Who shows a hand asks its start for cards (`hole_card`,
//! `board_card`) and blinds (`posted`), and the hand for what is faced and awarded (`facing`, `award`).
//!
//! Laws of every lawful play: `chips_of_a_hand` at each moment, `acts_of_a_hand`, `turns_of_a_hand`,
//! `levels_of_a_hand`, `bets_of_a_hand`, `length_of_a_hand`, `showdown_of_a_hand`, `an_uncalled_bet_comes_back`, and
//! `players_of_a_hand` of the players and their stacks after it. Of every hand: `checks_of_an_act_rise`,
//! `a_showdown_has_the_whole_board`, `cards_of_a_hand` and `cards_do_not_bet`.
#![tactic(auto)]

mod awards;
mod betting;
mod dealing;
mod hand;
mod laws;
mod players;
mod record;
mod start;
mod telling;

pub use awards::Awards;
pub use hand::Hand;
pub use laws::{
    a_showdown_has_the_whole_board, acts_of_a_hand, an_uncalled_bet_comes_back, bets_of_a_hand,
    cards_do_not_bet, cards_of_a_hand, checks_of_an_act_rise, chips_of_a_hand, length_of_a_hand,
    levels_of_a_hand, players_of_a_hand, showdown_of_a_hand, turns_of_a_hand,
};
pub use record::{ActFault, ActOf, HandRecord};
pub use start::{HandStart, StartSeat};
