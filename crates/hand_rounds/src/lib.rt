//! Rounds of hand-for-hand: which tables may begin a hand, when a round ends, and the switch.
//!
//! It stands on floor_text, rulebook, seat_book and balance_rule. Each call walks over the tables of a `SeatBook` once,
//! changes nothing where it refuses, and takes no memory. `may_begin`, `may_close` and `may_switch` ask, `close_round`
//! ends a round and `switch` turns hand-for-hand on or off. `end_round` and `set_hands` do the same for who has asked.
//! The number of the group of those who go out is not kept here.
#![tactic(auto)]

mod rounds;

pub use rounds::{close_round, end_round, may_begin, may_close, may_switch, set_hands, switch};
