//! What the floor does by itself: which order it owes next, which deck is dealt, and what a simulated player does.
//!
//! It stands on floor_text, card_set, rulebook, level_plan, button_blinds, betting_round, seat_book, balance_rule,
//! break_draw, table_engine and floor_events, and on `rand`, `rand_chacha` and `rand_core`. `next_order` gives the
//! break or the balance that is owed, by the kept counts of a `SeatBook`. `deck_of`, `sim_turn` and `sim_act` draw by
//! the generator that break_draw makes, decks and acts with a kind of their own, and take no memory. The laws say that
//! one order at most is owed, that no check of the seats refuses it, and that balances come to an end.
#![tactic(auto)]

mod acts;
mod decks;
mod laws;
mod orders;

pub use acts::{sim_act, sim_turn};
pub use decks::deck_of;
pub use laws::{an_owed_order_passes_its_checks, balances_come_to_an_end, one_order_is_owed};
pub use orders::next_order;
