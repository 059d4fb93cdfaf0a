//! Laws of a whole journal, and of a journal and the histories of its tables together.
//!
//! It stands on `dock_rules`, `tournament_laws` and what these stand on, and has no code but the laws' functions: each
//! law is the contract of a function that does nothing. No code calls it; proofs above cite its lemmas.
#![tactic(auto)]

mod journals;
mod laws;

pub use journals::{
    a_journal_ends_with_the_stop, chips_are_kept_across_locks, the_hands_out_are_those_of_the_book,
};
pub use laws::{each_hand_is_settled_before_the_next, the_whole_is_legal};
