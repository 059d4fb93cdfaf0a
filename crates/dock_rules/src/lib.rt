//! The rules of the histories behind the locks of a running floor: the journal of the book, and the history of each
//! table.
//!
//! It stands on tournament_rules, view_rules, floor_director and simulation_rules. It has the types of what the floor
//! may ask for, and else definitions, and no code but the laws' functions. `Tables` is the history of a table: who
//! made an entry, which hand lies there, when the history is legal, and when the answer of an act or a called time
//! stands at it. `Journals` tells a journal as one record, `Kept` says which book it comes to, `Points` which answers
//! stand at it, and `Whole` what a journal and its tables' histories are together.
#![tactic(auto)]

mod asks;
mod journal_laws;
mod table_laws;

pub use asks::{Ask, AskAnswer};
pub use journal_laws::{a_journal_is_told_as_its_events, others_leave_a_hand_with_its_caller};
pub use table_laws::{a_hand_that_lies_there_has_its_chips, the_worker_knows_of_each_hand};
