//! The names of those who entered a tournament, in order.
//!
//! It stands on floor_text and rulebook, on `indexmap`, by which a name is found without a walk over the list, and on
//! `thiserror`. A player's
//! number is the index of the name. `EntryList` is seen as the list of the added names.
#![tactic(auto)]

mod entries;

pub use entries::{EntryFault, EntryList};
