//! What a player is told of a tournament: which cards are shown to whom, what each event tells, and how that is
//! spelled.
//!
//! It stands on tournament_rules and what that stands on. It has the types of what is told of the floor and of a table,
//! entry by entry, and the definitions: which cards of a hand are shown to a player (`Shown`), what he sees (`Seen`),
//! the lines that tell him of each event, made of what he sees (`Lines`), their spelling (`Spelling`), and when two
//! lists of events agree on all that he may see (`Agreeing`). `player_view` writes the lines.
#![tactic(auto)]

mod entries;
mod opening;

pub use entries::{JournalEntry, StackLine, TableEntry};
pub use opening::Opening;
