//! The words that several crates speak of: the order of the seats at a table, checks that are made in order, what holds
//! between each item of a list and each later one, and the most entries of a tournament.
//!
//! It stands on no other crate. Its definitions are plain lists and tests over them (`Seats`, `Search`, `Checks`,
//! `Pairs`), and its lemmas are for the crates above; the functions here take one step from seat to seat.
//! `search_is_the_walk` says that a search through people listed in rising seat is the walk round the table, and
//! `limits_are_the_rules` that the most entries are those of `Limits`.
#![tactic(auto)]

mod laws;
mod limits;
mod seat_order;

pub use laws::{limits_are_the_rules, search_is_the_walk};
pub use limits::{MOST_ENTRIES, MOST_SEATS, MOST_TABLES};
pub use seat_order::{seat_after, seat_before};
