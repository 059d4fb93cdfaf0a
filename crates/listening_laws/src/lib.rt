//! Laws of a client that only listens: what it is told is its part of what the whole of a journal and its tables'
//! histories tells.
//!
//! It stands on `whole_laws`, `session_desk` and what these stand on, and has no code but the laws' functions: each law
//! is the contract of a function that does nothing. No code calls it.
#![tactic(auto)]

mod laws;

pub use laws::{
    a_client_is_told_its_part_of_the_whole, who_listens_at_a_table_is_told_its_part_of_the_whole,
    who_listens_to_the_floor_is_told_its_part_of_the_whole,
};
