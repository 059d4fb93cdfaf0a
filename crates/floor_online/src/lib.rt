//! Tournaments run online: clients come through the doors of a hall, tables play, and in the end the text of all events
//! is written.
//!
//! It stands on command_lines, plan_files, links, floor_crew and what these stand on. `serve` is the whole server over
//! any source, sinks and hall, and its contract says what the server promises: what it wrote is the text of one legal
//! tournament, of which each client was told. The laws of floor_crew say more of that text, and of what clients are
//! told.
//!
//! | file | what is in it |
//! |---|---|
//! | `server.rt` | the top call: a plan is read, a tournament is held, and its text is written |
//! | `holding.rt` | a tournament is held at the doors of a hall |
//! | `text.rt`, `doors.rt` | what is written of the journal, and of the doors that failed |
#![tactic(auto)]

mod doors;
mod holding;
mod server;
mod text;

pub use floor_crew::{
    a_served_text_is_of_one_tournament, a_served_text_replays,
    each_client_is_told_its_part_of_what_was_held, the_floor_tells_of_each_event,
    what_was_held_is_one_tournament,
};
pub use server::serve;
