//! The floor of a tournament and those who work at it: a tournament is held at doors, until the floor stops it.
//!
//! It stands on plan_files, links, listening_laws, table_worker and what these stand on. `open_floor` makes the locks
//! round the book and the tables, deals their passes to those who are to work, and takes the room for all that comes
//! back; `hold` lets everybody work and gives the journal and the doors. The laws tell of the text of a tournament
//! that was held, of what was held as a whole, and of what clients are told of it.
//!
//! | file | what is in it |
//! |---|---|
//! | `floor.rt`, `passes.rt`, `rows.rt` | the locks and their passes, which are dealt to those who work and collected |
//! | `threads.rt`, `jobs.rt` | everybody works in a thread of his own; what each is given and gives back |
//! | `closing.rt` | the locks are opened for good |
//! | `holding.rt` | a tournament is held at doors |
//! | `writable.rt` | the events of a journal may be written as lines |
//! | `laws.rt` | laws of the served text, of what was held as a whole, and of what clients are told of it |
#![tactic(auto)]

mod closing;
mod floor;
mod holding;
mod jobs;
mod laws;
mod passes;
mod rows;
mod threads;
mod writable;

pub use closing::Doors;
pub use floor::{Crew, Floor, Room, open_floor};
pub use holding::hold;
pub use laws::{
    a_served_text_is_of_one_tournament, a_served_text_replays,
    each_client_is_told_its_part_of_what_was_held, the_floor_tells_of_each_event,
    what_was_held_is_one_tournament,
};
