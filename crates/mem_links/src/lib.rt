//! The outside of a server in memory: links that play a script, doors that hand out links, and a hall that hands out
//! doors.
//!
//! It stands on links, whose traits these forms have and tell in full, and on floor_text.
//!
//! | The call | What it promises |
//! |---|---|
//! | `MemLink::new`, its `take` and `put` | the script is played (`play`), with the calls that fail and no others |
//! | `MemDoor::new`, its `knock` | the links come in order and then none, with the knocks that fail and no others |
//! | `MemHall::new`, its `doors` | the doors come once and all together, with the calls that fail and no others |
//! | `Tape::byte` | nothing: a test reads what was put, from whichever thread |
//!
//! `specs/Scripts.antt` says what a script gives, `specs/Lines.antt` when a line that it waits for was put, and
//! `specs/Memory.antt` what contracts see of a link, a door and a hall.
#![tactic(auto)]

mod lines;
mod mem_door;
mod mem_hall;
mod mem_link;
mod say;
mod script;
mod tape;

pub use mem_door::MemDoor;
pub use mem_hall::MemHall;
pub use mem_link::MemLink;
pub use say::Say;
pub use tape::Tape;
