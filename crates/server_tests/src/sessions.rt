//! Scenes of sessions at desks over links and doors in memory, on one thread.
//!
//! | file | what is in it |
//! |---|---|
//! | `scene.rt` | what is done in a scene, deed by deed |
//! | `hall.rt` | the book and the docks of a plan, with the workers and the desks |
//! | `talks.rt`, `attending.rt` | a session, whole or turn by turn, and a desk at a door |
//! | `left.rt` | the acts that were asked for, and what is left once the locks are opened |
//! | the others | tables of scenes |

mod attending;
mod hall;
mod left;
mod scene;
mod talks;

pub use hall::{Open, SEED};

mod doors;
mod entered;
mod faults;
mod lines;
mod orders;
mod played;
mod players;
mod refusals;
