//! Sessions, and the desks that serve them one after another.
//!
//! It stands on links, session_lines, table_dock and book_dock. A `Desk` has a pass of the book and one of each table.
//! A `Session` serves one client with them: `turn` handles a line that is held, or else takes once from the link.
//! `serve_session` makes turns until the session is over, and `work_desk` serves the clients of a door until the
//! tournament is stopped.
#![tactic(auto)]

mod asking;
mod desk;
mod exchange;
mod inbox;
mod laws;
mod news;
mod session;
mod sessions;
mod told;
mod turn;
mod work;

pub use desk::{Asked, Desk};
pub use laws::a_client_is_told_in_order;
pub use links::{Door, Hall, HallFault, Link, StreamLink, Taken, TcpDoor, TcpHall, TcpLink};
pub use session::{Session, SessionEnd, Step};
pub use sessions::serve_session;
pub use work::work_desk;
