//! The lines of a session: what a client says, and what is replied.
//!
//! It stands on floor_text, betting_round, line_words, plan_files and dock_rules. `read_line` tells what a line means
//! in a session, by who speaks there: a hello with the right word, an ask of the floor, an act of a player. `ReplyText`
//! has the text of a reply, for which it takes no memory.
#![tactic(auto)]

mod hello;
mod limits;
mod meaning;
mod reply;
mod request;

pub use hello::Speaker;
pub use limits::LONGEST_REPLY;
pub use meaning::{Meaning, read_line};
pub use reply::{Reply, ReplyText};
pub use request::Request;
