//! Tellers of lines: what answers the lines of an input, and what tells a player of them.
//!
//! It stands on floor_core, floor_view, floor_events, command_lines and floor_text. `replay` answers each line and puts
//! the report behind the answers, `view` puts what a player is told of each line, and `close` has a sink let go of what
//! it holds back. What was put of the bytes that were taken, where a run fails, stands in `Promise`.
#![tactic(auto)]

mod answers;
mod lines;
mod teller;
mod views;

pub use answers::replay;
pub use lines::close;
pub use views::view;
