//! Command lines: which words are written commands of a program, and how a run of one ends.
//!
//! It stands on floor_text, level_plan, line_words, floor_events and plan_files, and knows neither the program that
//! runs offline nor the server, which both stand on it. So the usage line, the statuses and the line that err holds
//! stand once.
//!
//! | The call | What it promises |
//! |---|---|
//! | `Command::read`, `Service::read` | just the written commands of the program that runs offline, and of the server |
//! | `command_words` | nothing: a program's words come from outside |
//! | `Fault::status`, `Fault::line` | the status and the line of each fault |
//! | `Fault::tell` | the line is put on err, or a front of it where err failed, and the status is given |
//! | `finish` | the status of a run: 0 where it ended well, and nothing is put; else that of its fault, which is told |
#![tactic(auto)]

mod command;
mod ending;
mod fault;
mod limits;
mod service;
mod words;

pub use command::Command;
pub use ending::finish;
pub use fault::Fault;
pub use limits::{LAST_PORT, MOST_DESKS, PLAN_LIMIT};
pub use service::Service;
pub use words::command_words;
