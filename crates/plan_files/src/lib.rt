//! Plan files: a whole file is read from its source, and what its TOML says is a plan, or names the wrong item.
//!
//! It stands on floor_text, card_set, rulebook, level_plan and line_words. `plan_from_toml` and `served_from_toml` give
//! the plan, and with it the session words; each item goes through the same `PlanDraft` as the lines of a plan do.
//! `plan_lines` gives the lines that make a plan again. `read_whole` reads a source to its end.
#![tactic(auto)]

mod file_value;
mod laws;
mod limits;
mod lines;
mod plan_file;
mod session_word;
mod whole;
mod words;

pub use laws::a_right_plan_is_read;
pub use limits::LONGEST_SESSION_WORD;
pub use lines::plan_lines;
pub use plan_file::{plan_from_toml, served_from_toml};
pub use session_word::SessionWord;
pub use whole::{WholeEnd, read_whole};
pub use words::{PlayerWord, Words};
