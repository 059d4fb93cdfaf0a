//! Events, answers and reports, and the text of each.
//!
//! It stands on floor_text, card_set, level_plan, betting_round, seat_book and line_words. `read_item` reads just the
//! lines of the grammar: notes, and events, each of which has one spelling; `write_event`, `write_answer` and
//! `write_report` write just the text of an event, of an answer and of a report. `laws` has what holds of all lines.
#![tactic(auto)]

mod act_reader;
mod answer_writer;
mod event_writer;
mod item_reader;
pub mod laws;
mod list_reader;
mod report_writer;

pub use act_reader::{ActLine, read_act};
pub use answer_writer::write_answer;
pub use event_writer::write_event;
pub use item_reader::read_item;
pub use report_writer::write_report;
