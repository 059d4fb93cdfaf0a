//! The words of a line: what reads them as fields, and what writes them.
//!
//! It stands on floor_text, card_set, rulebook, betting_round and seat_book. `LineWords` takes a line's words one after
//! another, each as a field (`Spelled`) of which every value has one spelling; `read_act` and `read_act_with` read the
//! words of an act, `read_few` the words that are left, without memory of the heap. `push_line` and `push_lines` write
//! lines of words (`Word`) and lists of what has one text (`WriteText`), and `whole_or_nothing` takes back what memory
//! did not last for.
#![tactic(auto)]

mod few;
mod field_words;
mod fields;
mod limits;
mod line_writer;
mod text;
mod words;

pub use few::{Few, read_few};
pub use field_words::{act_word, game_word, switch_word};
pub use fields::{Spelled, read_act, read_act_with};
pub use limits::MOST_MEMBERS;
pub use line_writer::{Word, push_line, push_lines, push_words};
pub use text::{WriteText, push_behind, push_joined, whole_or_nothing};
pub use words::{LineWords, is};
