//! The words of the floor's lines, and the outside that lines come from and go to.
//!
//! It stands on `memchr` alone. `Refusal` numbers and names each reason for which a line is refused;
//! `Name` and `read_number` read exactly what the grammar has; `LineCutter` and `LineReader` cut a stream
//! into the same lines; `Source` and `Sink` say what the outside tells of its bytes and that a failure has
//! its cause there. `MemSource` and `MemSink` are the outside in memory, `ReaderSource`, `WriterSink` and
//! `BufferedSink` the standard library's readers and writers; `Calls`, `count_fault` and `write_whole` are what other
//! forms of the outside are made with.
#![tactic(auto)]

mod adapters;
mod calls;
mod held_bytes;
mod limits;
mod line_cutter;
mod line_reader;
mod list;
mod memory;
mod name;
mod number;
mod outside;
mod refusal;

pub use adapters::{BufferedSink, ReaderSource, WriterSink, count_fault, write_whole};
pub use calls::Calls;
pub use limits::{GREATEST_NUMBER, LONGEST_LINE, LONGEST_NAME};
pub use line_cutter::{Cut, LineCutter};
pub use line_reader::{LineReader, Next, ReadEnd};
pub use list::List;
pub use memory::{MemSink, MemSource};
pub use name::Name;
pub use number::read_number;
pub use outside::{Failed, Sink, Source};
pub use refusal::{Refusal, refusals_are_told_apart};
