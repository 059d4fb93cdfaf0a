//! The tournament, event by event: a book, and hands apart.
//!
//! `Tournament` is a plan's draft until `go`, and then a book and its hands by table. The book is a crate of its own,
//! floor_book, for whoever has hands elsewhere; its names stand here too.
#![tactic(auto)]

mod plan;
mod play;
mod tournament;

pub use floor_book::{Book, BookFault};
pub use tournament::Tournament;
