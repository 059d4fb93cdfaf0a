//! The tests of lines, of what is read from them and written to them, and of the program that runs offline.
//!
//! | file | what it tests |
//! |---|---|
//! | `text.rt` | bytes and their lines, sources and sinks, names and numbers |
//! | `words.rt`, `events.rt` | the words of a line, and what a line of the list says |
//! | `asks.rt`, `command.rt` | what the clients of a session say and are replied, and the words of the server |
//! | `plan.rt`, `files.rt` | plans line by line, and plan files |
//! | `link.rt` | links, doors and halls, in memory and over TCP |
//! | `refusals.rt`, `faults.rt` | runs over memory that are refused, and runs in which a call fails |
//! | `replays.rt` | whole runs with antes, fixed limit and re-entries |
//! | `outside.rt` | a source and a sink of somebody's own |
//! | `books.rt` | a book by hand beside a tournament, by the scripts of `book_scripts.rt` |
//!
//! Whole runs stand in `examples/`, where the built program plays them. `texts.rt`, `plans.rt` and `runs.rt` are what
//! these tests share.
#![tactic(auto)]

#[cfg(test)]
mod asks;
#[cfg(test)]
mod book_scripts;
#[cfg(test)]
mod books;
#[cfg(test)]
mod command;
#[cfg(test)]
mod events;
#[cfg(test)]
mod faults;
#[cfg(test)]
mod files;
#[cfg(test)]
mod link;
#[cfg(test)]
mod outside;
#[cfg(test)]
mod plan;
#[cfg(test)]
mod plans;
#[cfg(test)]
mod refusals;
#[cfg(test)]
mod replays;
#[cfg(test)]
mod runs;
#[cfg(test)]
mod text;
#[cfg(test)]
mod texts;
#[cfg(test)]
mod words;
