//! The tests of the history lock and of the docks behind it.
//!
//! | File | What it tests |
//! |---|---|
//! | `lock` | the history lock round a small value of its own (`diary`), on one thread and on several |
//! | `table` | the dock of a table, by what desks ask (`desk`) of a hand (`hand`) |
//! | `told` | the lines that the dock of a table tells |
//! | `book` | the dock of the book, by scripts (`script`) of what is asked there |
//!
//! `passes` takes passes out of their list, and lets through what may cross to another thread.
#![tactic(auto)]

#[cfg(test)]
mod book;
#[cfg(test)]
mod desk;
#[cfg(test)]
mod diary;
#[cfg(test)]
mod hand;
#[cfg(test)]
mod lock;
#[cfg(test)]
mod passes;
#[cfg(test)]
mod script;
#[cfg(test)]
mod table;
#[cfg(test)]
mod told;
