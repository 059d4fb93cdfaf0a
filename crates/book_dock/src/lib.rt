//! The book and its journal behind a history lock. Whoever has a pass begins hands and settles them, and asks for what
//! the floor does; each call stands at the journal that its pass has seen once it returns.
//!
//! It stands on history_lock, on dock_rules, whose definitions say what a journal comes to and what is answered at it,
//! and on floor_book, floor_director and player_view.
//!
//! | The call | What it promises |
//! |---|---|
//! | `make_book` | passes that have seen the plan's lines and their end |
//! | `BookDock::begin`, `BookDock::order` | the answer and the entry that stand at the journal, with deck and draw |
//! | `BookDock::settle` | the entry with the acts of the hand, or the record back once the tournament is stopped |
//! | `BookDock::where_is`, `BookDock::stopped`, `BookDock::read_lines`, `BookDock::follow` | what is so at the journal, with no entry |
//! | `BookDock::close`, `BookEnd::journal`, `BookEnd::report` | the journal, which is the opening with entries of the passes behind it, and how the tournament stands after it |
//!
//! What lies behind the lock is a `BookHold`: its journal is legal in every hold, its book is what the journal comes
//! to, and there is room for what is owed to the hands that are out.
#![tactic(auto)]

mod begin;
mod dock;
mod end;
mod followed;
mod hold;
mod lines;
mod opening;
mod order;
mod room;
mod settle;

pub use dock::{BookDock, BookPass, make_book};
pub use dock_rules::{Ask, AskAnswer};
pub use end::BookEnd;
pub use followed::Followed;
pub use hold::BookHold;
pub use settle::SettleEnd;
