//! A table's hand behind a history lock: desks act in it, and the table's worker brings it and takes it away.
//!
//! It stands on `history_lock`, `table_engine` and `player_view`, and on `dock_rules`, whose definitions say what the
//! history of a table is and when an answer stands at it. A pass sees that history, and each call that may wait makes
//! exactly one hold of its pass.
//!
//! | The call | What it promises |
//! |---|---|
//! | `make_dock` | a dock where no hand lies, with pass 0 for the worker and one for each desk |
//! | `TableDock::open_hand` | a hand lies there, unless memory ran out, which hands it back |
//! | `TableDock::act`, `TableDock::time` | the answer stands at the history that was found, and what was accepted is its one entry |
//! | `TableDock::close_hand` | the hand, with just the acts since it was opened, exactly where it is over |
//! | `TableDock::void_hand` | the hand, exactly where one lies there |
//! | `TableDock::read_lines` | just the lines of the entries that are told |
//! | `TableDock::follow` | the same of a piece, and how many entries the history has |
//! | `TableDock::news` | the count that it loaded is what the pass knows |
//! | `TableDock::close` | the history, which these passes alone made, and the hand that lies there, exactly where all passes are given |
//!
//! After every call the history that the pass has seen is legal, and the hand that lies there by it has its chips.
//! `specs/Kept.antt` has what holds of what lies behind the lock.
#![tactic(auto)]

mod called;
mod dock;
mod end;
mod gate;
mod hold;
mod making;

pub use dock::{TableDock, TablePass};
pub use end::{TableEnd, Untold};
pub use gate::Gate;
pub use hold::TableHold;
pub use making::make_dock;
