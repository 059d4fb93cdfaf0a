//! The worker of a table: it carries hands from the book to the table's dock, and back once they are over.
//!
//! It stands on book_dock and table_dock, and on dock_rules, whose definitions say what a journal and the history of a
//! table come to.
//!
//! | The call | What it promises |
//! |---|---|
//! | `Worker::new` | a worker with no hand |
//! | `Worker::turn` | what each answer means at the journal and the history that it found, and what was added to them |
//! | `Worker::parts`, `work_table` | what the worker brought to the journal is what happened at the table |
//! | `a_table_with_its_worker_alone_matches` | the table and the journal match, as the law of the whole asks |
//!
//! `specs/Ties.antt` ties what the worker brought to what happened, and `specs/Turns.antt` says what a turn does.
#![tactic(auto)]

mod bringing;
mod laws;
mod ordering;
mod returning;
mod stage;
mod turn;
mod waiting;
mod watch;
mod work;
mod worker;

pub use laws::a_table_with_its_worker_alone_matches;
pub use turn::Turn;
pub use work::work_table;
pub use worker::Worker;
