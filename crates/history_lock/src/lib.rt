//! A ticket lock round a value that knows its own history.
//!
//! A thread that holds a pass finds, each time it enters, a value whose history begins with all that
//! this pass has seen, and has of its own entries just those that it made.
//! It stands on `atomic_table` alone, and on `crossbeam_utils` for how it spins.
//!
//! | The call | What it promises |
//! |---|---|
//! | `make` | passes 0 to n - 1, each of which has seen the history that the value brought |
//! | `HistoryLock::enter` | what the value that is found has to do with the pass |
//! | `HistoryLock::leave` | the pass has seen the history that it left, and its own list has grown by what it added |
//! | `HistoryLock::news` | the count that it loaded is what the pass knows |
//! | `HistoryLock::await_news`, `await_news_within` | what the pass knows is below neither what it knew nor what it has seen, and it is else unchanged |
//! | `HistoryLock::wake` | nothing: it wakes who awaits news |
//! | `HistoryLock::close` | the value comes exactly where all passes are given, its history fits each of them, and behind the opening it is theirs alone |
//! | `Inside::value`, `Inside::value_mut` | the value inside, and what a write through it leaves |
//!
//! `opener_is_that_of_the_rules` says what number `OPENER` is.
//!
//! `specs/Rule.antt` has the rule that holds between any two steps, and `specs/Steps.antt` what each kind of step
//! tells.
#![tactic(auto)]

mod bells;
mod closing;
mod diary;
mod entering;
mod grows;
mod inside;
mod laws;
mod lends;
mod lock;
mod making;
mod news;
mod pass;
mod plays;
mod rule;
mod view;

pub use closing::NotAll;
pub use grows::{Grows, OPENER};
pub use inside::Inside;
pub use laws::opener_is_that_of_the_rules;
pub use lock::HistoryLock;
pub use making::make;
pub use pass::Pass;
