//! The book of a tournament: what each event makes of it, but for the acts of hands.
//!
//! It stands on tournament_rules, whose definitions say what each event is answered and what it makes of the state.
//! `Book` keeps all of a tournament but the acts of the hands that are out: who entered, who sits where, who is out,
//! and the starts of those hands.
#![tactic(auto)]

mod act;
mod balance;
mod begin;
mod book;
mod breaking;
mod bust;
mod checks;
mod enter;
mod level;
mod moving;
mod order;
mod pay;
mod race;
mod reenter;
mod report;
mod rounds;
mod settle;
mod slots;
mod stop;

pub use book::Book;
pub use slots::{clear_slots, empty_slots};
pub use table_engine::ActFault as BookFault;
