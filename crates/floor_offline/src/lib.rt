//! Tournaments run offline: lines in, answers and a report out, or what a player is told, and simulated tournaments.
//!
//! It stands on line_tellers, floor_simulation, plan_files, command_lines and floor_text. `run_offline` is the
//! whole program over any source and sinks, and its contract says what the program promises: what it wrote is the text
//! that the command makes of what it read.
#![tactic(auto)]

mod run;
mod simulate;

pub use run::run_offline;
