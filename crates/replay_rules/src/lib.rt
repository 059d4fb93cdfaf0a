//! What a stream of bytes is answered: the text of a replay, by the step of the tournament and the grammar of lines.
//!
//! It stands on tournament_rules and floor_events, and has definitions and no code: only what reads and writes lines
//! stands on it.
#![tactic(auto)]
