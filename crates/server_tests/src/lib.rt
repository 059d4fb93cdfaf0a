//! The tests of the server: sessions at desks and workers at their locks, on one thread, and whole runs over memory, in
//! threads. What is served is replayed offline.
//!
//! They are a crate of their own, since a crate with tests is proved twice.
//!
//! | file | what is in it |
//! |---|---|
//! | `client.rt` | clients in memory, and the transcripts of what they say and what is put to them |
//! | `sessions.rt` | scenes: sessions, orders, acts and doors, and the turns of workers between them |
//! | `serving.rt` | the server over memory: whole tournaments, what breaks around it, and many at once |
#![tactic(auto)]

#[cfg(test)]
mod client;
#[cfg(test)]
mod serving;
#[cfg(test)]
mod sessions;
