//! Whole runs of the server over memory.
//!
//! | file | what is in it |
//! |---|---|
//! | `run.rt` | a run over doors of clients by their transcripts, and the replay of what was served |
//! | `texts.rt` | the plan of the runs, and what is served of it |
//! | `served.rt` | a hand is served |
//! | `failing.rt` | what breaks around the server |
//! | `callers.rt` | clients who ask again and again, and their doors |
//! | `crowd.rt` | a thousand hands, in threads |
//! | `gate.rt` | a table goes on while another is held |

mod callers;
mod crowd;
mod failing;
mod gate;
mod run;
mod served;
mod texts;
