//! The program that runs tournaments offline: `run_offline` over the words that it was given and the standard
//! streams. It stands on floor_text, command_lines and floor_offline.
#![tactic(auto)]

use command_lines::{Fault, command_words};
use floor_offline::run_offline;
use floor_text::{BufferedSink, ReaderSource, WriterSink};
use std::process::ExitCode;

fn main(rt: HostRuntime) -> ExitCode {
    let mut input = ReaderSource::new(rt.stdin());
    let mut err = WriterSink::new(rt.stderr());
    let Ok(mut out) = BufferedSink::new(rt.alloc(), rt.stdout()) else {
        return ExitCode::from(Fault::NoMemory.tell(&mut err));
    };
    let words = match command_words(&rt) {
        Ok(words) => words,
        Err(fault) => return ExitCode::from(fault.tell(&mut err)),
    };
    let status = run_offline(rt.alloc(), &words, &mut input, &mut out, &mut err);
    ExitCode::from(status)
}
