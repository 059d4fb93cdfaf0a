//! The program that serves a tournament: `serve` over the words that it was given, the standard streams, the ports of
//! this machine, and a seed that nobody knows. It stands on floor_text, command_lines, links, table_dock, floor_online
//! and `rand`.
#![tactic(auto)]

use command_lines::{Fault, command_words};
use floor_online::serve;
use floor_text::{BufferedSink, ReaderSource, WriterSink};
use links::TcpHall;
use rand::TryRng;
use rand::rngs::SysRng;
use std::process::ExitCode;
use std::random::RandomSource;
use table_dock::Gate;

/// A gate that nobody watches.
struct Open;

impl Gate for Open {
    fn held(&self, _table: u8) {}
}

/// Draws a seed from the system's source of random bytes. It is read as an input is, and fails as one.
fn draw_seed(rt: &impl RandomSource) -> Result<[u8; 32], Fault> {
    let mut seed = [0; 32];
    match SysRng::new(rt).try_fill_bytes(&mut seed) {
        Ok(()) => Ok(seed),
        Err(_) => Err(Fault::Read),
    }
}

fn main(rt: HostRuntime) -> ExitCode {
    let mut input = ReaderSource::new(rt.stdin());
    let mut err = WriterSink::new(rt.stderr());
    let Ok(mut out) = BufferedSink::new(rt.alloc(), rt.stdout()) else {
        return ExitCode::from(Fault::NoMemory.tell(&mut err));
    };
    let words = match command_words(&rt) {
        Ok(words) => words,
        Err(fault) => return ExitCode::from(fault.tell(&mut err)),
    };
    let seed = match draw_seed(&rt) {
        Ok(seed) => seed,
        Err(fault) => return ExitCode::from(fault.tell(&mut err)),
    };
    let mut hall = TcpHall::new(rt);
    let status = serve(
        &rt,
        rt.alloc(),
        &words,
        &mut input,
        &mut out,
        &mut err,
        &mut hall,
        &Open,
        seed,
    );
    ExitCode::from(status)
}
