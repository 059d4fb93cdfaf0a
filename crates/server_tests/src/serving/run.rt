//! A run of the server over doors of clients by their transcripts, and the replay of what was served.

use crate::client::{FINE, Fault, Put, client_of};
use crate::sessions::SEED;
use floor_offline::run_offline;
use floor_online::serve;
use floor_text::{MemSink, MemSource};
use links::Hall;
use mem_links::{MemDoor, MemHall};
use std::alloc::{AllocError, Global};
use std::process::Abort;
use std::sync::Wait;
use std::thread::Threads;
use table_dock::Gate;

/// The numbers, from 1 on, of the calls that fail in a run: a take of the plan file, a put of out, one of err, the
/// opening of the doors, and a knock at the last door. With 0 none fails.
#[derive(Clone, Copy)]
pub struct Failing {
    pub take: u64,
    pub put: u64,
    pub tell: u64,
    pub doors: u64,
    pub knock: u64,
}

/// No call fails.
pub const NONE: Failing = Failing {
    take: 0,
    put: 0,
    tell: 0,
    doors: 0,
    knock: 0,
};

/// A client's transcript, and the number of the call that fails on his link.
pub type Said = (&'static str, u64);

/// What a run came to.
#[derive(Drop)]
pub struct Ran {
    pub status: u8,
    pub out: MemSink,
    pub err: MemSink,
}

/// Makes a list of one number.
fn one(rt: &impl Abort, alloc: Global, number: u64) -> Vec<u64> {
    Vec::from_array(alloc, [number]).expect(rt, "memory")
}

/// Gives the words of a command.
fn words_of(alloc: Global, command: &str) -> Result<Vec<String>, AllocError> {
    let mut words = Vec::new(alloc);
    for word in command.split(' ') {
        words.push(word.to_string(alloc)?)?;
    }
    Ok(words)
}

/// Makes a sink.
fn sink(rt: &impl Abort, alloc: Global, room: usize, failing: u64) -> MemSink {
    MemSink::new(alloc, room, one(rt, alloc, failing)).expect(rt, "memory")
}

/// Runs a command of the server over a plan file and a hall, where these calls fail.
pub fn run<R: Threads + Wait + Abort + Sync, H: Hall, G: Gate + Sync>(
    rt: &R,
    alloc: Global,
    command: &str,
    plan: &str,
    failing: Failing,
    hall: &mut H,
    gate: &G,
) -> Ran {
    let words = words_of(alloc, command).expect(rt, "memory");
    let plan = plan.as_bytes().to_vec(alloc).expect(rt, "memory");
    let mut input = MemSource::new(plan, one(rt, alloc, failing.take));
    let mut out = sink(rt, alloc, 1 << 20, failing.put);
    let mut err = sink(rt, alloc, 1 << 12, failing.tell);
    let status = serve(
        rt, alloc, &words, &mut input, &mut out, &mut err, hall, gate, SEED,
    );
    Ran { status, out, err }
}

/// Makes a door to which these clients come, one of whose knocks fails.
fn door_of(
    rt: &impl Abort,
    alloc: Global,
    clients: &[Said],
    knock: u64,
    puts: &mut Vec<Put>,
) -> MemDoor {
    let mut links = Vec::new(alloc);
    for (transcript, call) in clients {
        let fault = Fault {
            call: *call,
            ..FINE
        };
        let (link, put) = client_of(rt, alloc, "", transcript, fault);
        links.push(link).expect(rt, "memory");
        puts.push(put).expect(rt, "memory");
    }
    MemDoor::new(alloc, links, one(rt, alloc, knock)).expect(rt, "memory")
}

/// Makes a hall of such doors, and gives with it what is put on the links.
pub fn hall_of(
    rt: &impl Abort,
    alloc: Global,
    doors: &[&[Said]],
    failing: Failing,
) -> (MemHall, Vec<Put>) {
    let mut made = Vec::new(alloc);
    let mut puts = Vec::new(alloc);
    let mut left = doors.len();
    for clients in doors {
        left = left.saturating_sub(1);
        let knock = if left == 0 { failing.knock } else { 0 };
        let door = door_of(rt, alloc, clients, knock, &mut puts);
        made.push(door).expect(rt, "memory");
    }
    (MemHall::new(made, one(rt, alloc, failing.doors)), puts)
}

/// Tells whether a text is replayed offline: each of its lines is answered `ok`, and the report is that at its end.
pub fn replays(rt: &impl Abort, alloc: Global, text: &[u8]) -> bool {
    let words = words_of(alloc, "replay").expect(rt, "memory");
    let bytes = text.to_vec(alloc).expect(rt, "memory");
    let mut source = MemSource::new(bytes, Vec::new(alloc));
    let mut out = sink(rt, alloc, 1 << 20, 0);
    let mut err = sink(rt, alloc, 1 << 12, 0);
    let status = run_offline(alloc, &words, &mut source, &mut out, &mut err);
    status == 0 && is_answered(out.bytes(), text)
}

/// Tells whether each line of a text was answered `ok`, and the report at its end is behind the answers.
fn is_answered(put: &[u8], text: &[u8]) -> bool {
    let mut rest = put;
    for byte in text {
        if *byte == b'\n' {
            let Some(behind) = rest.strip_prefix(b"ok\n") else {
                return false;
            };
            rest = behind;
        }
    }
    rest.starts_with(b"* report\n") && text.ends_with(rest)
}
