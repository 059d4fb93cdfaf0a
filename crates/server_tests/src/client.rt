//! Clients in memory, and the transcripts of their sessions.

use mem_links::{MemLink, Say, Tape};
use std::alloc::Global;
use std::process::Abort;

/// How many bytes a link has room for.
const ROOM: usize = 4096;

/// How often a client waits for a line that comes, and for one that may not.
const TURNS: u64 = 10_000_000;

const FEW_TURNS: u64 = 100_000;

/// What fails on a client's link, and how much of his transcript is put there.
#[derive(Clone, Copy)]
pub struct Fault {
    /// The number of the call that fails, from 1.
    pub call: u64,
    /// For how many bytes more than are put there is room.
    pub bytes: usize,
    /// How many parts of the transcript are put. An empty line stands between two parts.
    pub parts: usize,
}

/// Nothing fails.
pub const FINE: Fault = Fault {
    call: 0,
    bytes: ROOM,
    parts: usize::MAX,
};

/// What was put on a client's link, and what is to be.
#[derive(Drop)]
pub struct Put {
    tape: Tape,
    wanted: Vec<u8>,
}

/// Adds bytes behind others.
pub fn add(rt: &impl Abort, bytes: &mut Vec<u8>, more: &[u8]) {
    bytes.extend_from_slice(more).expect(rt, "memory");
}

/// Gives bytes in which `|` stands for a line feed and `%` for a hundred letters, and others behind them.
fn bytes_of(rt: &impl Abort, alloc: Global, text: &[u8], behind: &[u8]) -> Vec<u8> {
    let mut bytes = Vec::new(alloc);
    for byte in text {
        match *byte {
            b'|' => add(rt, &mut bytes, b"\n"),
            b'%' => add(rt, &mut bytes, &[b'x'; 100]),
            other => add(rt, &mut bytes, &[other]),
        }
    }
    add(rt, &mut bytes, behind);
    bytes
}

/// Tells how often a client waits who waits by this mark.
fn turns_by(mark: u8) -> u64 {
    match mark {
        b'?' => TURNS,
        b'&' => FEW_TURNS,
        _ => 1,
    }
}

/// Reads off a line of a transcript what the client does, if it tells that.
///
/// | The line | What he does |
/// |---|---|
/// | `> quit` | he says this line |
/// | `~ a|b` | he says these bytes at once, in which `|` stands for a line feed |
/// | `? 1: hand` | he waits for a line that begins so |
/// | `& 1: hand` | he waits for one that may not come |
/// | `! 1: hand` | he waits once, and goes on |
/// | `.` | his end |
fn say_of(rt: &impl Abort, alloc: Global, line: &str) -> Option<Say> {
    let (mark, text) = line.as_bytes().split_first()?;
    let text = text.get(1..).unwrap_or(b"");
    match *mark {
        b'.' => Some(Say::Finish),
        b'>' => Some(Say::Give(bytes_of(rt, alloc, text, b"\n"))),
        b'~' => Some(Say::Give(bytes_of(rt, alloc, text, b""))),
        b'?' | b'&' | b'!' => Some(Say::WaitFor {
            front: bytes_of(rt, alloc, text, b""),
            turns: turns_by(*mark),
        }),
        _ => None,
    }
}

/// Reads the script of the client off a transcript.
fn script_of(rt: &impl Abort, alloc: Global, transcript: &str) -> Vec<Say> {
    let mut script = Vec::new(alloc);
    for line in transcript.lines() {
        if let Some(say) = say_of(rt, alloc, line) {
            script.push(say).expect(rt, "memory");
        }
    }
    script
}

/// Tells whether a line of a transcript is put on the link, and does not tell what the client does.
fn is_put(line: &str) -> bool {
    match line.as_bytes().first() {
        Some(mark) => !b".>~?&!".contains(mark),
        None => false,
    }
}

/// Reads off the first parts of a transcript what is put on the link: the lines that do not tell what the client does.
/// `# PLAN` stands for those that are told of the plan.
pub fn text_of(
    rt: &impl Abort,
    alloc: Global,
    plan: &str,
    transcript: &str,
    parts: usize,
) -> Vec<u8> {
    let mut text = Vec::new(alloc);
    let mut part = 1usize;
    for line in transcript.lines() {
        if line.is_empty() {
            part = part.saturating_add(1);
        }
        if part > parts {
            break;
        }
        if line == "# PLAN" {
            add(rt, &mut text, plan.as_bytes());
        } else if is_put(line) {
            add(rt, &mut text, line.as_bytes());
            add(rt, &mut text, b"\n");
        }
    }
    text
}

/// Makes the client of a transcript, on whose link this fails.
pub fn client_of(
    rt: &impl Abort,
    alloc: Global,
    plan: &str,
    transcript: &str,
    fault: Fault,
) -> (MemLink, Put) {
    let script = script_of(rt, alloc, transcript);
    let wanted = text_of(rt, alloc, plan, transcript, fault.parts);
    let room = wanted.len().saturating_add(fault.bytes).min(ROOM);
    let failing = Vec::from_array(alloc, [fault.call]).expect(rt, "memory");
    let (link, tape) = MemLink::new(alloc, script, room, failing).expect(rt, "memory");
    (link, Put { tape, wanted })
}

impl Put {
    /// Wants this to be put behind what is wanted.
    pub fn want(&mut self, rt: &impl Abort, text: &[u8]) {
        add(rt, &mut self.wanted, text);
    }

    /// Reads the lines that were put, or the replies among them.
    fn lines(&self, rt: &impl Abort, alloc: Global, replies: bool) -> Vec<u8> {
        let mut text = Vec::new(alloc);
        let mut begins = true;
        let mut wanted = true;
        for place in 0..ROOM {
            let Some(byte) = self.tape.byte(place) else {
                break;
            };
            if begins {
                wanted = !replies || byte == b'=';
            }
            begins = byte == b'\n';
            if wanted {
                add(rt, &mut text, &[byte]);
            }
        }
        text
    }

    /// Tells whether just what is wanted was put.
    pub fn is_all(&self, rt: &impl Abort, alloc: Global) -> bool {
        self.lines(rt, alloc, false).as_slice() == self.wanted.as_slice()
    }

    /// Tells whether the replies that were put are those wanted, whatever news were put between them.
    pub fn has_replies(&self, rt: &impl Abort, alloc: Global) -> bool {
        self.lines(rt, alloc, true).as_slice() == self.wanted.as_slice()
    }
}
