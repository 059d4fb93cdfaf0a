//! A link over a stream of the standard library, such as a TCP stream. It tells no bytes.
ghost use Rattle.std.specs.Prelude.{◌≡◌, None, IfOk, length};
ghost use Rattle.links.specs.Links.{FitsBuffer};

use crate::link::{Link, Taken};
use floor_text::{Failed, count_fault, write_whole};
use std::io::{ErrorKind, Read, Write};

/// A link over a stream. A read that would wait, or that has waited for as long as the stream allows, is Idle.
#[derive(Drop)]
pub struct StreamLink<S> {
    stream: S,
    faults: u64,
}

impl<S: Read + Write> StreamLink<S> {
    /// Makes a link over this stream, which has not failed yet.
    pub fn new(stream: S) -> StreamLink<S>
        ensures { ⟦<StreamLink<S> as Link>⟧.faults result ≡ 0 }
    {
        StreamLink { stream, faults: 0 }
    }

    /// Lends the stream, so that it may be set otherwise.
    pub(crate) fn stream(&self) -> &S {
        &self.stream
    }
}

impl<S: Read + Write> Link for StreamLink<S> {
    ghost told = { λ _. None };

    ghost faults = { λ l. l.faults };

    /// Reads once, or again where the read was interrupted. Any other error is a fault, and is counted. Without room in
    /// the buffer nothing is read, and the answer is Idle.
    fn take(&mut self, buffer: &mut [u8]) -> Result<Taken, Failed> {
        let taken = read_once(&mut self.stream, buffer);
        count_fault(&mut self.faults, taken)
    }

    /// Hands all the bytes to the stream, and flushes it. A write that takes none of them is a fault, as any other
    /// error is, and is counted.
    fn put(&mut self, bytes: &[u8]) -> Result<(), Failed> {
        let result = write_whole(&mut self.stream, bytes);
        let flushed = self.stream.flush().map_err(|_| Failed);
        count_fault(&mut self.faults, result.and(flushed))
    }
}

/// Reads what is there, into the front of the buffer.
fn read_once<S: Read>(stream: &mut S, buffer: &mut [u8]) -> Result<Taken, Failed>
    ensures { IfOk result (λ taken. FitsBuffer taken (length buffer.new)) }
{
    if buffer.is_empty() {
        return Ok(Taken::Idle);
    }
    for _turn in 0..u64::MAX {
        match stream.read(buffer) {
            Ok(0) => return Ok(Taken::End),
            Ok(n) => return Ok(Taken::Bytes(n)),
            Err(error) => match error.kind() {
                ErrorKind::Interrupted => {}
                ErrorKind::WouldBlock | ErrorKind::TimedOut => return Ok(Taken::Idle),
                _ => return Err(Failed),
            },
        }
    }
    Ok(Taken::Idle)
}
