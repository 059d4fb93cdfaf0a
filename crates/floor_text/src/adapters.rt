//! A source over a reader and sinks over a writer of the standard library. A source tells no bytes; a
//! sink tells what its writer tells, which is none for a terminal, a file or a socket.

ghost use Rattle.std.specs.Prelude.{◌≡◌, ◌≤◌, ◌<◌, [], ◌++◌, Some, None, length, take, IfOk, IfSome, IsNone, is_err, if◌then◌else◌};
ghost use Rattle.std.specs.Io.KnownBytes.{Keeps};
ghost use Rattle.floor_text.specs.Outside.{HasCause, Takes, Puts};

use crate::limits::BLOCK;
use crate::outside::{Failed, Sink, Source};
use std::alloc::{AllocError, Global};
use std::io::{BufWriter, ErrorKind, Read, Write};

/// A source over a reader.
#[derive(Drop)]
pub struct ReaderSource<R> {
    reader: R,
    faults: u64,
}

impl<R: Read> ReaderSource<R> {
    /// Makes a source over this reader, which has not failed yet.
    pub fn new(reader: R) -> ReaderSource<R>
        ensures { ⟦<ReaderSource<R> as Source>⟧.faults result ≡ 0 }
    {
        ReaderSource { reader, faults: 0 }
    }
}

impl<R: Read> Source for ReaderSource<R> {
    ghost left = { λ _. None };

    ghost faults = { λ s. s.faults };

    /// Reads once, or again where the read was interrupted. Any other error is a fault, and is counted.
    fn take(&mut self, buffer: &mut [u8]) -> Result<usize, Failed> {
        let taken = read_once(&mut self.reader, buffer).ok_or(Failed);
        count_fault(&mut self.faults, taken)
    }
}

/// Reads what the reader has, into the front of the buffer. `None` where it failed.
fn read_once<R: Read>(reader: &mut R, buffer: &mut [u8]) -> Option<usize>
    ensures count { IfSome result (λ n. n ≤ length buffer.new) }
    ensures bytes { IfSome result (λ n. IfSome (R.remaining reader.old)
        (λ bytes. Takes bytes (R.remaining reader.new) buffer.new n)) }
    ensures kept { IsNone result → Keeps (R.remaining reader.old) (R.remaining reader.new) }
{
    for _turn in 0..u64::MAX {
        match reader.read(buffer) {
            Ok(n) => return Some(n),
            Err(error) if error.kind() == ErrorKind::Interrupted => {}
            Err(_) => return None,
        }
    }
    None
}

/// A sink over a writer, which it flushes at each put. It holds nothing back.
#[derive(Drop)]
pub struct WriterSink<W> {
    writer: W,
    faults: u64,
}

impl<W: Write> WriterSink<W> {
    /// Makes a sink over this writer, which has not failed yet.
    pub fn new(writer: W) -> WriterSink<W>
        ensures written { ⟦<WriterSink<W> as Sink>⟧.written result ≡ W.contents writer }
        ensures faults { ⟦<WriterSink<W> as Sink>⟧.faults result ≡ 0 }
    {
        WriterSink { writer, faults: 0 }
    }
}

impl<W: Write> Sink for WriterSink<W> {
    ghost written = { λ s. W.contents s.writer };

    ghost faults = { λ s. s.faults };

    /// Hands all the bytes to the writer, and flushes it. A write is made again where it was interrupted; one that
    /// takes none of the bytes is a fault, as any other error is, and is counted.
    fn put(&mut self, bytes: &[u8]) -> Result<(), Failed> {
        let result = write_whole(&mut self.writer, bytes);
        let flushed = self.writer.flush().map_err(|_| Failed);
        count_fault(&mut self.faults, result.and(flushed))
    }
}

/// A sink over a writer that holds back up to 64 KiB of what is put for later: it is written where there is no more
/// room for it, and at the next put.
#[derive(Drop)]
pub struct BufferedSink<W: Write + Drop> {
    buffer: BufWriter<W>,
    faults: u64,
}

impl<W: Write + Drop> BufferedSink<W> {
    /// Makes a sink over this writer, which has not failed yet and holds nothing back. It takes the room that it needs.
    pub fn new(alloc: Global, writer: W) -> Result<BufferedSink<W>, AllocError>
        ensures written { IfOk result (λ sink. IfSome (W.contents writer)
            (λ bytes. ⟦<BufferedSink<W> as Sink>⟧.written sink ≡ Some bytes)) }
        ensures held { IfOk result (λ sink. ⟦<BufferedSink<W> as Sink>⟧.held sink ≡ []) }
        ensures faults { IfOk result (λ sink. ⟦<BufferedSink<W> as Sink>⟧.faults sink ≡ 0) }
    {
        match BufWriter::with_capacity(alloc, BLOCK, writer) {
            Ok(buffer) => Ok(BufferedSink { buffer, faults: 0 }),
            Err(_) => Err(AllocError),
        }
    }
}

impl<W: Write + Drop> Sink for BufferedSink<W> {
    ghost use Rattle.std.specs.Io.Buffered.{writer_buffer, writer_contents, writer_inner};

    ghost written = { λ s. writer_contents W.contents s.buffer };

    ghost held = { λ s. writer_buffer s.buffer };

    ghost faults = { λ s. s.faults };

    /// Writes what it holds back and then the bytes, and flushes the writer. A write is made again where it was
    /// interrupted; one that takes none of the bytes is a fault, as any other error is, and is counted.
    fn put(&mut self, bytes: &[u8]) -> Result<(), Failed> {
        let result = write_whole(&mut self.buffer, bytes);
        let flushed = self.buffer.flush().map_err(|_| Failed);
        count_fault(&mut self.faults, result.and(flushed))
    }

    /// Holds the bytes back, or writes what it has no room for, as `put` does.
    // It and what it calls are compiled into its callers, so that a text of known length is held back without a call.
    #[inline(always)]
    fn put_later(&mut self, bytes: &[u8]) -> Result<(), Failed> {
        let result = write_whole(&mut self.buffer, bytes);
        count_fault(&mut self.faults, result)
    }
}

/// Counts a fault where the call failed, and hands on what it answered.
pub fn count_fault<T>(faults: &mut u64, answer: Result<T, Failed>) -> Result<T, Failed>
    ensures same { result ≡ answer }
    ensures cause { HasCause faults.old faults.new result }
{
    if answer.is_err() {
        *faults = faults.saturating_add(1);
    }
    answer
}

/// Hands all the bytes to the writer. A write is made again where it was interrupted; one that takes none of the bytes
/// is a fault, as any other error is.
#[inline(always)]
pub fn write_whole<W: Write>(writer: &mut W, bytes: &[u8]) -> Result<(), Failed>
    ensures { IfSome (W.contents writer.old) (λ before. Puts before bytes.now (W.contents writer.new) result) }
{
    let mut rest = bytes;
    'write: while !rest.is_empty() {
        let Some(n) = write_once(writer, rest) else {
            return Err(Failed);
        };
        rest = &rest[n..];
    }
    Ok(())
}

/// Writes some of the bytes. `None` where the writer failed or took none of them.
#[inline(always)]
fn write_once<W: Write>(writer: &mut W, bytes: &[u8]) -> Option<usize>
    ensures count { IfSome result (λ n. (0 < n) × (n ≤ length bytes.now)) }
    ensures some { IfSome result (λ n. IfSome (W.contents writer.old)
        (λ before. W.contents writer.new ≡ Some (before ++ take n bytes.now))) }
    ensures none { IsNone result → IfSome (W.contents writer.old) (λ before. W.contents writer.new ≡ Some before) }
{
    for _turn in 0..u64::MAX {
        match writer.write(bytes) {
            Ok(0) => return None,
            Ok(n) => return Some(n),
            Err(error) if error.kind() == ErrorKind::Interrupted => {}
            Err(_) => return None,
        }
    }
    None
}
