//! A TCP stream that keeps a client's times. It tells no bytes.

use std::io::{self, ErrorKind, Read, Write};
use std::net::TcpStream;
use std::time::{Clock, Duration, Instant};

/// How many milliseconds after it answered that nothing is there a read answers so again, though bytes may wait.
const BREATH: u64 = 300;

/// Within how many seconds a client's first byte has to come.
const FIRST_BYTE: u64 = 60;

/// Within how many seconds a put has to be taken. It has one more for each `PUT_PIECE` bytes.
const PUT: u64 = 10;

/// How many bytes of a put give it one second more.
const PUT_PIECE: usize = 16_384;

/// How many seconds a write waits for a client who takes nothing, before it looks at the time.
const WRITE_PATIENCE: u64 = 1;

/// A put that is under way.
#[derive(Clone, Copy)]
struct Put {
    began: Instant,
    has: Duration,
}

impl Put {
    /// Begins a put of so many bytes, which has ten seconds and one more for each 16 KiB.
    fn new(now: Instant, count: usize) -> Put {
        let more = (count / PUT_PIECE) as u64;
        Put {
            began: now,
            has: Duration::from_secs(PUT.saturating_add(more)),
        }
    }

    /// Tells whether it has had its time.
    fn is_overdue(&self, now: Instant) -> bool {
        now.duration_since(self.began) >= self.has
    }
}

/// A TCP stream that breathes, wants a first byte within a minute, and has so long for each put.
#[derive(Drop)]
pub struct TimedStream<C> {
    stream: TcpStream,
    clock: C,
    // When a read last answered that nothing is there, and before one did when the stream was made.
    breathed: Instant,
    // When the stream was made. `None` once a byte came.
    silent_since: Option<Instant>,
    // The put under way.
    put: Option<Put>,
}

impl<C: Clock + Copy> TimedStream<C> {
    /// Keeps times from now on. The stream sends each write at once. It fails where the stream cannot be set so, and
    /// where the clock cannot be read.
    pub fn new(stream: TcpStream, clock: C) -> io::Result<TimedStream<C>> {
        stream.set_nodelay(true)?;
        stream.set_write_timeout(Some(Duration::from_secs(WRITE_PATIENCE)))?;
        let now = Instant::now(&clock)?;
        Ok(TimedStream {
            stream,
            clock,
            breathed: now,
            silent_since: Some(now),
            put: None,
        })
    }

    /// Has reads wait for bytes for so many milliseconds.
    pub fn wait_for(&self, milliseconds: u64) -> io::Result<()> {
        self.stream
            .set_read_timeout(Some(Duration::from_millis(milliseconds)))
    }

    /// Answers that nothing is there, or fails where a first byte is overdue.
    fn breathe(&mut self, now: Instant) -> io::Error {
        self.breathed = now;
        match self.silent_since {
            Some(since) if now.duration_since(since) >= Duration::from_secs(FIRST_BYTE) => {
                ErrorKind::ConnectionAborted.into()
            }
            _ => ErrorKind::WouldBlock.into(),
        }
    }
}

impl<C: Clock + Copy> Read for TimedStream<C> {
    /// Reads what is there. A breath after a read that found nothing it answers so again, though bytes may wait.
    fn read(&mut self, buffer: &mut [u8]) -> io::Result<usize> {
        let now = Instant::now(&self.clock)?;
        if now.duration_since(self.breathed) >= Duration::from_millis(BREATH) {
            return Err(self.breathe(now));
        }
        match self.stream.read(buffer) {
            Ok(count) => {
                self.silent_since = None;
                Ok(count)
            }
            Err(error) if found_nothing(&error) => Err(self.breathe(now)),
            Err(error) => Err(error),
        }
    }
}

impl<C: Clock + Copy> Write for TimedStream<C> {
    /// Writes some of the bytes. The first write behind a flush begins a put, and has all its bytes. Where none were
    /// taken for a second, it is to be called again. It fails once the put has had its time.
    fn write(&mut self, bytes: &[u8]) -> io::Result<usize> {
        let now = Instant::now(&self.clock)?;
        let put = self.put.unwrap_or(Put::new(now, bytes.len()));
        self.put = Some(put);
        if put.is_overdue(now) {
            return Err(ErrorKind::TimedOut.into());
        }
        match self.stream.write(bytes) {
            Err(error) if found_nothing(&error) => Err(ErrorKind::Interrupted.into()),
            written => written,
        }
    }

    /// Ends the put. Each write was sent at once.
    fn flush(&mut self) -> io::Result<()> {
        self.put = None;
        self.stream.flush()
    }
}

/// Tells whether nothing was there, or nothing was taken, while a call waited.
fn found_nothing(error: &io::Error) -> bool {
    matches!(error.kind(), ErrorKind::WouldBlock | ErrorKind::TimedOut)
}
