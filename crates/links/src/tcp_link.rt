//! A link over a TCP stream, whose reads wait the longer the longer nothing happens. It tells no bytes.
ghost use Rattle.std.specs.Prelude.{◌≡◌, ◌+◌, ◌<◌, ◌≤◌, ℕ, None, IfOk};
ghost use Rattle.links.specs.declared.patience.TheConstants.{LEAST_PATIENCE, MOST_PATIENCE};

use crate::link::{Link, Taken};
use crate::patience::{LEAST_PATIENCE, MOST_PATIENCE, longer};
use crate::stream_link::StreamLink;
use crate::timed_stream::TimedStream;
use floor_text::Failed;
use std::io;
use std::net::TcpStream;
use std::time::Clock;

/// A link over a TCP stream. Its reads wait for 20 milliseconds right after bytes were taken or put. Each Idle makes
/// them wait for one more, up to 160, so that a silent client needs little of a processor. At least twice a second it
/// gives an Idle, though the client never falls silent. It fails where no byte came within the first minute, and where
/// what is put is not taken within ten seconds and one more for each 16 KiB.
#[derive(Drop)]
pub struct TcpLink<C> {
    link: StreamLink<TimedStream<C>>,
    // How many milliseconds a read waits, as the stream was last set.
    patience: u64,
    ghost least: { LEAST_PATIENCE ≤ patience },
    ghost most: { patience ≤ MOST_PATIENCE },
}

impl<C: Clock + Copy> TcpLink<C> {
    /// Makes a link over this stream, which has not failed yet. It sends each write at once. It fails where the stream
    /// cannot be set so, and where the clock cannot be read.
    pub fn new(stream: TcpStream, clock: C) -> io::Result<TcpLink<C>>
        ensures { IfOk result (λ link. ⟦<TcpLink<C> as Link>⟧.faults link ≡ 0) }
    {
        let stream = TimedStream::new(stream, clock)?;
        stream.wait_for(LEAST_PATIENCE)?;
        Ok(TcpLink {
            link: StreamLink::new(stream),
            patience: LEAST_PATIENCE,
        })
    }

    /// Has reads wait for so many milliseconds. Where the stream cannot be set they wait for as long as before. That is
    /// no fault, since bytes come and go as ever.
    fn set_patience(&mut self, patience: u64)
        requires least { LEAST_PATIENCE ≤ patience }
        requires most { patience ≤ MOST_PATIENCE }
        ensures { self.new.link ≡ self.old.link }
    {
        if patience == self.patience {
            return;
        }
        if self.link.stream().wait_for(patience).is_ok() {
            self.patience = patience;
        }
    }
}

impl<C: Clock + Copy> Link for TcpLink<C> {
    ghost told = { λ _. None };

    ghost faults = { λ l. ⟦<StreamLink<TimedStream<C>> as Link>⟧.faults l.link };

    /// Takes as a link over a stream does, and sets how long the next take waits.
    fn take(&mut self, buffer: &mut [u8]) -> Result<Taken, Failed> {
        let taken = self.link.take(buffer);
        self.set_patience(patience_after(taken, self.patience));
        taken
    }

    /// Puts as a link over a stream does. The next take waits for 20 milliseconds.
    fn put(&mut self, bytes: &[u8]) -> Result<(), Failed> {
        let put = self.link.put(bytes);
        self.set_patience(LEAST_PATIENCE);
        put
    }
}

/// Gives how many milliseconds the next read waits, after a take that waited for so many.
fn patience_after(taken: Result<Taken, Failed>, patience: u64) -> u64
    requires least { LEAST_PATIENCE ≤ patience }
    requires most { patience ≤ MOST_PATIENCE }
    ensures bytes { (n : ℕ) → taken ≡ Ok (Taken.Bytes n) → result ≡ LEAST_PATIENCE }
    ensures longer { taken ≡ Ok Taken.Idle → patience < MOST_PATIENCE → result ≡ patience + 1 }
    ensures longest { taken ≡ Ok Taken.Idle → patience ≡ MOST_PATIENCE → result ≡ MOST_PATIENCE }
    ensures least { LEAST_PATIENCE ≤ result }
    ensures most { result ≤ MOST_PATIENCE }
{
    match taken {
        Ok(Taken::Bytes(_)) => LEAST_PATIENCE,
        Ok(Taken::Idle) => longer(patience),
        _ => patience,
    }
}
