//! A door over a TCP listener. It tells no links.
ghost use Rattle.std.specs.Prelude.{◌≡◌, ◌≤◌, None, IfOk};
ghost use Rattle.links.specs.declared.patience.TheConstants.{MOST_PATIENCE};

use crate::door::Door;
use crate::patience::{LEAST_PATIENCE, longer};
use crate::tcp_link::TcpLink;
use floor_text::Failed;
use std::net::{TcpListener, TcpStream};
use std::time::{Clock, Duration};
use std::{io, thread};

/// Linux's number for a descriptor that is not open.
const NO_DESCRIPTOR: i32 = 9;

/// Linux's number for a socket that does not listen.
const NO_LISTENER: i32 = 22;

/// Linux's number for a descriptor that is no socket.
const NO_SOCKET: i32 = 88;

/// A door over a TCP listener that does not block. Where nobody came it sleeps: for 20 milliseconds right after
/// somebody did, and for one more each time, up to 160, so that a desk which knocks again and again needs hardly any of
/// a processor. What may pass, such as a shortage of descriptors, of buffers or of memory, counts as nobody. A fault is
/// a listener that is no more.
#[derive(Drop)]
pub struct TcpDoor<C> {
    listener: TcpListener,
    clock: C,
    // How many milliseconds the door sleeps where nobody comes next.
    patience: u64,
    faults: u64,
    ghost most: { patience ≤ MOST_PATIENCE },
}

impl<C: Clock + Copy + Send> TcpDoor<C> {
    /// Makes a door over this listener, which has not failed yet. It fails where the listener cannot be set not to
    /// block.
    pub fn new(listener: TcpListener, clock: C) -> io::Result<TcpDoor<C>>
        ensures { IfOk result (λ door. ⟦<TcpDoor<C> as Door>⟧.faults door ≡ 0) }
    {
        TcpDoor::over(listener, clock)
    }
}

impl<C: Clock + Copy> TcpDoor<C> {
    /// Makes a door as `new` does, also where it is not known that the clock may go to another thread.
    pub(crate) fn over(listener: TcpListener, clock: C) -> io::Result<TcpDoor<C>>
        ensures { IfOk result (λ door. door.faults ≡ 0) }
    {
        listener.set_nonblocking(true)?;
        Ok(TcpDoor {
            listener,
            clock,
            patience: LEAST_PATIENCE,
            faults: 0,
        })
    }
}

impl<C: Clock + Copy + Send> Door for TcpDoor<C> {
    type L = TcpLink<C>;

    ghost told = { λ _. None };

    ghost faults = { λ d. d.faults };

    /// Accepts one client, or sleeps where nobody came. One whose stream cannot be set up counts as nobody.
    fn knock(&mut self) -> Result<Option<TcpLink<C>>, Failed> {
        match accept(&self.listener) {
            Ok(Some(stream)) => {
                self.patience = LEAST_PATIENCE;
                Ok(TcpLink::new(stream, self.clock).ok())
            }
            Ok(None) => {
                thread::sleep(&self.clock, Duration::from_millis(self.patience));
                self.patience = longer(self.patience);
                Ok(None)
            }
            Err(failed) => {
                self.faults = self.faults.saturating_add(1);
                Err(failed)
            }
        }
    }

    /// Closes the link.
    fn back(&mut self, _link: TcpLink<C>) {}
}

/// Accepts the stream of one client. `None` where nobody came, or what kept them from coming may pass.
fn accept(listener: &TcpListener) -> Result<Option<TcpStream>, Failed> {
    match listener.accept() {
        Ok((stream, _)) => Ok(Some(stream)),
        Err(error) => match error.raw_os_error() {
            Some(NO_DESCRIPTOR | NO_LISTENER | NO_SOCKET) => Err(Failed),
            _ => Ok(None),
        },
    }
}
