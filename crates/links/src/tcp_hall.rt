//! A hall whose doors are TCP listeners. It tells no doors.
ghost use Rattle.std.specs.Prelude.{◌≡◌, ◌+◌, ◌≤◌, None, IfOk, IsOk, IsSome, vec_len};
ghost use Rattle.floor_text.specs.Outside.{Rose};

use crate::hall::{Hall, HallFault};
use crate::tcp_door::TcpDoor;
use std::alloc::Global;
use std::net::{Net, SocketAddr, TcpListener, TcpStream};
use std::time::Clock;

/// A hall whose door I, counted from 1, listens at 0.0.0.0 and port PORT + I - 1.
#[derive(Drop)]
pub struct TcpHall<R> {
    rt: R,
    faults: u64,
}

impl<R: Net<Listener = TcpListener, Stream = TcpStream> + Clock + Copy + Send> TcpHall<R> {
    /// Makes a hall that has opened no door and has not failed yet.
    pub fn new(rt: R) -> TcpHall<R>
        ensures { ⟦<TcpHall<R> as Hall>⟧.faults result ≡ 0 }
    {
        TcpHall { rt, faults: 0 }
    }
}

impl<R: Net<Listener = TcpListener, Stream = TcpStream> + Clock + Copy + Send> Hall for TcpHall<R> {
    type D = TcpDoor<R>;

    ghost told = { λ _. None };

    ghost faults = { λ h. h.faults };

    /// Binds the ports one after another. A port above 65535, or one that cannot be bound, is a fault, and is counted.
    fn doors(&mut self, alloc: Global, port: u16, n: u32) -> Result<Vec<TcpDoor<R>>, HallFault>
        ensures count { IfOk result (λ doors. vec_len doors ≡ n) }
        ensures later { self.old.faults ≤ self.new.faults }
        ensures cause { result ≡ Err HallFault.Failed → Rose self.old.faults self.new.faults }

        ensures ports { IsOk result → port + n ≤ u16.MAX + 1 }
    {
        let Ok(mut doors) = Vec::with_capacity(alloc, n as usize) else {
            return Err(HallFault::NoMemory);
        };
        for i in 0..n {
            match open_door(self.rt, port, i) {
                Some(door) => doors.push_reserved(door),
                None => {
                    self.faults = self.faults.saturating_add(1);
                    return Err(HallFault::Failed);
                }
            }
        }
        Ok(doors)
    }

    /// Closes the doors.
    fn back(&mut self, _doors: Vec<TcpDoor<R>>)
        ensures faults { self.new.faults ≡ self.old.faults }
    {}
}

/// Opens the door that is `i` ports above. `None` where there is no such port or it cannot be bound.
fn open_door<R: Net<Listener = TcpListener, Stream = TcpStream> + Clock + Copy>(
    rt: R,
    port: u16,
    i: u32,
) -> Option<TcpDoor<R>>
    ensures { IsSome result → port + i ≤ u16.MAX }
{
    let port = u16::try_from(u32::from(port).checked_add(i)?).ok()?;
    let listener = TcpListener::bind(&rt, SocketAddr::from(([0, 0, 0, 0], port))).ok()?;
    TcpDoor::over(listener, rt).ok()
}
