//! Links, doors and halls, in memory and over TCP.

use super::texts::is_same;
use floor_text::Failed;
use links::{Door, Hall, HallFault, Link, Taken, TcpDoor, TcpHall};
use mem_links::{MemDoor, MemHall, MemLink, Say, Tape};
use std::alloc::{AllocError, Global};
use std::io::{Read, Write};
use std::net::{TcpListener, TcpStream};
use std::sync::atomic::{AtomicU64, Ordering};
use std::test::Fail;

/// What a link in memory is to say.
#[derive(Clone, Copy)]
enum Says {
    Give(&'static [u8]),
    WaitFor(&'static [u8], u64),
    Finish,
}

/// A call of a link: bytes that are put, and what that gives; or how many bytes it may give at the most, what it gives,
/// and with which bytes the buffer begins then.
#[derive(Clone, Copy)]
enum Call {
    Put(&'static [u8], Result<(), Failed>),
    Take(usize, Result<Taken, Failed>, &'static [u8]),
}

/// What a link says, for how many bytes it has room, which of its calls fail, the calls, and what it was put at last.
struct Script {
    says: &'static [Says],
    room: usize,
    failing: &'static [u64],
    calls: &'static [Call],
    told: &'static [u8],
}

static SCRIPTS: [Script; 3] = [
    // what is given, waited for and passed over
    Script {
        says: &[
            Says::Give(b"abc"),
            Says::Give(b""),
            Says::WaitFor(b"# settle 1", 4),
            Says::Give(b"d"),
            Says::WaitFor(b"# settle 1", 4),
            Says::WaitFor(b"# settle 3", 2),
            Says::WaitFor(b"# settle 3", 0),
            Says::Give(b"e"),
            Says::Finish,
            Says::Give(b"f"),
        ],
        room: 32,
        failing: &[],
        calls: &[
            Call::Put(b"", Ok(())),
            Call::Take(2, Ok(Taken::Bytes(2)), b"ab"),
            Call::Put(b"", Ok(())),
            Call::Take(2, Ok(Taken::Bytes(1)), b"c"),
            Call::Put(b"", Ok(())),
            Call::Take(2, Ok(Taken::Idle), b""),
            Call::Put(b"# settle 2\n", Ok(())),
            Call::Take(2, Ok(Taken::Idle), b""),
            Call::Put(b"# settle 1", Ok(())),
            Call::Take(2, Ok(Taken::Idle), b""),
            Call::Put(b"\n", Ok(())),
            Call::Take(2, Ok(Taken::Bytes(1)), b"d"),
            Call::Put(b"", Ok(())),
            Call::Take(2, Ok(Taken::Idle), b""),
            Call::Put(b"", Ok(())),
            Call::Take(2, Ok(Taken::Idle), b""),
            Call::Put(b"", Ok(())),
            Call::Take(2, Ok(Taken::Bytes(1)), b"e"),
            Call::Put(b"", Ok(())),
            Call::Take(2, Ok(Taken::End), b""),
            Call::Put(b"", Ok(())),
            Call::Take(2, Ok(Taken::End), b""),
        ],
        told: b"# settle 2\n# settle 1\n",
    },
    // a script that has run out is idle
    Script {
        says: &[Says::Give(b"a")],
        room: 32,
        failing: &[],
        calls: &[
            Call::Take(0, Ok(Taken::Bytes(0)), b""),
            Call::Take(2, Ok(Taken::Bytes(1)), b""),
            Call::Take(2, Ok(Taken::Idle), b""),
            Call::Take(0, Ok(Taken::Idle), b""),
        ],
        told: b"",
    },
    // calls that fail bring and put nothing, and no more is put than there is room for
    Script {
        says: &[Says::Give(b"ab"), Says::Finish],
        room: 3,
        failing: &[1, 4],
        calls: &[
            Call::Take(8, Err(Failed), b""),
            Call::Take(8, Ok(Taken::Bytes(2)), b"ab"),
            Call::Put(b"xy", Ok(())),
            Call::Put(b"z", Err(Failed)),
            Call::Put(b"zz", Err(Failed)),
            Call::Put(b"z", Ok(())),
            Call::Put(b"", Ok(())),
            Call::Take(8, Ok(Taken::End), b""),
        ],
        told: b"xyz",
    },
];

/// Makes what a link says.
fn say(alloc: Global, says: Says) -> Result<Say, AllocError> {
    Ok(match says {
        Says::Give(bytes) => Say::Give(bytes.to_vec(alloc)?),
        Says::WaitFor(front, turns) => Say::WaitFor {
            front: front.to_vec(alloc)?,
            turns,
        },
        Says::Finish => Say::Finish,
    })
}

/// Makes a script.
fn script_of(alloc: Global, says: &[Says]) -> Result<Vec<Say>, AllocError> {
    let mut script = Vec::new(alloc);
    for it in says {
        script.push(say(alloc, *it)?)?;
    }
    Ok(script)
}

/// Takes from a link, and tells whether it gives this.
fn takes<L: Link>(link: &mut L, room: usize, taken: Result<Taken, Failed>, bytes: &[u8]) -> bool {
    let mut buffer = [0; 8];
    link.take(&mut buffer[..room.min(8)]) == taken && buffer.starts_with(bytes)
}

/// Makes calls of a link, and tells whether they give what they are to.
fn plays<L: Link>(link: &mut L, calls: &[Call]) -> bool {
    for call in calls {
        let is_so = match *call {
            Call::Put(bytes, put) => link.put(bytes) == put,
            Call::Take(room, taken, bytes) => takes(link, room, taken, bytes),
        };
        if !is_so {
            return false;
        }
    }
    true
}

/// Tells whether a tape has just these bytes.
fn is_on(tape: &Tape, told: &[u8]) -> bool {
    for (place, byte) in told.iter().enumerate() {
        if tape.byte(place) != Some(*byte) {
            return false;
        }
    }
    tape.byte(told.len()).is_none()
}

/// Tells whether a link plays a script.
fn is_played(alloc: Global, script: &Script) -> Result<bool, AllocError> {
    let says = script_of(alloc, script.says)?;
    let failing = Vec::from_slice(alloc, script.failing)?;
    let (mut link, tape) = MemLink::new(alloc, says, script.room, failing)?;
    Ok(plays(&mut link, script.calls) && is_on(&tape, script.told))
}

#[test]
fn scripts_are_played(rt: HostRuntime) {
    for script in &SCRIPTS {
        assert!(rt;
            is_played(rt.alloc(), script).unwrap_or(false),
            "{:?}",
            script.told
        );
    }
}

/// Makes a link that gives some bytes, and its tape.
fn link_of(alloc: Global, bytes: &'static [u8]) -> Result<(MemLink, Tape), AllocError> {
    MemLink::new(
        alloc,
        script_of(alloc, &[Says::Give(bytes)])?,
        32,
        Vec::new(alloc),
    )
}

/// A link that shares what it counts with whoever lent it the counter.
#[derive(Drop)]
struct Counted<'a> {
    link: MemLink,
    takes: &'a AtomicU64,
}

impl Link for Counted<'_> {
    ghost told = { λ c. ⟦<MemLink as Link>⟧.told c.link };

    ghost faults = { λ c. ⟦<MemLink as Link>⟧.faults c.link };

    fn take(&mut self, buffer: &mut [u8]) -> Result<Taken, Failed> {
        let _before = self.takes.fetch_add(1, Ordering::SeqCst);
        self.link.take(buffer)
    }

    fn put(&mut self, bytes: &[u8]) -> Result<(), Failed> {
        self.link.put(bytes)
    }
}

/// The calls of a link that stands round another.
static COUNTED: [Call; 3] = [
    Call::Put(b"x", Ok(())),
    Call::Take(2, Ok(Taken::Bytes(1)), b"a"),
    Call::Take(2, Ok(Taken::Idle), b""),
];

/// Tells whether a link round another one passes its calls on, and counts them.
fn passes_on(alloc: Global) -> Result<bool, AllocError> {
    let takes = AtomicU64::new(0);
    let (link, tape) = link_of(alloc, b"a")?;
    let mut counted = Counted {
        link,
        takes: &takes,
    };
    Ok(plays(&mut counted, &COUNTED) && is_on(&tape, b"x") && takes.load(Ordering::SeqCst) == 2)
}

#[test]
fn a_link_may_stand_round_another(rt: HostRuntime) {
    assert!(rt; passes_on(rt.alloc()).unwrap_or(false));
}

/// Makes a door with two links, which give `a` and `b`, of whose knocks one fails.
fn door_of(alloc: Global, failing: u64) -> Result<MemDoor, AllocError> {
    let (first, _tape) = link_of(alloc, b"a")?;
    let (second, _tape) = link_of(alloc, b"b")?;
    MemDoor::new(
        alloc,
        vec![in alloc; first, second]?,
        vec![in alloc; failing]?,
    )
}

/// Lets one client in and out again, and answers the byte that the client gives first.
fn first_byte(door: &mut MemDoor) -> Option<u8> {
    let mut buffer = [0; 1];
    let Ok(Some(mut link)) = door.knock() else {
        return None;
    };
    let taken = link.take(&mut buffer);
    door.back(link);
    match taken {
        Ok(Taken::Bytes(_)) => Some(buffer[0]),
        _ => None,
    }
}

/// What comes first from each client of a door whose second knock fails.
static FIRST: [Option<u8>; 4] = [Some(b'a'), None, Some(b'b'), None];

/// Tells whether a door gives its links in order.
fn comes_in_order(alloc: Global) -> Result<bool, AllocError> {
    let mut door = door_of(alloc, 2)?;
    for first in &FIRST {
        if first_byte(&mut door) != *first {
            return Ok(false);
        }
    }
    Ok(true)
}

#[test]
fn a_door_in_memory_gives_its_links_in_order(rt: HostRuntime) {
    assert!(rt; comes_in_order(rt.alloc()).unwrap_or(false));
}

/// Tells whether a hall refuses to open so many doors at a port.
fn refuses<H: Hall>(alloc: Global, hall: &mut H, port: u16, count: u32) -> bool {
    matches!(hall.doors(alloc, port, count), Err(HallFault::Failed))
}

/// Tells whether a hall whose first call fails gives its two doors once, and together.
fn opens_once(alloc: Global) -> Result<bool, AllocError> {
    let doors = vec![in alloc; door_of(alloc, 0)?, door_of(alloc, 0)?]?;
    let mut hall = MemHall::new(doors, vec![in alloc; 1]?);
    let refused = refuses(alloc, &mut hall, 7000, 2) && refuses(alloc, &mut hall, 7000, 1);
    let Ok(doors) = hall.doors(alloc, 7000, 2) else {
        return Ok(false);
    };
    let opened = doors.len() == 2;
    let left = hall.doors(alloc, 7000, 2).is_ok();
    hall.back(doors);
    Ok(refused && opened && !left)
}

#[test]
fn a_hall_in_memory_gives_its_doors_once(rt: HostRuntime) {
    assert!(rt; opens_once(rt.alloc()).unwrap_or(false));
}

/// Opens two doors of a hall at ports that nobody listens at, and answers them and the second port.
fn two_doors(rt: HostRuntime) -> Option<(Vec<TcpDoor<HostRuntime>>, u16)> {
    let mut hall = TcpHall::new(rt);
    for _ in 0..20 {
        let free = TcpListener::bind(&rt, "127.0.0.1:0").ok()?;
        let port = free.local_addr().ok()?.port();
        drop(free);
        if let Ok(doors) = hall.doors(rt.alloc(), port, 2) {
            return Some((doors, port.checked_add(1)?));
        }
    }
    None
}

/// Knocks until somebody came.
fn who_comes<D: Door>(door: &mut D) -> Option<D::L> {
    for _ in 0..50 {
        if let Some(link) = door.knock().ok()? {
            return Some(link);
        }
    }
    None
}

/// Takes until the link is not idle, and tells whether it gives this then.
fn brings<L: Link>(link: &mut L, taken: Taken, bytes: &[u8]) -> bool {
    let mut buffer = [0; 8];
    for _ in 0..50 {
        let came = link.take(&mut buffer);
        if came != Ok(Taken::Idle) {
            return came == Ok(taken) && buffer.starts_with(bytes);
        }
    }
    false
}

/// Tells whether a link is idle so many times.
fn is_idle<L: Link>(link: &mut L, times: u32) -> bool {
    for _ in 0..times {
        if !takes(link, 8, Ok(Taken::Idle), b"") {
            return false;
        }
    }
    true
}

/// Tells whether a client gets two bytes.
fn hears(client: &mut TcpStream, bytes: &[u8]) -> bool {
    let mut reply = [0; 2];
    client.read_exact(&mut reply).is_ok() && is_same(&reply, bytes)
}

/// Tells whether bytes go from a client to its link and back, and none come while the client is silent.
fn talks<L: Link>(link: &mut L, client: &mut TcpStream) -> bool {
    is_idle(link, 1)
        && client.write_all(b"abc").is_ok()
        && takes(link, 0, Ok(Taken::Idle), b"")
        && brings(link, Taken::Bytes(3), b"abc")
        && link.put(b"de") == Ok(())
        && hears(client, b"de")
        && is_idle(link, 64)
        && client.write_all(b"g").is_ok()
        && brings(link, Taken::Bytes(1), b"g")
        && is_idle(link, 1)
}

/// Tells whether a link whose client is gone is at its end, and does not put for ever.
fn is_gone<L: Link>(link: &mut L) -> bool {
    let mut fails = false;
    for _ in 0..100 {
        fails = fails || link.put(b"f").is_err();
    }
    fails
}

/// Lets a client in at a door, and tells whether both talk until the client is gone.
fn serves(rt: &HostRuntime, door: &mut TcpDoor<HostRuntime>, port: u16) -> Result<bool, Fail> {
    let nobody = matches!(door.knock(), Ok(None));
    let mut client = TcpStream::connect(rt, ("127.0.0.1", port))?;
    let mut link = who_comes(door).ok_or("a client")?;
    let talked = talks(&mut link, &mut client);
    drop(client);
    let ended = brings(&mut link, Taken::End, b"") && is_gone(&mut link);
    door.back(link);
    Ok(nobody && talked && ended)
}

#[test]
fn bytes_go_over_loopback(rt: HostRuntime) -> Result<(), Fail> {
    let (mut doors, port) = two_doors(rt).ok_or("two ports")?;
    let mut second = doors.pop().ok_or("two doors")?;
    assert!(rt; serves(&rt, &mut second, port)?);
    Ok(())
}

#[test]
fn a_hall_refuses_a_port_past_the_last(rt: HostRuntime) {
    assert!(rt; refuses(rt.alloc(), &mut TcpHall::new(rt), 65_535, 2));
}
