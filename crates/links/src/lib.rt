//! The outside of a server: links to clients, doors through which clients come, and halls that open doors.
//!
//! It stands on floor_text, whose `Failed`, counts of calls and whole writes it shares, and on `thiserror`. Each trait
//! tells in ghost members what it can: all that came and went, as the forms in memory of mem_links do, or nothing, as
//! those over streams do. It always tells its count of faults, which never falls, and a call that fails has raised it.
//!
//! | The call | What it promises |
//! |---|---|
//! | `Link::take` | what came fits the buffer; what is told follows from the answer; after an End no byte comes |
//! | `Link::put` | all bytes are put, or where it fails a front of them |
//! | `Door::knock`, `Door::back` | what is told follows from the answer; the count rises in a knock that fails alone |
//! | `Door::knock` | a link that it gives is out, so that it may come back |
//! | `Hall::doors`, `Hall::back` | as many doors as were asked for, and what is told of them |
//! | `TcpHall::doors` | no port above 65535 is opened |
//!
//! `StreamLink` is a link over a stream of the standard library, `TcpLink` one over a TCP stream, `TcpDoor` a door over
//! a listener and `TcpHall` a hall of such doors. They tell nothing but their faults. How long they wait stands in
//! `patience`, and what times a client has in `timed_stream`.
//!
//! `specs/Telling.antt` says what is told, and `specs/Links.antt` what each call does to it.
#![tactic(auto)]

mod door;
mod hall;
mod link;
mod patience;
mod stream_link;
mod tcp_door;
mod tcp_hall;
mod tcp_link;
mod timed_stream;

pub use door::Door;
pub use hall::{Hall, HallFault};
pub use link::{Link, Taken};
pub use stream_link::StreamLink;
pub use tcp_door::TcpDoor;
pub use tcp_hall::TcpHall;
pub use tcp_link::TcpLink;
