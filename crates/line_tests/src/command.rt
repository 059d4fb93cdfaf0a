//! The words of the server.

use super::texts::words_of;
use command_lines::Service;
use std::alloc::{AllocError, Global};

/// Words, and the port and the desks of the server that they start.
static SERVICES: [(&[&str], Option<(u16, u32)>); 15] = [
    (&["serve", "7000", "2"], Some((7000, 2))),
    (&["serve", "1", "1"], Some((1, 1))),
    (&["serve", "65535", "128"], Some((65_535, 128))),
    (&["serve", "0", "1"], None),
    (&["serve", "65536", "1"], None),
    (&["serve", "7000", "0"], None),
    (&["serve", "7000", "129"], None),
    (&["serve", "07000", "2"], None),
    (&["serve", "7000"], None),
    (&["serve", "7000", "2", "3"], None),
    (&["Service", "7000", "2"], None),
    (&["replay"], None),
    (&["view", "bob"], None),
    (&["simulate", "7"], None),
    (&[""], None),
];

/// Tells whether words are read as a row says.
fn is_read(alloc: Global, row: &(&[&str], Option<(u16, u32)>)) -> Result<bool, AllocError> {
    let words = words_of(alloc, row.0)?;
    Ok(Service::read(&words).map(|service| (service.port, service.desks)) == row.1)
}

#[test]
fn the_written_command_of_the_server_is_read(rt: HostRuntime) {
    for row in &SERVICES {
        assert!(rt; is_read(rt.alloc(), row).unwrap_or(false), "{row:?}");
    }
}
