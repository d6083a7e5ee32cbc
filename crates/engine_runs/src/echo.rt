//! The peer that the daemon is measured beside: it writes each frame back as it came (`print`).

mod peer;

use crate::echo::peer::accept_and_echo;
use std::alloc::Global;
use std::io;
use std::net::{Ipv4Addr, Net, TcpListener, TcpStream};
use std::sync::Wait;
use std::thread::{Threads, map_indices};

/// Accepts the connections that a line asks for, and writes back each frame that comes on one, until all have ended.
pub fn print<H: Net<Listener = TcpListener, Stream = TcpStream> + Threads + Wait + Print + Sync>(
    rt: &H,
    alloc: Global,
    line: &str,
) -> io::Result<()> {
    let Some((port, connections)) = read_words(line) else {
        return println!(rt; "a port and a number of connections are wanted");
    };
    let listener = TcpListener::bind(rt, (Ipv4Addr::LOCALHOST, port))?;
    println!(rt; "listening {port}")?;
    let ends = map_indices(
        rt,
        alloc,
        connections as usize,
        &|_| { accept_and_echo(rt, alloc, &listener) },
    )?;
    for end in ends {
        end?;
    }
    Ok(())
}

/// The port and the number of connections.
fn read_words(line: &str) -> Option<(u16, u16)> {
    let (port, connections) = line.strip_prefix("echo ")?.split_once(' ')?;
    Some((port.parse().ok()?, connections.parse().ok()?))
}
