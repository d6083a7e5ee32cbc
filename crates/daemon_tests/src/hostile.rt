//! Tests of connections that send garbage, are cut off or never read, beside one that is answered all the time.

use crate::client::{ASK, BAD_LENGTH, ask_last, connect, is_answered, is_taken};
use crate::gates::GateOf;
use crate::side::{Client, ONE_QUEUE, closed};
use cap_server::{Scheduling, Sizes};
use std::alloc::Global;
use std::io;
use std::net::{Net, TcpListener, TcpStream};
use std::sync::Wait;
use std::test::*;
use std::thread::Threads;
use std::time::{Clock, Duration};

/// How many ClusterInfos a connection sends that reads nothing: their answers are more than the sockets hold.
const UNREAD: u32 = 1_000_000;

/// Sends calls and reads nothing, until no more is taken within a second.
fn flood(alloc: Global, stream: &TcpStream) -> io::Result<()> {
    stream.set_write_timeout(Some(Duration::from_secs(1)))?;
    let calls = ASK.repeat(alloc, 1000)?;
    let _all = is_taken(stream, calls.as_slice(), UNREAD / 1000);
    Ok(())
}

/// Whether these are all the answers to these last bytes.
fn is_answer(alloc: Global, stream: &TcpStream, bytes: &[u8], answer: &[u8]) -> io::Result<bool> {
    Ok(ask_last(alloc, stream, bytes)?.as_slice() == answer)
}

fn is_answered_ten_times(stream: &TcpStream) -> io::Result<bool> {
    for _ in 0..10 {
        if !is_answered(stream)? {
            return Ok(false);
        }
    }
    Ok(true)
}

/// A connection that never reads, beside the one that is answered.
fn beside_deaf<H: Net<Listener = TcpListener, Stream = TcpStream>>(
    rt: &H,
    alloc: Global,
    port: u16,
    good: &TcpStream,
) -> io::Result<bool> {
    let deaf = connect(rt, port)?;
    flood(alloc, &deaf)?;
    is_answered_ten_times(good)
}

/// A connection that closes in a frame, and then that one.
fn beside_cut<H: Net<Listener = TcpListener, Stream = TcpStream>>(
    rt: &H,
    alloc: Global,
    port: u16,
    good: &TcpStream,
) -> io::Result<bool> {
    let cut = connect(rt, port)?;
    let is_silent = is_answer(alloc, &cut, &ASK[..7], &[])?;
    Ok(is_silent && is_answered(good)? && beside_deaf(rt, alloc, port, good)?)
}

/// A connection that sends a length that no frame has, and then those two.
fn beside_garbage<H: Net<Listener = TcpListener, Stream = TcpStream>>(
    rt: &H,
    alloc: Global,
    port: u16,
    good: &TcpStream,
) -> io::Result<bool> {
    let garbage = connect(rt, port)?;
    let is_told = is_answer(alloc, &garbage, &[0, 0, 0, 0, 1, 2, 3, 4], &BAD_LENGTH)?;
    Ok(is_told && is_answered(good)? && beside_cut(rt, alloc, port, good)?)
}

/// One connection sends a length that no frame has, one closes in a frame, and one never reads; a fourth is answered all the time.
#[derive(Drop)]
struct Hostile;

impl Client for Hostile {
    fn talk<
        H: Net<Listener = TcpListener, Stream = TcpStream> + Threads + Wait + Clock + Eprint + Sync,
    >(&self, rt: &H, alloc: Global, port: u16) -> io::Result<bool> {
        beside_garbage(rt, alloc, port, &connect(rt, port)?)
    }
}

#[test]
fn others_go_on(rt: HostRuntime) {
    let sizes = Sizes {
        workers: 1,
        scheduling: Scheduling::Follow,
        connections: 4,
        journal: 1000,
        lanes: Some(64),
        drain: None,
        stats: None,
    };
    let ended = closed(&rt, rt.alloc(), ONE_QUEUE, &sizes, GateOf::Open, &Hostile);
    assert!(rt; matches!(ended, Some((epochs, _)) if epochs >= 2));
}
