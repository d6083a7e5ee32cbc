//! The daemon where memory is short: all of it is taken before the daemon begins, but for what its threads need until a test takes the rest.
use crate::client::{connect, is_answered, send};
use crate::gates::{GateOf, HoldingOnce};
use crate::side::{Client, ends};
use cap_server::{Scheduling, Sizes};
use cap_testing::{Call, Mark, frame};
use memory_testing::Hoard;
use std::alloc::Global;
use std::io::{self, Read};
use std::net::{Net, TcpListener, TcpStream};
use std::sync::{Mutex, Wait};
use std::test::*;
use std::thread::{Threads, sleep};
use std::time::{Clock, Duration};

/// How many bytes the daemon's threads have before memory is short: 8 MiB each for the stacks of the daemon and of the worker, 512 KiB for that of
/// each connection, and the rest for what they allocate, at least a page each time.
const THREADS: usize = 30 << 20;

/// How long the daemon's threads have to come to rest, in milliseconds.
const REST: u64 = 1_000;

/// Whether the daemon ends the connection without an answer.
fn is_ended(stream: &TcpStream) -> bool {
    let mut stream = stream;
    let mut byte = [0u8; 1];
    matches!(stream.read(&mut byte), Ok(0))
}

/// Where no memory is left, the rest of a frame ends its connection. Another one is answered before and after, and the worker that was held
/// meanwhile takes its next turn.
#[derive(Drop)]
struct Starving<'a> {
    gate: &'a HoldingOnce,
    hoard: Mutex<Hoard>,
}

impl Starving<'_> {
    /// Whether the first connection ends when this is sent.
    fn ends<H: Wait>(&self, rt: &H, alloc: Global, first: &TcpStream, rest: &[u8]) -> bool {
        let mut hoard = self.hoard.lock(rt);
        hoard.leave(alloc, 0);
        let sent = send(first, rest);
        let is_ended = is_ended(first);
        hoard.give();
        sent.is_ok() && is_ended
    }

    fn beside<H: Wait + Clock>(
        &self,
        rt: &H,
        alloc: Global,
        first: &TcpStream,
        second: &TcpStream,
        rest: &[u8],
    ) -> io::Result<bool> {
        let is_served = is_answered(second)? && self.gate.copied.awaits(1);
        sleep(rt, Duration::from_millis(REST));
        let is_ended = self.ends(rt, alloc, first, rest);
        let goes_on = is_answered(second)?;
        self.gate.let_go.reach(1);
        let has_proposed = self.gate.proposed.awaits(1)
            && is_answered(second)?
            && self.gate.proposed.awaits(2);
        Ok(is_served && is_ended && goes_on && has_proposed)
    }
}

impl Client for Starving<'_> {
    fn talk<
        H: Net<Listener = TcpListener, Stream = TcpStream> + Threads + Wait + Clock + Eprint + Sync,
    >(&self, rt: &H, alloc: Global, port: u16) -> io::Result<bool> {
        let node = frame(
            alloc,
            1,
            1,
            &Call::RegisterNode(b"n1", b"/r1", [8192, 8, 0]),
        )?;
        let (head, rest) = node.as_slice().split_at(node.len().min(4));
        let first = connect(rt, port)?;
        send(&first, head)?;
        self.beside(rt, alloc, &first, &connect(rt, port)?, rest)
    }
}

#[test]
fn served_without_memory(rt: HostRuntime) {
    let gate = HoldingOnce {
        copied: Mark::new(),
        let_go: Mark::new(),
        proposed: Mark::new(),
    };
    let sizes = Sizes {
        workers: 1,
        scheduling: Scheduling::Follow,
        connections: 2,
        journal: 4096,
        lanes: None,
        drain: None,
        stats: None,
    };
    let Some(hoard) = Hoard::beside_threads(rt.alloc(), THREADS) else {
        return assert!(rt; false, "no hoard");
    };
    let client = Starving {
        gate: &gate,
        hoard: Mutex::new(hoard),
    };
    let want = (0, "closed epochs=1 entries=3");
    let held = GateOf::HoldingOnce(&gate);
    assert!(rt; ends(&rt, rt.alloc(), &sizes, held, &client, want));
}

/// Three calls are answered, and then the last of an epoch of four where no memory is left for the next.
#[derive(Drop)]
struct Filling {
    hoard: Mutex<Hoard>,
}

impl Filling {
    fn fill<H: Wait + Clock>(&self, rt: &H, alloc: Global, stream: &TcpStream) -> io::Result<bool> {
        for _ in 0..3 {
            if !is_answered(stream)? {
                return Ok(false);
            }
        }
        sleep(rt, Duration::from_millis(REST));
        let mut hoard = self.hoard.lock(rt);
        hoard.leave(alloc, 0);
        let last = is_answered(stream);
        let is_ended = is_ended(stream);
        hoard.give();
        Ok(last? && is_ended)
    }
}

impl Client for Filling {
    fn talk<
        H: Net<Listener = TcpListener, Stream = TcpStream> + Threads + Wait + Clock + Eprint + Sync,
    >(&self, rt: &H, alloc: Global, port: u16) -> io::Result<bool> {
        self.fill(rt, alloc, &connect(rt, port)?)
    }
}

#[test]
fn no_next_epoch(rt: HostRuntime) {
    let sizes = Sizes {
        workers: 1,
        scheduling: Scheduling::Follow,
        connections: 1,
        journal: 4,
        lanes: None,
        drain: None,
        stats: None,
    };
    let Some(hoard) = Hoard::beside_threads(rt.alloc(), THREADS) else {
        return assert!(rt; false, "no hoard");
    };
    let client = Filling {
        hoard: Mutex::new(hoard),
    };
    let want = (3, "no memory");
    assert!(rt; ends(&rt, rt.alloc(), &sizes, GateOf::Open, &client, want));
}
