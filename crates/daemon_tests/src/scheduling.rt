//! Tests of workers in the daemon: a master is granted all that it asks for, with and without the committer.

use crate::client::{call, connect};
use crate::gates::{Committing, GateOf, OwnLanes};
use crate::side::{Client, closed};
use cap_server::{Scheduling, Sizes};
use cap_testing::{Call, TWO_QUEUES, WantedContainers};
use cap_workers::Tally;
use std::alloc::Global;
use std::io::{self, Input, StdinLock};
use std::net::{Net, TcpListener, TcpStream};
use std::sync::Wait;
use std::sync::atomic::{AtomicU64, Ordering};
use std::test::*;
use std::thread::{Threads, sleep};
use std::time::{Clock, Duration};

/// Ten containers of (1024, 1), anywhere.
const TEN: &[WantedContainers<'_>] = &[WantedContainers {
    priority: 1,
    request: 1,
    count: 10,
    resource: [1024, 1, 0],
    place: b"*",
}];

/// The grants that an Allocate's reply tells, and its new response id.
fn grants_in(payload: &[u8]) -> Option<(u8, u32)> {
    let [_, _, _, _, _, _, _, a, b, c, d, _, _, grants, ..] = payload else {
        return None;
    };
    Some((*grants, u32::from_be_bytes([*a, *b, *c, *d])))
}

/// A master asks for ten containers on two nodes, and is told ten grants. It counts its calls.
#[derive(Drop)]
struct Master {
    calls: AtomicU64,
}

impl Master {
    /// Makes a call, and counts it.
    fn call(&self, alloc: Global, stream: &TcpStream, made: &Call<'_>) -> io::Result<Vec<u8>> {
        self.calls.fetch_add(1, Ordering::SeqCst);
        call(alloc, stream, made)
    }

    /// Registers two nodes and itself: four calls.
    fn register(&self, alloc: Global, stream: &TcpStream) -> io::Result<()> {
        for &host in &[b"n1", b"n2"] {
            let node = Call::RegisterNode(host.as_slice(), b"/r1", [8192, 8, 0]);
            let _node = self.call(alloc, stream, &node)?;
        }
        let _app = self.call(alloc, stream, &Call::Submit(b"root.a", b"ann"))?;
        let _limits = self.call(alloc, stream, &Call::RegisterMaster(1))?;
        Ok(())
    }

    /// Asks for these containers, as the reply to the response with this id. The grants that are told, and the new response id.
    fn ask(
        &self,
        alloc: Global,
        stream: &TcpStream,
        response: u32,
        asks: &[WantedContainers<'_>],
    ) -> io::Result<Option<(u8, u32)>> {
        let reply = self.call(alloc, stream, &Call::Allocate(1, response, asks, &[]))?;
        Ok(grants_in(reply.as_slice()))
    }

    /// Whether ten grants are told, in the reply to the ask and in those to the heartbeats after it.
    fn is_told<H: Clock>(
        &self,
        rt: &H,
        alloc: Global,
        stream: &TcpStream,
        asked: Option<(u8, u32)>,
    ) -> io::Result<bool> {
        let mut reply = asked;
        let mut told = 0u8;
        for _ in 0..100 {
            let Some((grants, response)) = reply else {
                return Ok(false);
            };
            told = told.saturating_add(grants);
            if told >= 10 {
                return Ok(told == 10);
            }
            sleep(rt, Duration::from_millis(20));
            reply = self.ask(alloc, stream, response, &[])?;
        }
        Ok(false)
    }
}

impl Client for Master {
    fn talk<
        H: Net<Listener = TcpListener, Stream = TcpStream> + Threads + Wait + Clock + Eprint + Sync,
    >(&self, rt: &H, alloc: Global, port: u16) -> io::Result<bool> {
        let stream = connect(rt, port)?;
        self.register(alloc, &stream)?;
        let reply = self.ask(alloc, &stream, 0, TEN)?;
        self.is_told(rt, alloc, &stream, reply)
    }
}

/// Whether the master is told its ten grants, as many proposals were made, and the journal has an entry for each of its calls and for each
/// grant, and no more.
fn scheduled<
    H: Net<Listener = TcpListener, Stream = TcpStream>
        + Threads
        + Wait
        + Clock
        + Eprint
        + Input<Reader = StdinLock<'static>>
        + Sync,
>(rt: &H, alloc: Global, workers: u32, scheduling: Scheduling, lanes: Option<usize>) -> bool {
    let sizes = Sizes {
        workers,
        scheduling,
        connections: 1,
        journal: 4096,
        lanes,
        drain: None,
        stats: None,
    };
    let master = Master {
        calls: AtomicU64::new(0),
    };
    let tally = Tally::new();
    let counting = GateOf::Counting(&tally);
    let ended = closed(rt, alloc, TWO_QUEUES, &sizes, counting, &master);
    let made = master.calls.load(Ordering::SeqCst).saturating_add(10);
    tally.made() == 10 && ended == Some((1, made))
}

/// Both ways in which workers see the cluster.
const BOTH: [Scheduling; 2] = [Scheduling::Follow, Scheduling::Copy];

/// By itself, and through a committer: seven of the lanes have no worker then, whose ends take seven of the eight places, or all have one.
#[test]
fn workers_schedule(rt: HostRuntime) {
    for &scheduling in &BOTH {
        for &(workers, lanes) in &[(1, None), (1, Some(8)), (8, Some(8))] {
            assert!(rt;
                scheduled(&rt, rt.alloc(), workers, scheduling, lanes),
                "{workers} {scheduling:?} {lanes:?}"
            );
        }
    }
}

/// A master whose ask fills the first journal and lets two workers go, each of which must see what it proposed committed.
#[derive(Drop)]
struct Witness<'a> {
    gate: &'a Committing,
}

impl Client for Witness<'_> {
    fn talk<
        H: Net<Listener = TcpListener, Stream = TcpStream> + Threads + Wait + Clock + Eprint + Sync,
    >(&self, rt: &H, alloc: Global, port: u16) -> io::Result<bool> {
        let stream = connect(rt, port)?;
        let master = Master {
            calls: AtomicU64::new(0),
        };
        master.register(alloc, &stream)?;
        let _reply = master.ask(alloc, &stream, 0, TEN)?;
        self.gate.asked.reach(1);
        Ok(self.gate.both.awaits(1) && !self.gate.missed.is_reached(1))
    }
}

#[test]
fn each_proposal_is_committed(rt: HostRuntime) {
    for &scheduling in &BOTH {
        let sizes = Sizes {
            workers: 2,
            scheduling,
            connections: 1,
            journal: 5,
            lanes: Some(64),
            drain: None,
            stats: None,
        };
        let gate = Committing::new();
        let client = Witness { gate: &gate };
        let held = GateOf::Committing(&gate);
        let ended = closed(&rt, rt.alloc(), TWO_QUEUES, &sizes, held, &client);
        assert!(rt; ended.is_some(), "{scheduling:?}");
    }
}

/// A master whose calls fill the first journal once worker 1 has begun a turn, and whose ask comes in the second epoch, in which worker 0 alone goes
/// first.
#[derive(Drop)]
struct LateMaster<'a> {
    gate: &'a OwnLanes,
    master: Master,
}

impl Client for LateMaster<'_> {
    fn talk<
        H: Net<Listener = TcpListener, Stream = TcpStream> + Threads + Wait + Clock + Eprint + Sync,
    >(&self, rt: &H, alloc: Global, port: u16) -> io::Result<bool> {
        let stream = connect(rt, port)?;
        let has_begun = self.gate.copied.awaits(1);
        self.master.register(alloc, &stream)?;
        self.gate.filled.reach(1);
        let reply = self.master.ask(alloc, &stream, 0, TEN)?;
        Ok(has_begun && self.master.is_told(rt, alloc, &stream, reply)?)
    }
}

#[test]
fn workers_keep_their_lanes_from_epoch_to_epoch(rt: HostRuntime) {
    for &scheduling in &BOTH {
        let sizes = Sizes {
            workers: 2,
            scheduling,
            connections: 1,
            journal: 4,
            lanes: Some(64),
            drain: None,
            stats: None,
        };
        let gate = OwnLanes::new();
        let client = LateMaster {
            gate: &gate,
            master: Master {
                calls: AtomicU64::new(0),
            },
        };
        let held = GateOf::OwnLanes(&gate);
        let ended = closed(&rt, rt.alloc(), TWO_QUEUES, &sizes, held, &client);
        assert!(rt; ended.is_some(), "{scheduling:?}");
        assert!(rt; gate.answered.is_reached(1), "{scheduling:?}");
        assert!(rt; !gate.missed.is_reached(1), "{scheduling:?}");
    }
}
