//! Tests of connections in the daemon: many at once, calls while a worker is held, a change of epochs.

use crate::client::{
    ASK, are_answered, are_answers, ask_last, call, connect, is_answered, is_taken, receive, send,
};
use crate::gates::{GateOf, Holding, Meeting};
use crate::side::{Client, ends};
use cap_server::{Scheduling, Sizes};
use cap_testing::{Call, Mark};
use std::alloc::Global;
use std::io;
use std::net::{Net, TcpListener, TcpStream};
use std::sync::Wait;
use std::test::*;
use std::thread::Threads;
use std::time::Clock;

/// What is asked on connections that are open at once.
#[derive(Clone, Copy)]
enum Visit {
    /// So many ClusterInfos that are sent at once are answered, and nothing more.
    Asks(usize),
    /// The second of two connections is answered while the first is open and silent.
    Silent,
    /// So many connections are open at once, and each is answered.
    Crowd(usize),
    /// A node is registered, and the cluster, which is asked for five times, has that node each time.
    OneNode,
    /// Requests of either version on one connection are answered in their own.
    BothVersions,
}

/// RegisterNode of `n1` in `/r1` with (8192, 8, 2) and call id 2 in version 2; ClusterInfo with call id 3 in versions 2, 1
/// and 3.
const IN_VERSIONS: &[u8] = &[
    0, 0, 0, 37, 2, 5, 0, 0, 0, 2, 2, 110, 49, 3, 47, 114, 49, 0, 0, 0, 0, 0, 0, 32, 0, 0, 0, 0, 0,
    0, 0, 0, 8, 0, 0, 0, 0, 0, 0, 0, 2, 0, 0, 0, 6, 2, 10, 0, 0, 0, 3, 0, 0, 0, 6, 1, 10, 0, 0, 0,
    3, 0, 0, 0, 6, 3, 10, 0, 0, 0, 3,
];

/// Node 1; the cluster with its GPUs and without; and the fault reply with status 41, since there is no version 3.
const ANSWERED_IN_VERSIONS: &[u8] = &[
    0, 0, 0, 15, 2, 5, 0, 0, 0, 2, 0, 0, 0, 0, 0, 0, 0, 0, 1, 0, 0, 0, 67, 2, 10, 0, 0, 0, 3, 0, 0,
    0, 0, 1, 0, 0, 0, 0, 0, 0, 0, 0, 0, 0, 0, 0, 0, 0, 32, 0, 0, 0, 0, 0, 0, 0, 0, 8, 0, 0, 0, 0,
    0, 0, 0, 2, 0, 0, 0, 0, 0, 0, 0, 0, 0, 0, 0, 0, 0, 0, 0, 0, 0, 0, 0, 0, 0, 0, 0, 0, 0, 0, 0,
    51, 1, 10, 0, 0, 0, 3, 0, 0, 0, 0, 1, 0, 0, 0, 0, 0, 0, 0, 0, 0, 0, 0, 0, 0, 0, 32, 0, 0, 0, 0,
    0, 0, 0, 0, 8, 0, 0, 0, 0, 0, 0, 0, 0, 0, 0, 0, 0, 0, 0, 0, 0, 0, 0, 0, 7, 1, 0, 0, 0, 0, 0,
    41,
];

fn is_second_answered(alloc: Global, first: &TcpStream, second: &TcpStream) -> io::Result<bool> {
    Ok(are_answered(alloc, second, 1)? && is_answered(first)?)
}

fn are_all_answered(streams: &[TcpStream]) -> io::Result<bool> {
    for stream in streams {
        if !is_answered(stream)? {
            return Ok(false);
        }
    }
    Ok(true)
}

fn is_crowd_answered<H: Net<Listener = TcpListener, Stream = TcpStream>>(
    rt: &H,
    alloc: Global,
    port: u16,
    count: usize,
) -> io::Result<bool> {
    let mut streams = Vec::with_capacity(alloc, count)?;
    for _ in 0..count {
        streams.push(connect(rt, port)?)?;
    }
    are_all_answered(streams.as_slice())
}

fn has_one_node(alloc: Global, stream: &TcpStream) -> io::Result<bool> {
    let node = Call::RegisterNode(b"n1", b"/r1", [8192, 8, 0]);
    let _number = call(alloc, stream, &node)?;
    for _ in 0..5 {
        send(stream, &ASK)?;
        let mut answer = [0u8; 55];
        receive(stream, &mut answer)?;
        if answer.get(11..15) != Some([0, 0, 0, 1].as_slice()) {
            return Ok(false);
        }
    }
    Ok(true)
}

impl Client for Visit {
    fn talk<
        H: Net<Listener = TcpListener, Stream = TcpStream> + Threads + Wait + Clock + Eprint + Sync,
    >(&self, rt: &H, alloc: Global, port: u16) -> io::Result<bool> {
        match *self {
            Visit::Asks(count) => are_answered(alloc, &connect(rt, port)?, count),
            Visit::Silent => {
                let first = connect(rt, port)?;
                is_second_answered(alloc, &first, &connect(rt, port)?)
            }
            Visit::Crowd(count) => is_crowd_answered(rt, alloc, port, count),
            Visit::OneNode => has_one_node(alloc, &connect(rt, port)?),
            Visit::BothVersions => {
                let answer = ask_last(alloc, &connect(rt, port)?, IN_VERSIONS)?;
                Ok(answer.as_slice() == ANSWERED_IN_VERSIONS)
            }
        }
    }
}

#[test]
fn connections_are_answered(rt: HostRuntime) {
    for &(connections, journal, lanes, visit, line) in &[
        (1, 4096, None, Visit::Asks(1), "closed epochs=1 entries=1"),
        (1, 4, Some(64), Visit::Asks(6), "closed epochs=2 entries=6"),
        (2, 4096, None, Visit::Silent, "closed epochs=1 entries=2"),
        (
            128,
            4096,
            None,
            Visit::Crowd(128),
            "closed epochs=1 entries=128",
        ),
        (1, 4, None, Visit::OneNode, "closed epochs=2 entries=6"),
        (
            1,
            4096,
            None,
            Visit::BothVersions,
            "closed epochs=1 entries=3",
        ),
    ] {
        let sizes = Sizes {
            workers: 1,
            scheduling: Scheduling::Follow,
            connections,
            journal,
            lanes,
            drain: None,
            stats: None,
        };
        let is_right = ends(&rt, rt.alloc(), &sizes, GateOf::Open, &visit, (0, line));
        assert!(rt; is_right, "{connections} {journal} {line}");
    }
}

/// The connection ends only once two workers have proposed at the same time.
#[derive(Drop)]
struct Witness<'a> {
    both: &'a Mark,
}

impl Client for Witness<'_> {
    fn talk<
        H: Net<Listener = TcpListener, Stream = TcpStream> + Threads + Wait + Clock + Eprint + Sync,
    >(&self, rt: &H, _alloc: Global, port: u16) -> io::Result<bool> {
        let stream = connect(rt, port)?;
        Ok(self.both.awaits(1) && is_answered(&stream)?)
    }
}

/// By themselves, and beside a committer, on clusters of their own and on copies.
#[test]
fn two_workers_propose_at_once(rt: HostRuntime) {
    for &(scheduling, lanes) in &[
        (Scheduling::Follow, None),
        (Scheduling::Follow, Some(64)),
        (Scheduling::Copy, None),
        (Scheduling::Copy, Some(64)),
    ] {
        let sizes = Sizes {
            workers: 2,
            scheduling,
            connections: 1,
            journal: 4096,
            lanes,
            drain: None,
            stats: None,
        };
        let gate = Meeting {
            first: Mark::new(),
            second: Mark::new(),
            both: Mark::new(),
        };
        let client = Witness { both: &gate.both };
        let want = (0, "closed epochs=1 entries=1");
        let held = GateOf::Meeting(&gate);
        let is_right = ends(&rt, rt.alloc(), &sizes, held, &client, want);
        assert!(rt; is_right, "{scheduling:?} {lanes:?}");
    }
}

/// What is answered while a worker is held.
#[derive(Drop)]
struct BesideHeld<'a> {
    gate: &'a Holding,
    /// Whether six calls are sent at once, to a daemon of four entries an epoch.
    is_ahead: bool,
}

impl BesideHeld<'_> {
    /// A call is answered at each point where the worker is held.
    fn ask_two(&self, stream: &TcpStream) -> io::Result<bool> {
        for step in 1..3 {
            if !self.gate.held.awaits(step) || !is_answered(stream)? {
                return Ok(false);
            }
            self.gate.let_go.reach(step);
        }
        Ok(true)
    }

    /// Four of six calls are answered while the worker is held, so that the next epoch can't begin.
    fn ask_six(&self, stream: &TcpStream) -> io::Result<bool> {
        let is_held = self.gate.held.awaits(1);
        let is_taken = is_taken(stream, &ASK, 6);
        let mut early = [0u8; 220];
        let read = receive(stream, &mut early);
        self.gate.let_go.reach(2);
        read?;
        let mut late = [0u8; 110];
        receive(stream, &mut late)?;
        Ok(is_held && is_taken && are_answers(&early, 4) && are_answers(&late, 2))
    }
}

impl Client for BesideHeld<'_> {
    fn talk<
        H: Net<Listener = TcpListener, Stream = TcpStream> + Threads + Wait + Clock + Eprint + Sync,
    >(&self, rt: &H, _alloc: Global, port: u16) -> io::Result<bool> {
        let stream = connect(rt, port)?;
        if self.is_ahead {
            self.ask_six(&stream)
        } else {
            self.ask_two(&stream)
        }
    }
}

#[test]
fn calls_are_answered_while_a_worker_is_held(rt: HostRuntime) {
    for &(scheduling, journal, is_ahead, line) in &[
        (Scheduling::Follow, 4096, false, "closed epochs=1 entries=2"),
        (Scheduling::Follow, 4, true, "closed epochs=2 entries=6"),
        (Scheduling::Copy, 4096, false, "closed epochs=1 entries=2"),
        (Scheduling::Copy, 4, true, "closed epochs=2 entries=6"),
    ] {
        let sizes = Sizes {
            workers: 1,
            scheduling,
            connections: 1,
            journal,
            lanes: None,
            drain: None,
            stats: None,
        };
        let gate = Holding {
            held: Mark::new(),
            let_go: Mark::new(),
        };
        let client = BesideHeld {
            gate: &gate,
            is_ahead,
        };
        let held = GateOf::Holding(&gate);
        let is_right = ends(&rt, rt.alloc(), &sizes, held, &client, (0, line));
        assert!(rt; is_right, "{scheduling:?} {journal}");
    }
}
