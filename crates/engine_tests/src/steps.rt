//! Tests of steps of a world, and of what its connections are answered.

use cap_testing::{TWO_QUEUES, cluster, first};
use cap_world::{Outcome, Step, World};
use std::alloc::Global;

/// ClusterInfo with call id 1, framed.
const INFO: &[u8] = &[0, 0, 0, 6, 1, 10, 0, 0, 0, 1];

/// The reply to it of a cluster with no node.
const EMPTY: &[u8] = &[
    0, 0, 0, 51, 1, 10, 0, 0, 0, 1, 0, 0, 0, 0, 0, 0, 0, 0, 0, 0, 0, 0, 0, 0, 0, 0, 0, 0, 0, 0, 0,
    0, 0, 0, 0, 0, 0, 0, 0, 0, 0, 0, 0, 0, 0, 0, 0, 0, 0, 0, 0, 0, 0, 0, 0,
];

/// The reply to a ClusterInfo with call id 3 of a cluster with one node of 8192 MiB and 8 vcores.
const ONE_NODE: &[u8] = &[
    0, 0, 0, 51, 1, 10, 0, 0, 0, 3, 0, 0, 0, 0, 1, 0, 0, 0, 0, 0, 0, 0, 0, 0, 0, 0, 0, 0, 0, 32, 0,
    0, 0, 0, 0, 0, 0, 0, 8, 0, 0, 0, 0, 0, 0, 0, 0, 0, 0, 0, 0, 0, 0, 0, 0,
];

/// The reply to a RegisterNode with call id 2: node 1. Then the one with call id 4, whose host is taken.
const NODE_1: &[u8] = &[
    0, 0, 0, 15, 1, 5, 0, 0, 0, 2, 0, 0, 0, 0, 0, 0, 0, 0, 1, 0, 0, 0, 7, 1, 5, 0, 0, 0, 4, 12,
];

/// The reply that a length which no frame has gets.
const BAD_LENGTH: &[u8] = &[0, 0, 0, 7, 1, 0, 0, 0, 0, 0, 40];

/// The reply that a payload which is no request gets, and then that to a ClusterInfo.
const BAD_MESSAGE: &[u8] = &[
    0, 0, 0, 7, 1, 0, 0, 0, 0, 0, 41, 0, 0, 0, 51, 1, 10, 0, 0, 0, 1, 0, 0, 0, 0, 0, 0, 0, 0, 0, 0,
    0, 0, 0, 0, 0, 0, 0, 0, 0, 0, 0, 0, 0, 0, 0, 0, 0, 0, 0, 0, 0, 0, 0, 0, 0, 0, 0, 0, 0, 0, 0, 0,
    0, 0, 0,
];

/// RegisterNode of `n1` in `/r1` with (8192, 8), with call id 2 and with call id 4, and ClusterInfo with call id 3.
const NODE: &[u8] = &[
    0, 0, 0, 29, 1, 5, 0, 0, 0, 2, 2, b'n', b'1', 3, b'/', b'r', b'1', 0, 0, 0, 0, 0, 0, 32, 0, 0,
    0, 0, 0, 0, 0, 0, 8,
];

const NODE_AGAIN: &[u8] = &[
    0, 0, 0, 29, 1, 5, 0, 0, 0, 4, 2, b'n', b'1', 3, b'/', b'r', b'1', 0, 0, 0, 0, 0, 0, 32, 0, 0,
    0, 0, 0, 0, 0, 0, 8,
];

const INFO_3: &[u8] = &[0, 0, 0, 6, 1, 10, 0, 0, 0, 3];

/// The worlds that these steps make of a new cluster.
fn run(alloc: Global, steps: &[Step<'_>]) -> Option<Outcome> {
    let cluster = cluster(alloc, TWO_QUEUES)?;
    Some(World::run(alloc, cluster, steps))
}

/// After these steps: how many were made, how many events there are, and of a connection whether it is open and was answered these bytes.
fn outcome(
    alloc: Global,
    steps: &[Step<'_>],
    connection: u32,
    output: &[u8],
) -> Option<(usize, usize, bool, bool)> {
    let outcome = run(alloc, steps)?;
    Some((
        outcome.done,
        outcome.events.len(),
        outcome.world.is_open(connection),
        outcome.world.output(connection) == output,
    ))
}

/// ClusterInfo in one piece, and in ten.
const WHOLE: &[Step<'static>] = &[Step::Open(1), Step::Bytes(1, INFO), Step::End(1)];

const IN_TEN: &[Step<'static>] = &[
    Step::Open(1),
    Step::Bytes(1, &[0]),
    Step::Bytes(1, &[0]),
    Step::Bytes(1, &[0]),
    Step::Bytes(1, &[6]),
    Step::Bytes(1, &[1]),
    Step::Bytes(1, &[10]),
    Step::Bytes(1, &[0]),
    Step::Bytes(1, &[0]),
    Step::Bytes(1, &[0]),
    Step::Bytes(1, &[1]),
];

/// A node that registers twice on connection 1, and then ClusterInfo on connection 2.
const TWICE: &[Step<'static>] = &[
    Step::Open(1),
    Step::Open(2),
    Step::Bytes(1, NODE),
    Step::Bytes(1, NODE_AGAIN),
    Step::Bytes(2, INFO_3),
];

/// A length that no frame has, and then steps that do not apply.
const TOO_SHORT: &[Step<'static>] = &[
    Step::Open(1),
    Step::Bytes(1, &[0, 0, 0, 0]),
    Step::Bytes(1, INFO),
    Step::End(1),
    Step::Open(1),
];

const TOO_LONG: &[Step<'static>] = &[
    Step::Open(1),
    Step::Bytes(1, &[0, 1, 0, 1]),
    Step::Bytes(1, INFO),
    Step::End(1),
    Step::Open(1),
];

/// The longest payload, which is no request, and then one.
const LONGEST: &[Step<'static>] = &[
    Step::Open(1),
    Step::Bytes(1, &[0, 1, 0, 0]),
    Step::Bytes(1, &[0; 65536]),
    Step::Bytes(1, INFO),
];

const HALF: &[Step<'static>] = &[
    Step::Open(1),
    Step::Bytes(1, &[0, 0, 0, 6, 1, 10]),
    Step::End(1),
    Step::End(2),
];

/// Steps, a connection and what it is answered; how many of the steps are made, how many events there are then, and whether the connection is open.
const ANSWERED: [(&[Step<'static>], u32, &[u8], usize, usize, bool); 10] = [
    (WHOLE, 1, EMPTY, 3, 1, false),
    (IN_TEN, 1, &[], 10, 0, true),
    (IN_TEN, 1, EMPTY, 11, 1, true),
    (TWICE, 1, NODE_1, 5, 3, true),
    (TWICE, 2, ONE_NODE, 5, 3, true),
    (TOO_SHORT, 1, BAD_LENGTH, 5, 0, false),
    (TOO_LONG, 1, BAD_LENGTH, 5, 0, false),
    (LONGEST, 1, BAD_MESSAGE, 4, 1, true),
    (HALF, 1, &[], 4, 0, false),
    (HALF, 2, &[], 4, 0, false),
];

#[test]
fn steps_are_answered(rt: HostRuntime) {
    for (i, &(steps, connection, output, done, events, is_open)) in ANSWERED.iter().enumerate() {
        let given = outcome(rt.alloc(), first(steps, done), connection, output);
        assert!(rt; given == Some((done, events, is_open, true)), "row {i}");
    }
}
