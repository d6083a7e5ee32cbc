//! Tests of an application that is passed over while none of its asks can be served, and is served once one can.

use crate::steps::{Act, Step, Wish, follow};
use cap_testing::{Call, SMALL_QUEUES, TWO_QUEUES, cluster};
use std::alloc::Global;

/// In `root.b` a user may have (2048, 8). Its memory is full with the first container, and has room again once that ends.
static OVER_USER_LIMIT: [Step; 8] = [
    Step(
        Act::Call(Call::RegisterNode(b"n1", b"/r1", [8192, 8, 0])),
        None,
    ),
    Step(Act::Call(Call::Submit(b"root.b", b"u1")), None),
    Step(Act::Call(Call::RegisterMaster(1)), None),
    Step(
        Act::Ask(
            0,
            &[
                Wish(1, 1, [2048, 1, 0], b"*"),
                Wish(2, 2, [1024, 1, 0], b"*"),
                Wish(3, 1, [1024, 4, 0], b"*"),
            ],
        ),
        Some((1, 1)),
    ),
    Step(Act::Commit, None),
    Step(Act::Call(Call::Heartbeat(1, 0, &[1])), Some((2, 1))),
    Step(Act::Commit, Some((2, 1))),
    Step(Act::Commit, None),
];

/// `root.a` has at most (2048, 2). With (1024, 1) in use it is full for the first of two asks, and not for the second.
static FULL_FOR_THE_LARGER: [Step; 7] = [
    Step(
        Act::Call(Call::RegisterNode(b"n1", b"/r1", [8192, 8, 0])),
        None,
    ),
    Step(Act::Call(Call::Submit(b"root.a", b"u1")), None),
    Step(Act::Call(Call::RegisterMaster(1)), None),
    Step(Act::Ask(0, &[Wish(1, 1, [1024, 1, 0], b"*")]), Some((1, 1))),
    Step(Act::Commit, None),
    Step(
        Act::Ask(
            1,
            &[
                Wish(2, 1, [2048, 1, 0], b"*"),
                Wish(3, 1, [1024, 1, 0], b"*"),
            ],
        ),
        Some((3, 1)),
    ),
    Step(Act::Commit, None),
];

/// Asks that are more than each node has, until a larger node comes. Then they are taken away, and smaller ones come.
static MORE_THAN_A_NODE: [Step; 9] = [
    Step(
        Act::Call(Call::RegisterNode(b"n1", b"/r1", [4096, 4, 0])),
        None,
    ),
    Step(Act::Call(Call::Submit(b"root.a", b"u1")), None),
    Step(Act::Call(Call::RegisterMaster(1)), None),
    Step(
        Act::Ask(
            0,
            &[
                Wish(1, 1, [6144, 4, 0], b"*"),
                Wish(2, 1, [7168, 4, 0], b"*"),
            ],
        ),
        None,
    ),
    Step(
        Act::Call(Call::RegisterNode(b"n2", b"/r2", [8192, 8, 0])),
        Some((1, 2)),
    ),
    Step(Act::Call(Call::NodeGone(2)), None),
    // Both go.
    Step(
        Act::Ask(
            1,
            &[
                Wish(1, 0, [6144, 4, 0], b"*"),
                Wish(2, 0, [7168, 4, 0], b"*"),
            ],
        ),
        None,
    ),
    // One as large comes again, and a smaller one.
    Step(
        Act::Ask(
            2,
            &[
                Wish(1, 1, [6144, 4, 0], b"*"),
                Wish(2, 1, [2048, 1, 0], b"*"),
            ],
        ),
        Some((2, 1)),
    ),
    Step(Act::Commit, None),
];

/// How many of the steps are as they say in a cluster that these lines open.
fn followed(alloc: Global, lines: &[u8], steps: &[Step]) -> Option<usize> {
    let mut cluster = cluster(alloc, lines)?;
    follow(alloc, &mut cluster, steps)
}

#[test]
fn asks_over_the_user_limit_wait_for_an_end(rt: HostRuntime) {
    assert!(rt; followed(rt.alloc(), TWO_QUEUES, &OVER_USER_LIMIT) == Some(8));
}

#[test]
fn a_queue_that_is_full_for_one_ask_serves_a_smaller_one(rt: HostRuntime) {
    assert!(rt; followed(rt.alloc(), SMALL_QUEUES, &FULL_FOR_THE_LARGER) == Some(7));
}

#[test]
fn asks_larger_than_each_node_wait_and_smaller_ones_do_not(rt: HostRuntime) {
    assert!(rt; followed(rt.alloc(), TWO_QUEUES, &MORE_THAN_A_NODE) == Some(9));
}
