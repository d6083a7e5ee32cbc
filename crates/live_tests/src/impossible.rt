//! Tests of asks that no node could take, not even an empty one. They are passed over until a node comes that could.

use crate::steps::{Act, Step, Wish, follow, make};
use cap_base::RESOURCES;
use cap_testing::{Call, TWO_QUEUES, WantedContainers, cluster_after};
use std::alloc::Global;

/// A container that each node has room for.
const SMALL: [u64; RESOURCES] = [1024, 1, 0];

/// What a node has that comes later, where it has enough for all that is asked of it.
const MIDDLE: [u64; RESOURCES] = [4096, 4, 0];

/// One container anywhere, for application 2.
const ANYWHERE: &[WantedContainers<'static>] = &[WantedContainers {
    priority: 5,
    request: 0,
    count: 1,
    resource: SMALL,
    place: b"*",
}];

/// One on the host `n2`, for application 2.
const ON_N2: &[WantedContainers<'static>] = &[WantedContainers {
    priority: 5,
    request: 0,
    count: 1,
    resource: SMALL,
    place: b"n2",
}];

/// A node, and application 1 in `root.a`, where its user may have more than all asks of a table come to.
static OPENING: [Call<'static>; 3] = [
    Call::RegisterNode(b"n1", b"/r1", [4096, 3, 0]),
    Call::Submit(b"root.a", b"u1"),
    Call::RegisterMaster(1),
];

/// One ask for a host that is not there, comes, goes, and comes again under a new number. While it is gone the ask is
/// put anew.
static ABSENT_HOST: [Step; 10] = [
    Step(Act::Ask(0, &[Wish(1, 1, SMALL, b"n2")]), None),
    Step(
        Act::Call(Call::RegisterNode(b"n2", b"/r2", MIDDLE)),
        Some((1, 2)),
    ),
    Step(Act::Call(Call::NodeGone(2)), None),
    Step(
        Act::Call(Call::RegisterNode(b"n2", b"/r2", MIDDLE)),
        Some((1, 3)),
    ),
    Step(Act::Call(Call::NodeGone(3)), None),
    Step(Act::Ask(1, &[Wish(1, 2, SMALL, b"n2")]), None),
    // Another host comes first.
    Step(Act::Call(Call::RegisterNode(b"n3", b"/r3", MIDDLE)), None),
    Step(
        Act::Call(Call::RegisterNode(b"n2", b"/r3", MIDDLE)),
        Some((1, 5)),
    ),
    Step(Act::Commit, Some((1, 5))),
    Step(Act::Commit, None),
];

/// Two asks for racks. The last node of the first rack goes, its ask is put anew, and the rack comes again with another
/// host.
static ABSENT_RACKS: [Step; 10] = [
    Step(
        Act::Ask(0, &[Wish(1, 1, SMALL, b"/r2"), Wish(2, 1, SMALL, b"/r3")]),
        None,
    ),
    Step(
        Act::Call(Call::RegisterNode(b"n2", b"/r2", MIDDLE)),
        Some((1, 2)),
    ),
    Step(
        Act::Call(Call::RegisterNode(b"n3", b"/r2", MIDDLE)),
        Some((1, 2)),
    ),
    Step(Act::Call(Call::NodeGone(2)), Some((1, 3))),
    Step(Act::Call(Call::NodeGone(3)), None),
    Step(Act::Ask(1, &[Wish(1, 1, SMALL, b"/r2")]), None),
    Step(
        Act::Call(Call::RegisterNode(b"n4", b"/r2", MIDDLE)),
        Some((1, 4)),
    ),
    Step(Act::Call(Call::NodeGone(4)), None),
    Step(
        Act::Call(Call::RegisterNode(b"n5", b"/r3", MIDDLE)),
        Some((2, 5)),
    ),
    Step(Act::Commit, None),
];

/// One ask is too large for the first node in vcores alone, the other in memory alone. A node comes for each, which is
/// too small for the other.
static TOO_LARGE: [Step; 8] = [
    Step(
        Act::Ask(
            0,
            &[
                Wish(1, 1, [1024, 4, 0], b"*"),
                Wish(2, 1, [6144, 1, 0], b"*"),
            ],
        ),
        None,
    ),
    Step(
        Act::Call(Call::RegisterNode(b"n2", b"/r2", [6144, 2, 0])),
        Some((2, 2)),
    ),
    Step(Act::Call(Call::NodeGone(2)), None),
    Step(
        Act::Call(Call::RegisterNode(b"n3", b"/r3", [1024, 4, 0])),
        Some((1, 3)),
    ),
    Step(
        Act::Call(Call::RegisterNode(b"n4", b"/r4", [8192, 8, 0])),
        Some((1, 3)),
    ),
    Step(Act::Call(Call::NodeGone(3)), Some((1, 4))),
    Step(Act::Commit, Some((2, 4))),
    Step(Act::Commit, None),
];

/// An ask that is too large in one kind or the other for each node that comes, until one has both. A host comes too small
/// first.
static TOO_LARGE_OF_ALL: [Step; 8] = [
    Step(
        Act::Ask(
            0,
            &[Wish(1, 1, [6144, 4, 0], b"*"), Wish(2, 1, SMALL, b"n9")],
        ),
        None,
    ),
    Step(
        Act::Call(Call::RegisterNode(b"n2", b"/r2", [8192, 2, 0])),
        None,
    ),
    Step(Act::Call(Call::RegisterNode(b"n3", b"/r3", MIDDLE)), None),
    Step(
        Act::Call(Call::RegisterNode(b"n4", b"/r4", [6144, 4, 0])),
        Some((1, 4)),
    ),
    Step(Act::Commit, None),
    Step(
        Act::Call(Call::RegisterNode(b"n9", b"/r9", [512, 1, 0])),
        None,
    ),
    Step(Act::Call(Call::NodeGone(5)), None),
    Step(
        Act::Call(Call::RegisterNode(b"n9", b"/r9", [1024, 1, 0])),
        Some((2, 6)),
    ),
];

/// Two asks that the first node takes stand between seven for what is not there. Then these are served as it comes,
/// with others before and behind.
static ONE_OF_MANY: [Step; 13] = [
    Step(
        Act::Ask(
            0,
            &[
                Wish(1, 1, SMALL, b"n2"),
                Wish(2, 1, SMALL, b"n3"),
                Wish(3, 1, SMALL, b"/r2"),
                Wish(4, 1, SMALL, b"*"),
                Wish(5, 1, SMALL, b"n2"),
                Wish(6, 1, SMALL, b"n3"),
                Wish(7, 1, SMALL, b"/r3"),
                Wish(8, 1, SMALL, b"n1"),
                Wish(9, 1, SMALL, b"n4"),
            ],
        ),
        Some((4, 1)),
    ),
    Step(Act::Commit, Some((8, 1))),
    Step(Act::Commit, None),
    Step(
        Act::Call(Call::RegisterNode(b"n3", b"/r4", MIDDLE)),
        Some((2, 2)),
    ),
    Step(Act::Commit, Some((6, 2))),
    Step(Act::Commit, None),
    Step(
        Act::Call(Call::RegisterNode(b"n2", b"/r3", MIDDLE)),
        Some((1, 3)),
    ),
    Step(Act::Commit, Some((5, 3))),
    Step(Act::Commit, Some((7, 3))),
    Step(Act::Commit, None),
    Step(
        Act::Call(Call::RegisterNode(b"n4", b"/r2", MIDDLE)),
        Some((3, 4)),
    ),
    Step(Act::Commit, Some((9, 4))),
    Step(Act::Commit, None),
];

/// Of a key an impossible ask gives way to a possible one, and the other way round, by place and by size.
static REPLACED: [Step; 8] = [
    Step(
        Act::Ask(0, &[Wish(1, 1, SMALL, b"n2"), Wish(2, 1, SMALL, b"n3")]),
        None,
    ),
    Step(Act::Ask(1, &[Wish(1, 1, SMALL, b"n1")]), Some((1, 1))),
    Step(Act::Ask(2, &[Wish(1, 1, SMALL, b"n2")]), None),
    Step(Act::Ask(3, &[Wish(1, 1, SMALL, b"*")]), Some((1, 1))),
    Step(Act::Ask(4, &[Wish(1, 1, [8192, 1, 0], b"*")]), None),
    Step(
        Act::Call(Call::RegisterNode(b"n3", b"/r3", MIDDLE)),
        Some((2, 2)),
    ),
    Step(Act::Ask(5, &[Wish(2, 1, SMALL, b"n4")]), None),
    Step(
        Act::Call(Call::RegisterNode(b"n4", b"/r4", [8192, 4, 0])),
        Some((1, 3)),
    ),
];

/// Possible and impossible asks are taken away before each other, and at last all are.
static TAKEN_AWAY: [Step; 7] = [
    Step(
        Act::Ask(
            0,
            &[
                Wish(1, 1, SMALL, b"n2"),
                Wish(2, 1, SMALL, b"*"),
                Wish(3, 1, SMALL, b"n3"),
                Wish(4, 1, SMALL, b"n1"),
            ],
        ),
        Some((2, 1)),
    ),
    Step(Act::Ask(1, &[Wish(1, 0, SMALL, b"n2")]), Some((2, 1))),
    Step(Act::Ask(2, &[Wish(2, 0, SMALL, b"*")]), Some((4, 1))),
    Step(Act::Ask(3, &[Wish(4, 0, SMALL, b"n1")]), None),
    Step(
        Act::Call(Call::RegisterNode(b"n3", b"/r3", MIDDLE)),
        Some((3, 2)),
    ),
    Step(Act::Ask(4, &[Wish(3, 0, SMALL, b"n3")]), None),
    Step(Act::Ask(5, &[Wish(1, 1, SMALL, b"n1")]), Some((1, 1))),
];

/// Each ask goes in front of those that were put before it.
static DESCENDING: [Step; 14] = [
    Step(Act::Ask(0, &[Wish(9, 1, SMALL, b"n2")]), None),
    Step(Act::Ask(1, &[Wish(8, 1, SMALL, b"*")]), Some((8, 1))),
    Step(Act::Ask(2, &[Wish(7, 1, SMALL, b"n3")]), Some((8, 1))),
    Step(Act::Ask(3, &[Wish(6, 1, SMALL, b"n1")]), Some((6, 1))),
    Step(Act::Ask(4, &[Wish(5, 1, SMALL, b"/r3")]), Some((6, 1))),
    Step(Act::Commit, Some((8, 1))),
    Step(Act::Commit, None),
    Step(
        Act::Call(Call::RegisterNode(b"n3", b"/r4", MIDDLE)),
        Some((7, 2)),
    ),
    Step(Act::Ask(5, &[Wish(4, 1, SMALL, b"n3")]), Some((4, 2))),
    Step(Act::Commit, Some((7, 2))),
    Step(Act::Commit, None),
    Step(
        Act::Call(Call::RegisterNode(b"n5", b"/r3", MIDDLE)),
        Some((5, 3)),
    ),
    Step(Act::Commit, None),
    Step(
        Act::Call(Call::RegisterNode(b"n2", b"/r2", MIDDLE)),
        Some((9, 4)),
    ),
];

/// The first node is full when an ask for it comes. It is not impossible: the node is reserved, and granted once there is
/// room.
static FULL_NODE: [Step; 6] = [
    Step(Act::Ask(0, &[Wish(1, 1, [4096, 3, 0], b"*")]), Some((1, 1))),
    Step(Act::Commit, None),
    Step(
        Act::Ask(1, &[Wish(2, 1, SMALL, b"n1"), Wish(3, 1, SMALL, b"n2")]),
        Some((2, 1)),
    ),
    Step(Act::Commit, None),
    Step(Act::Call(Call::Heartbeat(1, 0, &[1])), Some((2, 1))),
    Step(Act::Commit, None),
];

/// All asks of application 1 are impossible, and application 2 behind it is served. Then nothing impossible is left, and
/// such an ask comes again.
static TWO_APPLICATIONS: [Step; 11] = [
    Step(
        Act::Ask(0, &[Wish(1, 1, SMALL, b"n2"), Wish(2, 1, SMALL, b"n3")]),
        None,
    ),
    Step(Act::Call(Call::Submit(b"root.a", b"u2")), None),
    Step(Act::Call(Call::RegisterMaster(2)), None),
    Step(Act::Call(Call::Allocate(2, 0, ANYWHERE, &[])), Some((5, 1))),
    // The first node of the ring that takes one comes first.
    Step(
        Act::Call(Call::RegisterNode(b"n2", b"/r2", MIDDLE)),
        Some((5, 1)),
    ),
    Step(Act::Commit, Some((1, 2))),
    Step(Act::Commit, None),
    Step(
        Act::Call(Call::RegisterNode(b"n3", b"/r3", MIDDLE)),
        Some((2, 3)),
    ),
    Step(Act::Commit, None),
    Step(Act::Ask(1, &[Wish(1, 1, SMALL, b"n4")]), None),
    Step(
        Act::Call(Call::RegisterNode(b"n4", b"/r4", MIDDLE)),
        Some((1, 4)),
    ),
];

/// Application 1, which asks for nothing, finishes while the ask of application 2 is impossible.
static FINISHED_BEFORE: [Step; 6] = [
    Step(Act::Call(Call::Submit(b"root.a", b"u2")), None),
    Step(Act::Call(Call::RegisterMaster(2)), None),
    Step(Act::Call(Call::Allocate(2, 0, ON_N2, &[])), None),
    Step(Act::Call(Call::FinishMaster(1)), None),
    Step(
        Act::Call(Call::RegisterNode(b"n2", b"/r2", MIDDLE)),
        Some((5, 2)),
    ),
    Step(Act::Commit, None),
];

/// An act, and the application that waits first in the tree after it.
struct Waiter(Act, Option<u64>);

/// Application 1 waits in the tree while one of its asks may be possible: not with asks for an absent host alone, nor once
/// the one that is possible is granted. It waits again when the host comes, and until its ask is put anew once that has gone.
static IN_THE_TREE: [Waiter; 11] = [
    Waiter(Act::Ask(0, &[Wish(1, 1, SMALL, b"n2")]), None),
    Waiter(Act::Ask(1, &[Wish(2, 1, SMALL, b"*")]), Some(1)),
    Waiter(Act::Commit, None),
    Waiter(Act::Call(Call::RegisterNode(b"n3", b"/r3", MIDDLE)), None),
    Waiter(
        Act::Call(Call::RegisterNode(b"n2", b"/r2", MIDDLE)),
        Some(1),
    ),
    Waiter(Act::Call(Call::NodeGone(3)), Some(1)),
    Waiter(Act::Ask(2, &[Wish(1, 2, SMALL, b"n2")]), None),
    Waiter(Act::Call(Call::Submit(b"root.a", b"u2")), None),
    Waiter(Act::Call(Call::RegisterMaster(2)), None),
    Waiter(Act::Call(Call::Allocate(2, 0, ANYWHERE, &[])), Some(2)),
    Waiter(
        Act::Call(Call::RegisterNode(b"n2", b"/r2", MIDDLE)),
        Some(1),
    ),
];

/// An application that sleeps finishes, and the one behind it sleeps on until its host comes.
static FINISHED_ASLEEP: [Waiter; 6] = [
    Waiter(Act::Ask(0, &[Wish(1, 1, SMALL, b"n2")]), None),
    Waiter(Act::Call(Call::Submit(b"root.a", b"u2")), None),
    Waiter(Act::Call(Call::RegisterMaster(2)), None),
    Waiter(Act::Call(Call::Allocate(2, 0, ON_N2, &[])), None),
    Waiter(Act::Call(Call::FinishMaster(1)), None),
    Waiter(
        Act::Call(Call::RegisterNode(b"n2", b"/r2", MIDDLE)),
        Some(2),
    ),
];

/// How many of the acts leave that application first in the tree, once the first node and application 1 are there.
fn waited(alloc: Global, waiters: &[Waiter]) -> Option<usize> {
    let mut cluster = cluster_after(alloc, TWO_QUEUES, &OPENING)?;
    for (index, Waiter(act, first)) in waiters.iter().enumerate() {
        make(alloc, &mut cluster, act)?;
        if cluster.tree().first_served() != *first {
            return Some(index);
        }
    }
    Some(waiters.len())
}

/// How many of the steps are as they say once the first node and application 1 are there.
fn followed(alloc: Global, steps: &[Step]) -> Option<usize> {
    let mut cluster = cluster_after(alloc, TWO_QUEUES, &OPENING)?;
    follow(alloc, &mut cluster, steps)
}

#[test]
fn an_ask_for_a_host_waits_for_it(rt: HostRuntime) {
    assert!(rt; followed(rt.alloc(), &ABSENT_HOST) == Some(10));
}

#[test]
fn asks_for_racks_wait_for_them(rt: HostRuntime) {
    assert!(rt; followed(rt.alloc(), &ABSENT_RACKS) == Some(10));
}

#[test]
fn asks_too_large_in_one_kind_wait_for_a_node_with_more_of_it(rt: HostRuntime) {
    assert!(rt; followed(rt.alloc(), &TOO_LARGE) == Some(8));
}

#[test]
fn an_ask_waits_for_one_node_that_has_enough_of_all_kinds(rt: HostRuntime) {
    assert!(rt; followed(rt.alloc(), &TOO_LARGE_OF_ALL) == Some(8));
}

#[test]
fn the_possible_ones_of_many_asks_are_served(rt: HostRuntime) {
    assert!(rt; followed(rt.alloc(), &ONE_OF_MANY) == Some(13));
}

#[test]
fn an_ask_counts_as_it_was_put_last(rt: HostRuntime) {
    assert!(rt; followed(rt.alloc(), &REPLACED) == Some(8));
}

#[test]
fn asks_behind_one_that_is_taken_away_stay_as_they_are(rt: HostRuntime) {
    assert!(rt; followed(rt.alloc(), &TAKEN_AWAY) == Some(7));
}

#[test]
fn asks_behind_one_that_is_put_stay_as_they_are(rt: HostRuntime) {
    assert!(rt; followed(rt.alloc(), &DESCENDING) == Some(14));
}

#[test]
fn an_ask_for_a_full_node_is_not_impossible(rt: HostRuntime) {
    assert!(rt; followed(rt.alloc(), &FULL_NODE) == Some(6));
}

#[test]
fn an_application_behind_one_with_impossible_asks_is_served(rt: HostRuntime) {
    assert!(rt; followed(rt.alloc(), &TWO_APPLICATIONS) == Some(11));
}

#[test]
fn an_ask_waits_for_its_host_where_an_application_before_it_has_finished(rt: HostRuntime) {
    assert!(rt; followed(rt.alloc(), &FINISHED_BEFORE) == Some(6));
}

#[test]
fn an_application_waits_in_the_tree_while_an_ask_may_be_possible(rt: HostRuntime) {
    assert!(rt; waited(rt.alloc(), &IN_THE_TREE) == Some(11));
}

#[test]
fn an_application_that_sleeps_may_finish(rt: HostRuntime) {
    assert!(rt; waited(rt.alloc(), &FINISHED_ASLEEP) == Some(6));
}
