//! Tests of turns and offers: two workers that propose the same, starts that wrap, a full journal, an offer that the committer takes.

use crate::workers::epochs::take_turns;
use crate::workers::offering::{Offered, Offering};
use crate::workers::turning::Came;
use cap_base::RESOURCES;
use cap_commit::Cluster;
use cap_model::Reason;
use cap_testing::{Call, TWO_QUEUES, WantedContainers, cluster_after, epoch, first};
use std::alloc::Global;
use std::sync::Wait;
use std::sync::atomic::{AtomicU64, Ordering};
use std::test::*;
use std::thread::Threads;

/// So many nodes, one or two, and application 1 of `u1` in `root.a`, which asks for so many containers of (1024, 1).
pub fn filled(alloc: Global, nodes: usize, count: u32) -> Option<Cluster<RESOURCES>> {
    let asks = [WantedContainers {
        priority: 1,
        request: 0,
        count,
        resource: [1024, 1, 0],
        place: b"*",
    }];
    let calls = [
        Call::Submit(b"root.a", b"u1"),
        Call::RegisterMaster(1),
        Call::Allocate(1, 0, &asks, &[]),
        Call::RegisterNode(b"n1", b"/r1", [8192, 8, 0]),
        Call::RegisterNode(b"n2", b"/r1", [8192, 8, 0]),
    ];
    cluster_after(alloc, TWO_QUEUES, first(&calls, nodes.saturating_add(3)))
}

/// What came of the turns in an epoch over such a cluster.
fn turns<H: Wait>(
    rt: &H,
    alloc: Global,
    (nodes, count): (usize, u32),
    limit: usize,
    seats: u32,
    start: u32,
) -> Option<Vec<Came>> {
    let cluster = filled(alloc, nodes, count)?;
    let mut came = Vec::new(alloc);
    take_turns(rt, alloc, cluster, limit, seats, start, &mut came);
    Some(came)
}

/// A container of this number was granted on this node.
fn granted(container: u64, node: u64) -> Came {
    Came::Granted { container, node }
}

/// Whether this came of the turns.
fn is_turned(came: Option<Vec<Came>>, want: &[Came]) -> bool {
    match came {
        Some(came) => came.as_slice() == want,
        None => false,
    }
}

#[test]
fn two_workers_propose_the_same_and_one_of_them_gets_it(rt: HostRuntime) {
    let came = turns(&rt, rt.alloc(), (1, 1), 100, 2, 0);
    assert!(rt; is_turned(came, &[granted(1, 1), Came::Rejected(Reason::NoAsk)]));
}

#[test]
fn a_turn_with_nothing_to_propose(rt: HostRuntime) {
    let came = turns(&rt, rt.alloc(), (1, 1), 100, 1, 0);
    let want = [
        granted(1, 1),
        Came::Nothing,
        Came::Nothing,
        Came::Points(1_231_212),
    ];
    assert!(rt; is_turned(came, &want));
}

#[test]
fn starts_go_up_and_wrap(rt: HostRuntime) {
    for &(start, nodes) in &[(0, [1, 2, 1]), (u32::MAX, [2, 1, 2])] {
        let came = turns(&rt, rt.alloc(), (2, 3), 100, 1, start);
        let [first, second, third] = nodes;
        let want = [
            granted(1, first),
            granted(2, second),
            granted(3, third),
            Came::Points(123_123_123),
        ];
        assert!(rt; is_turned(came, &want), "from {start}");
    }
}

#[test]
fn a_full_journal_gives_the_proposal_back(rt: HostRuntime) {
    let came = turns(&rt, rt.alloc(), (2, 3), 2, 1, 0);
    let want = [
        granted(1, 1),
        granted(2, 2),
        Came::Sealed { node: 1 },
        Came::Points(123_123_123),
    ];
    assert!(rt; is_turned(came, &want));
}

/// How many of the two offers of a worker, which the committer takes and commits, went as they have to, and how many entries the journal has then.
fn offers<H: Threads + Wait + Sync>(rt: &H, alloc: Global) -> Option<(u64, usize)> {
    let cluster = filled(alloc, 1, 1)?;
    let taken = Offered::Taken {
        worker: 0,
        app: 1,
        node: 1,
    };
    let offering = Offering {
        alloc,
        wanted: [taken, Offered::Nothing],
        right: AtomicU64::new(0),
    };
    let closed = epoch(rt, alloc, cluster, 1, 100, &offering)?;
    Some((offering.right.load(Ordering::SeqCst), closed.journal.len()))
}

#[test]
fn an_offer_is_taken_by_the_committer(rt: HostRuntime) {
    assert!(rt; offers(&rt, rt.alloc()) == Some((2, 1)));
}
