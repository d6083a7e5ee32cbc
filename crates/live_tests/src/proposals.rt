//! Tests of proposals on a live cluster: they are those on its snapshot, from each starting node.

use cap_base::RESOURCES;
use cap_commit::Cluster;
use cap_copy::Snapshot;
use cap_live::propose_live;
use cap_model::{Key, Proposal, ProposalKind};
use cap_propose::propose;
use cap_testing::{Call, TWO_QUEUES, WantedContainers, cluster, make_call};
use std::alloc::Global;

/// Two of (2048, 1) anywhere, and one of (1024, 1) on `/r2`.
const ASKS_OF_1: &[WantedContainers<'static>] = &[
    WantedContainers {
        priority: 1,
        request: 0,
        count: 2,
        resource: [2048, 1, 0],
        place: b"*",
    },
    WantedContainers {
        priority: 2,
        request: 0,
        count: 1,
        resource: [1024, 1, 0],
        place: b"/r2",
    },
];

/// Two of (1024, 1) on `n1`.
const ASKS_OF_2: &[WantedContainers<'static>] = &[WantedContainers {
    priority: 1,
    request: 0,
    count: 2,
    resource: [1024, 1, 0],
    place: b"n1",
}];

/// Application 1 in `root.a` and application 2 in `root.b` with their asks, application 3 that asks for nothing, and two nodes.
static CALLS: [Call<'static>; 10] = [
    Call::RegisterNode(b"n1", b"/r1", [4096, 4, 0]),
    Call::Submit(b"root.a", b"u1"),
    Call::RegisterMaster(1),
    Call::Submit(b"root.b", b"u2"),
    Call::Allocate(1, 0, ASKS_OF_1, &[]),
    Call::RegisterMaster(2),
    Call::Allocate(2, 0, ASKS_OF_2, &[]),
    Call::Submit(b"root.b", b"u3"),
    Call::RegisterMaster(3),
    Call::RegisterNode(b"n2", b"/r2", [2048, 2, 0]),
];

/// The second container, which is on `n2`, ends.
const END: Call<'static> = Call::Heartbeat(2, 0, &[2]);

/// One on the host `n3`, one on the rack `/r3`, and one of (6144, 4) anywhere.
const ASKS_AHEAD: &[WantedContainers<'static>] = &[
    WantedContainers {
        priority: 1,
        request: 0,
        count: 1,
        resource: [1024, 1, 0],
        place: b"n3",
    },
    WantedContainers {
        priority: 2,
        request: 0,
        count: 1,
        resource: [1024, 1, 0],
        place: b"/r3",
    },
    WantedContainers {
        priority: 3,
        request: 0,
        count: 1,
        resource: [6144, 4, 0],
        place: b"*",
    },
];

/// A call, and what is proposed after it from the first node on: the priority of the ask and the number of the node.
struct Visit {
    call: Call<'static>,
    chosen: Option<(u32, u64)>,
}

/// The asks come before each node that can take one, and nodes come and go.
static VISITS: [Visit; 14] = [
    Visit {
        call: Call::RegisterNode(b"n1", b"/r1", [4096, 4, 0]),
        chosen: None,
    },
    Visit {
        call: Call::Submit(b"root.a", b"u1"),
        chosen: None,
    },
    Visit {
        call: Call::RegisterMaster(1),
        chosen: None,
    },
    Visit {
        call: Call::Allocate(1, 0, ASKS_AHEAD, &[]),
        chosen: None,
    },
    // The host and the rack come, and go.
    Visit {
        call: Call::RegisterNode(b"n3", b"/r3", [4096, 4, 0]),
        chosen: Some((1, 2)),
    },
    Visit {
        call: Call::NodeGone(2),
        chosen: None,
    },
    // The rack comes again with another host, then a second node of it.
    Visit {
        call: Call::RegisterNode(b"n2", b"/r3", [2048, 2, 0]),
        chosen: Some((2, 3)),
    },
    Visit {
        call: Call::RegisterNode(b"n4", b"/r3", [2048, 2, 0]),
        chosen: Some((2, 3)),
    },
    Visit {
        call: Call::NodeGone(3),
        chosen: Some((2, 4)),
    },
    // Its last node goes, and the host comes again.
    Visit {
        call: Call::NodeGone(4),
        chosen: None,
    },
    Visit {
        call: Call::RegisterNode(b"n3", b"/r1", [2048, 2, 0]),
        chosen: Some((1, 5)),
    },
    Visit {
        call: Call::NodeGone(5),
        chosen: None,
    },
    // A node comes that is large enough, and goes.
    Visit {
        call: Call::RegisterNode(b"n6", b"/r6", [8192, 8, 0]),
        chosen: Some((3, 6)),
    },
    Visit {
        call: Call::NodeGone(6),
        chosen: None,
    },
];

/// What a proposal is made of, to compare.
type Parts = (bool, u64, Key, u64, [u64; RESOURCES]);

fn parts(proposal: Option<Proposal<RESOURCES>>) -> Option<Parts> {
    let proposal = proposal?;
    Some((
        proposal.kind == ProposalKind::Grant,
        proposal.app,
        proposal.key,
        proposal.node,
        proposal.resource.amounts(),
    ))
}

/// Whether the proposals on the cluster and on its snapshot are the same from the first five starting nodes. `None` if an allocation
/// fails.
pub(crate) fn propose_alike(alloc: Global, cluster: &Cluster<RESOURCES>) -> Option<bool> {
    let snapshot = Snapshot::take(alloc, cluster.tree(), cluster.apps(), cluster.nodes()).ok()?;
    for start in 0..5 {
        if parts(propose_live(cluster, start)) != parts(propose(&snapshot, start)) {
            return Some(false);
        }
    }
    Some(true)
}

/// A cluster after the calls. `None` if proposals differ before or after one of them, or an allocation fails.
fn called(alloc: Global) -> Option<Cluster<RESOURCES>> {
    let mut cluster = cluster(alloc, TWO_QUEUES)?;
    for call in &CALLS {
        make_call(alloc, &mut cluster, call)?;
        if !propose_alike(alloc, &cluster)? {
            return None;
        }
    }
    Some(cluster)
}

/// How many proposals can be made one after the other, the first from the node at `start` on and each next from one node later.
/// `None` if proposals differ after one of them, or an allocation fails.
fn turns(alloc: Global, cluster: &mut Cluster<RESOURCES>, start: u32) -> Option<u32> {
    for made in 0..8 {
        let Some(proposal) = propose_live(cluster, start.wrapping_add(made)) else {
            return Some(made);
        };
        let _verdict = cluster.try_commit(proposal).ok()?;
        if !propose_alike(alloc, cluster)? {
            return None;
        }
    }
    None
}

/// How many proposals are made at first, and once the container has ended.
fn made(alloc: Global) -> Option<(u32, u32)> {
    let mut cluster = called(alloc)?;
    let before = turns(alloc, &mut cluster, 0)?;
    make_call(alloc, &mut cluster, &END)?;
    let after = turns(alloc, &mut cluster, 1)?;
    Some((before, after))
}

#[test]
fn proposals_on_a_cluster_are_those_on_its_snapshot(rt: HostRuntime) {
    // Four are granted; the ask for `/r2` gets a reservation on `n2`, which is converted once there is room.
    assert!(rt; made(rt.alloc()) == Some((5, 1)));
}

/// The priority of the ask and the number of the node of what is proposed from the first node on.
pub(crate) fn chosen(cluster: &Cluster<RESOURCES>) -> Option<(u32, u64)> {
    let proposal = propose_live(cluster, 0)?;
    Some((proposal.key.priority, proposal.node))
}

/// How many of the visits are as the table says, each with the same proposals on the cluster and on its snapshot. `None` if these differ,
/// or an allocation fails.
fn visited(alloc: Global) -> Option<usize> {
    let mut cluster = cluster(alloc, TWO_QUEUES)?;
    for (index, visit) in VISITS.iter().enumerate() {
        make_call(alloc, &mut cluster, &visit.call)?;
        if !propose_alike(alloc, &cluster)? {
            return None;
        }
        if chosen(&cluster) != visit.chosen {
            return Some(index);
        }
    }
    Some(VISITS.len())
}

#[test]
fn asks_for_what_is_not_there_wait_for_it(rt: HostRuntime) {
    assert!(rt; visited(rt.alloc()) == Some(14));
}
