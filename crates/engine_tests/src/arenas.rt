//! Tests of trees that are copied into arenas and out of them, and of proposals on snapshots in an arena.

use bumpalo::Bump;
use cap_base::RESOURCES;
use cap_commit::Cluster;
use cap_copy::{Snapshot, copy_tree};
use cap_model::Proposal;
use cap_propose::propose;
use cap_testing::{Call, WantedContainers, cluster_after};
use cap_tree::{Found, QueueTree};
use std::alloc::Global;

/// A queue `g` with two leaf queues.
const GROUP: &[u8] = b"yarn.scheduler.capacity.root.queues=g
yarn.scheduler.capacity.root.g.queues=p,q
yarn.scheduler.capacity.root.g.capacity=[memory=8192,vcores=8]
yarn.scheduler.capacity.root.g.p.capacity=[memory=4096,vcores=4]
yarn.scheduler.capacity.root.g.q.capacity=[memory=4096,vcores=4]
";

/// Two nodes, and application 1 of `u1` in `root.g.q`, which asks for three containers of (1024, 1).
const CALLS: [Call<'static>; 5] = [
    Call::RegisterNode(b"n1", b"/r1", [4096, 4, 0]),
    Call::RegisterNode(b"n2", b"/r1", [4096, 4, 0]),
    Call::Submit(b"root.g.q", b"u1"),
    Call::RegisterMaster(1),
    Call::Allocate(
        1,
        0,
        &[WantedContainers {
            priority: 1,
            request: 0,
            count: 3,
            resource: [1024, 1, 0],
            place: b"*",
        }],
        &[],
    ),
];

/// A cluster in which the application's grants are made so often.
fn after_turns(alloc: Global, turns: usize) -> Option<Cluster<RESOURCES>> {
    let mut cluster = cluster_after(alloc, GROUP, &CALLS)?;
    match make_turns(alloc, &mut cluster, turns) {
        Some(()) => Some(cluster),
        None => None,
    }
}

/// The application's grants are made so often, each by a snapshot outside an arena, on the first of two nodes.
fn make_turns(alloc: Global, cluster: &mut Cluster<RESOURCES>, turns: usize) -> Option<()> {
    for _ in 0..turns {
        let proposal = proposed(alloc, cluster)?;
        let _verdict = cluster.try_commit(proposal).ok()?;
    }
    Some(())
}

fn proposed(alloc: Global, cluster: &Cluster<RESOURCES>) -> Option<Proposal<RESOURCES>> {
    let snapshot = Snapshot::take(alloc, cluster.tree(), cluster.apps(), cluster.nodes()).ok()?;
    propose(&snapshot, 0)
}

fn use_of(tree: &QueueTree<RESOURCES, Global>, path: &str) -> Option<[u64; RESOURCES]> {
    match tree.find(path.as_bytes()) {
        Found::Leaf(position) | Found::Parent(position) => {
            Some(tree.use_of(&position).amounts())
        }
        Found::Missing => None,
    }
}

/// What is used in `root.g.q` and in `root.g.p`.
fn uses(tree: &QueueTree<RESOURCES, Global>) -> Option<[[u64; RESOURCES]; 2]> {
    Some([use_of(tree, "root.g.q")?, use_of(tree, "root.g.p")?])
}

/// What a tree shows, and what another shows.
fn uses_of_both(
    tree: &QueueTree<RESOURCES, Global>,
    other: &QueueTree<RESOURCES, Global>,
) -> Option<[[[u64; RESOURCES]; 2]; 2]> {
    Some([uses(tree)?, uses(other)?])
}

/// A copy of a tree's copy in an arena.
fn copied_through(
    alloc: Global,
    arena: &Bump,
    tree: &QueueTree<RESOURCES, Global>,
) -> Option<QueueTree<RESOURCES, Global>> {
    match copy_tree(arena, tree) {
        Ok(inside) => copy_tree(alloc, &inside).ok(),
        Err(_) => None,
    }
}

/// What a tree shows, and what a copy of its copy in an arena shows.
fn copied_in(
    alloc: Global,
    arena: &Bump,
    tree: &QueueTree<RESOURCES, Global>,
) -> Option<[[[u64; RESOURCES]; 2]; 2]> {
    match copied_through(alloc, arena, tree) {
        Some(copy) => uses_of_both(tree, &copy),
        None => None,
    }
}

/// The same of the tree of the cluster after so many turns.
fn copied(alloc: Global, turns: usize) -> Option<[[[u64; RESOURCES]; 2]; 2]> {
    let cluster = after_turns(alloc, turns)?;
    let arena = Bump::new(alloc);
    copied_in(alloc, &arena, cluster.tree())
}

#[test]
fn a_tree_is_copied_into_an_arena_and_out_of_it(rt: HostRuntime) {
    for &(turns, shown) in &[(0, [[0, 0, 0], [0, 0, 0]]), (2, [[2048, 2, 0], [0, 0, 0]])] {
        assert!(rt; copied(rt.alloc(), turns) == Some([shown, shown]));
    }
}

/// What is proposed in an arena from a starting node.
fn proposal_in(
    arena: &Bump,
    cluster: &Cluster<RESOURCES>,
    start: u32,
) -> Option<Proposal<RESOURCES>> {
    let snapshot = Snapshot::take(arena, cluster.tree(), cluster.apps(), cluster.nodes()).ok()?;
    propose(&snapshot, start)
}

/// Whether a grant is proposed in an arena from a starting node, of which application, on which node, and of what resource.
fn proposed_in(
    arena: &Bump,
    cluster: &Cluster<RESOURCES>,
    start: u32,
) -> Option<(bool, u64, u64, [u64; RESOURCES])> {
    let proposal = proposal_in(arena, cluster, start)?;
    let resource = proposal.resource().amounts();
    Some((
        proposal.is_grant(),
        proposal.app(),
        proposal.node(),
        resource,
    ))
}

/// The same for two starting nodes, in one arena that is reset in between.
fn proposed_twice_in(
    arena: &mut Bump,
    cluster: &Cluster<RESOURCES>,
) -> Option<[Option<(bool, u64, u64, [u64; RESOURCES])>; 2]> {
    let first = proposed_in(arena, cluster, 0);
    arena.reset().ok()?;
    let second = proposed_in(arena, cluster, 5);
    Some([first, second])
}

/// The same in the cluster after so many turns.
fn proposed_twice(
    alloc: Global,
    turns: usize,
) -> Option<[Option<(bool, u64, u64, [u64; RESOURCES])>; 2]> {
    let cluster = after_turns(alloc, turns)?;
    let mut arena = Bump::new(alloc);
    proposed_twice_in(&mut arena, &cluster)
}

#[test]
fn an_arena_holds_one_snapshot_after_the_other(rt: HostRuntime) {
    let on_first = Some((true, 1, 1, [1024, 1, 0]));
    let on_second = Some((true, 1, 2, [1024, 1, 0]));
    for &(turns, answer) in &[
        (0, [on_first, on_second]),
        (2, [on_first, on_second]),
        (3, [None, None]),
    ] {
        assert!(rt; proposed_twice(rt.alloc(), turns) == Some(answer));
    }
}
