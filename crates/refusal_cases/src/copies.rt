//! Snapshots of which each allocation is refused (`SNAPSHOTS`), outside an arena and in one, and what comes of one (`came`).
use crate::cases::Case;
use crate::fixture::{came_of, cluster_after};
use crate::table::Before;
use bumpalo::Bump;
use cap_base::RESOURCES;
use cap_commit::Cluster;
use cap_copy::Snapshot;
use cap_model::Proposal;
use cap_propose::propose;
use cap_testing::are_alike;
use memory_testing::{Came, Hoard};
use std::alloc::Global;

/// Where a snapshot is taken.
#[derive(Clone, Copy)]
pub enum Taken {
    Outside,
    InArena,
}

/// A snapshot in each place.
pub static SNAPSHOTS: [Case; 2] = [
    Case::Snapshot(Taken::Outside),
    Case::Snapshot(Taken::InArena),
];

/// What a snapshot shows: the next container number, and whether from each of the two nodes it is proposed that application 1 gets there
/// what it asks for first.
type Shown = (u64, [bool; 2]);

/// With nothing granted yet, and room on both nodes.
const WANTED: Shown = (1, [true, true]);

/// Whether it is a container of (1024, 1) for the first ask of application 1 on this node.
fn is_grant_on(node: u64, proposal: Option<Proposal<RESOURCES>>) -> bool {
    let Some(proposal) = proposal else {
        return false;
    };
    let key = proposal.key();
    proposal.is_grant()
        && (proposal.app(), proposal.node()) == (1, node)
        && (key.priority, key.request) == (1, 0)
        && proposal.resource().amounts() == [1024, 1, 0]
}

/// What a snapshot outside an arena shows; none where an allocation failed.
fn shown_outside(alloc: Global, cluster: &Cluster<RESOURCES>) -> Option<Shown> {
    match Snapshot::take(alloc, cluster.tree(), cluster.apps(), cluster.nodes()) {
        Ok(snapshot) => {
            let [first, second] = [propose(&snapshot, 0), propose(&snapshot, 1)];
            let shown = [is_grant_on(1, first), is_grant_on(2, second)];
            Some((snapshot.next_container(), shown))
        }
        Err(_) => None,
    }
}

/// The same in an arena.
fn shown_in_arena(arena: &Bump, cluster: &Cluster<RESOURCES>) -> Option<Shown> {
    match Snapshot::take(arena, cluster.tree(), cluster.apps(), cluster.nodes()) {
        Ok(snapshot) => {
            let [first, second] = [propose(&snapshot, 0), propose(&snapshot, 1)];
            let shown = [is_grant_on(1, first), is_grant_on(2, second)];
            Some((snapshot.next_container(), shown))
        }
        Err(_) => None,
    }
}

fn outside(
    alloc: Global,
    hoard: &mut Hoard,
    bytes: usize,
    cluster: &Cluster<RESOURCES>,
) -> (bool, Option<Shown>) {
    hoard.leave(alloc, bytes);
    let first = shown_outside(alloc, cluster);
    hoard.give();
    match first {
        Some(shown) => (false, Some(shown)),
        None => (true, shown_outside(alloc, cluster)),
    }
}

/// The arena is reset while memory is short, and serves again; where it is not reset, another one does.
fn in_arena(
    alloc: Global,
    hoard: &mut Hoard,
    bytes: usize,
    cluster: &Cluster<RESOURCES>,
) -> (bool, Option<Shown>) {
    let mut arena = Bump::new(alloc);
    hoard.leave(alloc, bytes);
    let first = shown_in_arena(&arena, cluster);
    let reset = arena.reset();
    hoard.give();
    if reset.is_err() {
        arena = Bump::new(alloc);
    }
    match first {
        Some(shown) if reset.is_ok() => (false, Some(shown)),
        _ => (true, shown_in_arena(&arena, cluster)),
    }
}

/// What comes of a snapshot where so many bytes are left: one that is refused is taken once memory is there, and the cluster is as another one
/// that was made in the same way.
pub fn came(alloc: Global, hoard: &mut Hoard, bytes: usize, taken: Taken) -> Came {
    match (
        cluster_after(alloc, Before::Asked),
        cluster_after(alloc, Before::Asked),
    ) {
        (Some(cluster), Some(twin)) => {
            let (was_refused, shown) = match taken {
                Taken::Outside => outside(alloc, hoard, bytes, &cluster),
                Taken::InArena => in_arena(alloc, hoard, bytes, &cluster),
            };
            let is_so = shown == Some(WANTED) && are_alike(&cluster, &twin);
            came_of(was_refused, is_so)
        }
        _ => Came::Beside,
    }
}
