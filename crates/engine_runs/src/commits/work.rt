//! The grants and ends of a run, and what becomes of one more grant and of two reservations (`run`).

use crate::commits::cluster::{CONTAINER, KEY, add_applications, add_nodes, open};
use crate::commits::size::Size;
use crate::commits::snapshots::{copy_all, take_all};
use cap_base::RESOURCES;
use cap_commit::{Cluster, Proposal, ProposalKind, Reason, Verdict};
use cap_model::{List, Numbers};
use cap_trackers::heartbeat;
use cap_vector::Resource;
use std::alloc::Global;

/// What was made: how many grants and ends, why one more grant, a reservation that fits and one that never fits are rejected, and how
/// many bytes the last copy of the cluster's parts took.
#[derive(Clone, Copy)]
pub struct Done {
    pub granted: u64,
    pub ended: u64,
    pub reasons: [Option<Reason>; 3],
    pub bytes: usize,
}

/// Makes the grants and ends of a size in a new cluster: in turn of the applications and of the nodes.
pub fn run(alloc: Global, size: &Size) -> Option<Done> {
    match open(alloc, size) {
        Some(mut cluster) => work(alloc, &mut cluster, size),
        None => None,
    }
}

fn work(alloc: Global, cluster: &mut Cluster<RESOURCES>, size: &Size) -> Option<Done> {
    add_nodes(alloc, cluster, size)?;
    add_applications(alloc, cluster, size)?;
    let granted = grant_all(cluster, size)?;
    end_all(alloc, cluster, size)?;
    let live = cluster.nodes().live_count() as u64;
    let bytes = take_all(alloc, cluster, size.parts, size.snapshots)?;
    copy_all(alloc, size.bytes as usize, size.copies)?;
    Some(Done {
        granted,
        ended: granted.saturating_sub(live),
        reasons: reasons(cluster, size)?,
        bytes,
    })
}

/// How many of the grants are made.
fn grant_all(cluster: &mut Cluster<RESOURCES>, size: &Size) -> Option<u64> {
    let mut granted = 0u64;
    for grant in 0..size.grants {
        let proposal = proposal(size, grant, ProposalKind::Grant)?;
        if is_made(cluster, proposal) {
            granted = granted.saturating_add(1);
        }
    }
    Some(granted)
}

fn end_all(alloc: Global, cluster: &mut Cluster<RESOURCES>, size: &Size) -> Option<()> {
    for end in 0..size.ends {
        finish(alloc, cluster, size, end)?;
    }
    Some(())
}

/// Why one more grant, a reservation that fits and one that never fits are rejected.
fn reasons(cluster: &Cluster<RESOURCES>, size: &Size) -> Option<[Option<Reason>; 3]> {
    let mut small = proposal(size, 0, ProposalKind::Reserve)?;
    small.node = size.nodes.checked_add(1)?;
    Some([
        cluster.reason(&proposal(size, 0, ProposalKind::Grant)?),
        cluster.reason(&proposal(size, 0, ProposalKind::Reserve)?),
        cluster.reason(&small),
    ])
}

/// The number of the node, or of the application, of the grant of this index.
fn in_turn(index: u64, count: u64) -> Option<u64> {
    index.checked_rem(count)?.checked_add(1)
}

/// A proposal like that of the grant of this index.
fn proposal(size: &Size, index: u64, kind: ProposalKind) -> Option<Proposal<RESOURCES>> {
    Some(Proposal {
        kind,
        app: in_turn(index, size.applications)?,
        key: KEY,
        node: in_turn(index, size.nodes)?,
        resource: Resource::new(CONTAINER)?,
    })
}

/// The node of the grant of this index reports that its container has ended.
fn finish(alloc: Global, cluster: &mut Cluster<RESOURCES>, size: &Size, index: u64) -> Option<()> {
    let number = in_turn(index, size.nodes)?;
    let response = cluster.nodes().node(number)?.response();
    let ended = one(alloc, index.checked_add(1)?)?;
    let _reply = heartbeat(cluster, number, response, &ended);
    Some(())
}

/// This number alone.
fn one(alloc: Global, number: u64) -> Option<Numbers> {
    let mut numbers = Vec::new(alloc);
    numbers.push(number).ok()?;
    List::of(alloc, numbers).ok()
}

/// Whether a proposal is made.
fn is_made(cluster: &mut Cluster<RESOURCES>, proposal: Proposal<RESOURCES>) -> bool {
    matches!(cluster.try_commit(proposal), Ok(Verdict::Done(_)))
}
