//! Rounds of calls of a cluster alone, without a lock (`call_alone`).

use crate::following::filling::put_queues;
use crate::following::requests::{ROUND, Requests};
use crate::following::work::{Kind, Work};
use cap_base::RESOURCES;
use cap_commit::Cluster;
use cap_messages::dispatch;
use cap_model::{ReplyWith, Request};
use cap_testing::{Call, cluster, make_call};
use std::alloc::Global;

/// Makes so many rounds of calls. How many were made; `None` if one is refused.
pub fn call_alone(alloc: Global, work: &Work, kind: Kind, rounds: u64) -> Option<u64> {
    let requests = Requests::new(alloc, work, kind)?;
    let mut cluster = open(alloc, work)?;
    let calls = rounds.saturating_mul(ROUND);
    for index in 0..calls {
        let request = requests.request(index)?;
        if !is_made(alloc, &mut cluster, &request) {
            return None;
        }
    }
    Some(calls)
}

/// Makes a call: whether it isn't refused. It stands apart, so that its instructions can be counted.
#[inline(never)]
fn is_made(alloc: Global, cluster: &mut Cluster<RESOURCES>, request: &Request<RESOURCES>) -> bool {
    !matches!(dispatch(alloc, cluster, request), ReplyWith::Refused(_))
}

/// The cluster of a work with a node, and an application that has made an Allocate.
fn open(alloc: Global, work: &Work) -> Option<Cluster<RESOURCES>> {
    let mut lines = String::new(alloc);
    put_queues(&mut lines, work).ok()?;
    let mut cluster = cluster(alloc, lines.as_bytes())?;
    let calls = [
        Call::RegisterNode(b"n0", b"/r", [work.node, 1 << 16, 0]),
        Call::Submit(b"root.q0", b"u0"),
        Call::RegisterMaster(1),
        Call::Allocate(1, 0, &[], &[]),
    ];
    for call in &calls {
        make_call(alloc, &mut cluster, call)?;
    }
    Some(cluster)
}
