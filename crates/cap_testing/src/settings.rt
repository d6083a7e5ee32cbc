//! Property lines for tests, and the clusters that they open, also once calls were made (`cluster_after`).

use crate::spelling::{Call, frame};
use cap_base::RESOURCES;
use cap_commit::Cluster;
use cap_config::read_config;
use cap_messages::{dispatch, read_request};
use cap_model::ReplyWith;
use std::alloc::Global;

/// Two leaf queues: `a` may grow from (4096, 4) to (16384, 16), where a user has four times its capacity; `b` has (2048, 8).
pub const TWO_QUEUES: &[u8] = b"yarn.scheduler.capacity.root.queues=a,b
yarn.scheduler.capacity.root.a.capacity=[memory=4096,vcores=4]
yarn.scheduler.capacity.root.a.maximum-capacity=[memory=16384,vcores=16]
yarn.scheduler.capacity.root.a.user-limit-factor=4
yarn.scheduler.capacity.root.b.capacity=[memory=2048,vcores=8]
";

/// Two leaf queues: `a` may grow from (1024, 1) to (2048, 2), where a user has four times its capacity; `b` has (2048, 8).
pub const SMALL_QUEUES: &[u8] = b"yarn.scheduler.capacity.root.queues=a,b
yarn.scheduler.capacity.root.a.capacity=[memory=1024,vcores=1]
yarn.scheduler.capacity.root.a.maximum-capacity=[memory=2048,vcores=2]
yarn.scheduler.capacity.root.a.user-limit-factor=4
yarn.scheduler.capacity.root.b.capacity=[memory=2048,vcores=8]
";

/// The queues `a` and `b` with the same capacities, `x` and `y` under `a`, of which `y` is stopped, and at most two applications.
pub const NESTED_QUEUES: &[u8] = b"yarn.scheduler.capacity.root.queues=a,b
yarn.scheduler.capacity.root.a.queues=x,y
yarn.scheduler.capacity.root.a.capacity=[memory=4096,vcores=4]
yarn.scheduler.capacity.root.a.maximum-capacity=[memory=16384,vcores=16]
yarn.scheduler.capacity.root.a.y.state=STOPPED
yarn.scheduler.capacity.root.b.capacity=[memory=2048,vcores=8]
yarn.scheduler.capacity.maximum-applications=2
";

/// The cluster that these property lines open. `None` if they have a fault or an allocation fails.
pub fn cluster(alloc: Global, lines: &[u8]) -> Option<Cluster<RESOURCES>> {
    let config = read_config(alloc, lines).ok()?;
    Cluster::from_config(alloc, &config).ok()
}

/// The cluster that these property lines open, once these calls were made. `None` if the lines have a fault, a call is no request or is
/// refused, or an allocation fails.
pub fn cluster_after(
    alloc: Global,
    lines: &[u8],
    calls: &[Call<'_>],
) -> Option<Cluster<RESOURCES>> {
    let mut cluster = cluster(alloc, lines)?;
    match make_calls(alloc, &mut cluster, calls) {
        Some(()) => Some(cluster),
        None => None,
    }
}

fn make_calls(alloc: Global, cluster: &mut Cluster<RESOURCES>, calls: &[Call<'_>]) -> Option<()> {
    for call in calls {
        make_call(alloc, cluster, call)?;
    }
    Some(())
}

/// Makes a call. `None` if it is no request or is refused, or an allocation fails.
pub fn make_call(alloc: Global, cluster: &mut Cluster<RESOURCES>, call: &Call<'_>) -> Option<()> {
    match frame(alloc, 2, 1, call) {
        Ok(bytes) => make_request(alloc, cluster, bytes.get(4..)?),
        Err(_) => None,
    }
}

/// Makes the request of a payload.
fn make_request(alloc: Global, cluster: &mut Cluster<RESOURCES>, payload: &[u8]) -> Option<()> {
    let (_, request) = read_request(alloc, payload).ok()?;
    match dispatch(alloc, cluster, &request) {
        ReplyWith::Refused(_) => None,
        _ => Some(()),
    }
}
