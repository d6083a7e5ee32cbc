//! A run on a new cluster, without a lock or by threads that share the cluster (`run`).

use crate::calls::making::{Calls, add_applications, call_alone};
use crate::calls::work::Work;
use cap_base::RESOURCES;
use cap_commit::Cluster;
use cap_testing::{TWO_QUEUES, cluster, epoch};
use std::alloc::Global;
use std::sync::Wait;
use std::sync::atomic::{AtomicU64, Ordering};
use std::thread::Threads;

/// Does the work on a new cluster. The result is how many calls were not refused.
pub fn run<H: Threads + Wait + Sync>(rt: &H, alloc: Global, work: Work) -> Option<u64> {
    let cluster = cluster(alloc, TWO_QUEUES)?;
    if work.threads == 0 {
        return alone(alloc, cluster, work);
    }
    shared(rt, alloc, cluster, work)
}

/// Without a lock.
fn alone(alloc: Global, mut cluster: Cluster<RESOURCES>, work: Work) -> Option<u64> {
    add_applications(alloc, &mut cluster, 1)?;
    call_alone(alloc, &mut cluster, work)
}

/// By threads that share the cluster.
fn shared<H: Threads + Wait + Sync>(
    rt: &H,
    alloc: Global,
    mut cluster: Cluster<RESOURCES>,
    work: Work,
) -> Option<u64> {
    add_applications(alloc, &mut cluster, work.threads as u64)?;
    let answered = AtomicU64::new(0);
    let calls = Calls {
        alloc,
        work,
        answered: &answered,
    };
    let limit = work.threads.saturating_mul(work.calls).max(1);
    let _closed = epoch(rt, alloc, cluster, work.threads, limit as usize, &calls)?;
    Some(answered.load(Ordering::SeqCst))
}
