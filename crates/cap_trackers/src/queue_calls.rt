//! QueueInfo, SetQueueState and ClusterInfo: what an operator sees and sets.
ghost use Rattle.cap_model.specs.declared.request.Request.TheVariants.{QueueInfo, SetQueueState, ClusterInfo};
ghost use Rattle.cap_model.specs.Reporting.{HasNumbers, RepliesInFullAlways};

use cap_commit::{Cluster, Found};
use cap_model::{ClusterReport, PathText, Refusal, Reply};

/// What an operator sees of the queue of this path: whether it and every queue above it are RUNNING, whether it is a leaf
/// queue, its `capacity`, its `maximum-capacity` (its own or inherited, if any) and what is used in and under it, all in MiB,
/// vcores and GPUs, and how many applications are active in and under it. Refused with `UnknownQueue` where no queue has the
/// path. It changes nothing and takes no memory.
pub fn queue_info<const K: usize>(cluster: &Cluster<K>, path: &PathText) -> Reply<K>
    ensures replies { RepliesInFullAlways cluster.now.flat (QueueInfo path.now)
        result cluster.now.flat }
    ensures numbers { HasNumbers cluster.now.flat result }
{
    match cluster.report(path.as_bytes()) {
        None => Reply::Refused(Refusal::UnknownQueue),
        Some(report) => Reply::QueueInfo { report },
    }
}

/// Starts or stops the queue of this path, as `yarn.scheduler.capacity.<queue-path>.state` does: its own state, and nothing
/// else. No new application enters a stopped queue, nor one under it; those that are active there stay. Refused with
/// `UnknownQueue` where no queue has the path, which changes nothing. It takes no memory.
pub fn set_queue_state<const K: usize>(
    cluster: &mut Cluster<K>,
    path: &PathText,
    running: bool,
) -> Reply<K>
    ensures replies { RepliesInFullAlways cluster.old.flat (SetQueueState path.now running)
        result cluster.new.flat }
    ensures numbers { HasNumbers cluster.new.flat result }
{
    // What holds of every cluster is known from here on.
    cluster.apps();
    let position = match cluster.tree().find(path.as_bytes()) {
        Found::Leaf(position) => position,
        Found::Parent(position) => position,
        Found::Missing => return Reply::Refused(Refusal::UnknownQueue),
    };
    cluster.set_state(&position, running);
    Reply::SetQueueState
}

/// What an operator sees of the cluster: how many nodes are present, applications active and containers live, what all
/// nodes have, and what `root` uses, in MiB, vcores and GPUs. It is never refused, changes nothing and takes no memory.
pub fn cluster_info<const K: usize>(cluster: &Cluster<K>) -> Reply<K>
    ensures replies { RepliesInFullAlways cluster.now.flat ClusterInfo result cluster.now.flat }
    ensures numbers { HasNumbers cluster.now.flat result }
{
    let nodes = cluster.nodes();
    Reply::ClusterInfo {
        report: ClusterReport {
            nodes: nodes.count() as u32,
            apps: cluster.apps().count() as u32,
            containers: nodes.live_count() as u32,
            totals: nodes.total(),
            used: cluster.root_use(),
        },
    }
}
