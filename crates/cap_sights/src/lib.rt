//! Snapshots of a whole cluster (`snapshot_of`), and copies of one in an arena, of which snapshots are made (`copy_in`).
#![tactic(auto)]

ghost use Rattle.std.specs.Prelude.{◌≤◌, IfOk};
ghost use Rattle.cap_base.specs.Limits.{resources, resources_max};
ghost use Rattle.cap_model.specs.Sight.{sight_of};
ghost use Rattle.cap_copy.specs.Sizes.{CopyFitsInMemory};
ghost use Rattle.cap_copy.specs.Snapshot.{sight_in};
ghost use Rattle.cap_copy.specs.Sources.{sight_of_copy};
ghost use Rattle.cap_sights.specs.Sights.{ShowTheSame};

use bumpalo::Bump;
use cap_base::RESOURCES;
use cap_commit::Cluster;
use cap_copy::{ClusterCopy, Snapshot};
use cap_model::NoMemory;
use std::alloc::{Allocator, Global};

/// A snapshot of the cluster, which shows the same as the cluster. If an allocation fails there is none.
pub fn snapshot_of(
    alloc: Global,
    cluster: &Cluster<RESOURCES>,
) -> Result<Snapshot<RESOURCES, Global>, NoMemory>
    ensures { IfOk result (λ snapshot.
        ShowTheSame (sight_in resources snapshot) (sight_of cluster.now.flat)) }
{
    match copy_under(alloc, cluster) {
        Ok(copied) => Ok(copied.arrange()),
        Err(NoMemory) => Err(NoMemory),
    }
}

/// A copy of the cluster in an arena, which shows the same as the cluster and is yet to be arranged: no more than must be done while nobody
/// may change the cluster. If an allocation fails there is none.
pub fn copy_in<'a>(
    arena: &'a Bump,
    cluster: &Cluster<RESOURCES>,
) -> Result<ClusterCopy<RESOURCES, &'a Bump>, NoMemory>
    ensures { IfOk result (λ copied.
        ShowTheSame (sight_of_copy resources copied) (sight_of cluster.now.flat)) }
{
    copy_under(arena, cluster)
}

/// A copy under any allocator, for as many kinds of resources as there may be. That it is no larger than memory follows where both are
/// known.
fn copy_under<const K: usize, B: Allocator + Copy>(
    alloc: B,
    cluster: &Cluster<K>,
) -> Result<ClusterCopy<K, B>, NoMemory>
    requires fits { CopyFitsInMemory K.row B.row B.Allocator }
    requires few { K ≤ resources_max }
    ensures { IfOk result (λ copied.
        ShowTheSame (sight_of_copy K copied) (sight_of cluster.now.flat)) }
{
    let nodes = cluster.nodes();
    nodes.numbers_rise();
    ClusterCopy::take(alloc, cluster.tree(), cluster.apps(), nodes)
}
