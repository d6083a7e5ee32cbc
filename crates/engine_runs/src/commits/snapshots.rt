//! Copies of a cluster's parts one after the other in one arena, of which snapshots are made or not, and copies of as many bytes.

use bumpalo::Bump;
use cap_base::RESOURCES;
use cap_commit::Cluster;
use cap_copy::ClusterCopy;
use std::alloc::Global;

/// Copies the parts of the cluster so many times, one copy after the other in one arena, and makes snapshots of the first so many. The
/// result is how many bytes the last copy takes there.
pub fn take_all(
    alloc: Global,
    cluster: &Cluster<RESOURCES>,
    copies: u64,
    snapshots: u64,
) -> Option<usize> {
    let mut arena = Bump::new(alloc);
    let mut bytes = 0;
    for copy in 0..copies {
        bytes = take(&arena, cluster, copy < snapshots)?;
        arena.reset().ok()?;
    }
    Some(bytes)
}

/// Copies the parts of the cluster in the arena, and makes the snapshot of them or not. The result is how many bytes the arena then holds.
fn take(arena: &Bump, cluster: &Cluster<RESOURCES>, is_arranged: bool) -> Option<usize> {
    let copied = ClusterCopy::take(arena, cluster.tree(), cluster.apps(), cluster.nodes()).ok()?;
    if is_arranged {
        let _snapshot = copied.arrange();
    }
    Some(
        arena
            .allocated_bytes()
            .saturating_sub(arena.chunk_capacity()),
    )
}

/// Copies so many bytes so often into one arena.
pub fn copy_all(alloc: Global, bytes: usize, count: u64) -> Option<()> {
    let source = filled(alloc, bytes)?;
    let mut arena = Bump::new(alloc);
    for _ in 0..count {
        let _copy = arena.try_alloc_slice_copy(&source).ok()?;
        arena.reset().ok()?;
    }
    Some(())
}

/// So many bytes.
fn filled(alloc: Global, bytes: usize) -> Option<Vec<u8>> {
    let mut source = Vec::new(alloc);
    source.resize(bytes, 7).ok()?;
    Some(source)
}
