//! Copies of a tree and snapshots in a heap of their own.
use cap_base::RESOURCES;
use cap_commit::Cluster;
use cap_copy::{Snapshot, copy_tree};
use linked_list_allocator::LocalHeap;
use refusal_cases::{Before, cluster_after};
use std::alloc::Global;

/// The next container number of a snapshot in a heap of its own; none where an allocation failed.
fn next_in_heap(heap: &LocalHeap, cluster: &Cluster<RESOURCES>) -> Option<u64> {
    match Snapshot::take(heap, cluster.tree(), cluster.apps(), cluster.nodes()) {
        Ok(snapshot) => Some(snapshot.next_container()),
        Err(_) => None,
    }
}

/// Whether a heap has room for a copy of the tree.
fn is_copied(heap: &LocalHeap, cluster: &Cluster<RESOURCES>) -> bool {
    copy_tree(heap, cluster.tree()).is_ok()
}

/// What a heap of so many bytes has room for: whether a copy of the tree, whether a snapshot, and what of the heap is used once they are gone.
fn in_heap(
    alloc: Global,
    cluster: &Cluster<RESOURCES>,
    bytes: usize,
) -> Option<(bool, bool, usize)> {
    let heap = LocalHeap::new(alloc, bytes).ok()?;
    let is_copied = is_copied(&heap, cluster);
    let is_taken = next_in_heap(&heap, cluster) == Some(1);
    Some((is_copied, is_taken, heap.used()))
}

/// In how many heaps, the first of 64 bytes and each 16 bytes larger, no copy was made, and in how many no snapshot; none where a heap was used
/// once all was gone, or room for one came and went.
fn small_heaps(alloc: Global, cluster: &Cluster<RESOURCES>) -> Option<(usize, usize)> {
    let (mut uncopied, mut untaken) = (0usize, 0usize);
    for step in 0..4096usize {
        let bytes = step.saturating_mul(16).saturating_add(64);
        let (is_copied, is_taken, used) = in_heap(alloc, cluster, bytes)?;
        if used != 0 || !is_copied && uncopied != step || !is_taken && untaken != step {
            return None;
        }
        if is_copied && is_taken {
            return Some((uncopied, untaken));
        }
        uncopied = uncopied.saturating_add(!is_copied as usize);
        untaken = untaken.saturating_add(!is_taken as usize);
    }
    None
}

#[test]
fn small_heaps_have_no_room_for_a_snapshot(rt: HostRuntime) {
    let Some(cluster) = cluster_after(rt.alloc(), Before::Asking) else {
        return assert!(rt; false, "no cluster");
    };
    let heaps = small_heaps(rt.alloc(), &cluster);
    assert!(rt; matches!(heaps, Some((1.., 1..))), "{heaps:?}");
}
