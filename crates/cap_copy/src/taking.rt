//! Taking a snapshot of a tree, applications and nodes (`Snapshot::take`), and copying a tree (`copy_tree`).
ghost use Rattle.std.specs.Prelude.{◌≡◌, ◌≤◌, IfOk, length};
ghost use Rattle.std.specs.List.{All};
ghost use Rattle.cap_base.specs.Limits.{applications_max, resources_max};
ghost use Rattle.cap_tree.specs.Rows.{IsAt};
ghost use Rattle.cap_asks.specs.Apps.{position_of};
ghost use Rattle.cap_copy.specs.Sizes.{CopyFitsInMemory};
ghost use Rattle.cap_copy.specs.Taking.{IsSnapshotOf};

use crate::copied::ClusterCopy;
use crate::snapshot::Snapshot;
use cap_asks::Apps;
use cap_model::NoMemory;
use cap_nodes::Nodes;
use cap_tree::QueueTree;
use std::alloc::{Allocator, Global};

impl<const K: usize, B: Allocator + Copy> Snapshot<K, B> {
    /// A snapshot of a tree of queues, of the active applications, each of which knows where its leaf is in the tree, and of the
    /// nodes: they are copied, and the copy is arranged. An error means that an allocation failed.
    pub fn take(
        alloc: B,
        tree: &QueueTree<K, Global>,
        apps: &Apps<K>,
        nodes: &Nodes<K>,
    ) -> Result<Snapshot<K, B>, NoMemory>
        requires fits { CopyFitsInMemory K.row B.row B.Allocator }
        requires resources { K ≤ resources_max }
        requires few { length apps.now.table.active ≤ applications_max }
        requires placed { All
            (λ app. IsAt tree.now app.leaf (position_of app.number apps.now.accounts))
            apps.now.table.active }
        ensures { IfOk result (λ snapshot.
            IsSnapshotOf K tree.now apps.now.table nodes.now snapshot) }
    {
        match ClusterCopy::take(alloc, tree, apps, nodes) {
            Ok(copied) => Ok(copied.arrange()),
            Err(NoMemory) => Err(NoMemory),
        }
    }
}

/// An equal tree under another allocator. An error means that an allocation failed.
pub fn copy_tree<const K: usize, A: Allocator + Copy, B: Allocator + Copy>(
    alloc: B,
    tree: &QueueTree<K, A>,
) -> Result<QueueTree<K, B>, NoMemory>
    ensures { IfOk result (λ copy. copy ≡ tree.now) }
{
    tree.copy_in(alloc)
}
