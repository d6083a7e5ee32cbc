//! The snapshot of a cluster that a worker proposes on (`Snapshot`).
ghost use Rattle.std.specs.Prelude.{◌≡◌};
ghost use Rattle.cap_copy.specs.Snapshot.{IsSnapshot};

use crate::seen::{SeenAsk, SeenNode};
use crate::seen_app::SeenApp;
use crate::seen_tree::SeenTree;
use cap_asks::Apps;
use cap_nodes::Nodes;
use http_server::Log;
use std::alloc::Allocator;
use std::marker::Model;

/// What a proposal looks at: the tree of queues, in which the registered applications that have asks wait, these applications with their
/// asks and what their users use, the nodes with what they have left and their reservations, how many containers are live, and the
/// number of the next. It is a value of its own, and no change of the cluster is seen in it. Contracts see the sight of the cluster.
#[derive(Drop)]
pub struct Snapshot<const K: usize, B: Allocator> {
    pub(crate) tree: SeenTree<K, B>,
    pub(crate) apps: Vec<SeenApp<K>, B>,
    pub(crate) asks: Vec<SeenAsk<K>, B>,
    pub(crate) nodes: Vec<SeenNode<K>, B>,
    pub(crate) skips: Vec<usize, B>,
    pub(crate) live: usize,
    pub(crate) next_container: u64,
    // This is for contracts alone, and takes no room.
    pub(crate) sources: Log<Apps<K>, Nodes<K>>,
}

impl<const K: usize, B: Allocator> Model for Snapshot<K, B> {
    ghost use Rattle.std.specs.Coded.{codes};
    ghost use Rattle.cap_tree.specs.Queue.{users_code};
    ghost use Rattle.cap_copy.specs.Snapshot.{Seen};
    ghost use Rattle.cap_copy.specs.Sources.{IsStored, apps_in, seen_of};

    ghost Value = { Seen };

    ghost coded = { Prim.hlevel (codes, users_code) };

    ghost view = { λ s. seen_of s.tree (apps_in s.sources.items) s.apps.items
        s.nodes.items s.live s.next_container };

    ghost invariant = { λ s. IsStored K s.tree s.apps.items s.asks.items s.skips.items
        (seen_of s.tree (apps_in s.sources.items) s.apps.items
        s.nodes.items s.live s.next_container) };
}

impl<const K: usize, B: Allocator + Copy> Snapshot<K, B> {
    /// The number of the next container. And what is so of each snapshot.
    pub fn next_container(&self) -> u64
        ensures next { result ≡ self.now.next_container }
        ensures whole { IsSnapshot K self.now }
    {
        self.next_container
    }
}
