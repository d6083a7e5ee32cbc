//! What a snapshot is made of, copied from a cluster's parts (`ClusterCopy`).
ghost use Rattle.std.specs.Prelude.{◌≡◌, ◌≤◌, IfOk, length};
ghost use Rattle.std.specs.List.{All};
ghost use Rattle.cap_base.specs.Limits.{applications_max, resources_max};
ghost use Rattle.cap_tree.specs.Rows.{IsAt};
ghost use Rattle.cap_asks.specs.Apps.{position_of};
ghost use Rattle.cap_copy.specs.Sizes.{CopyFitsInMemory};
ghost use Rattle.cap_copy.specs.Taking.{IsSnapshotOf};

use crate::asks::take_reserved;
use crate::nodes::{seen_nodes, set_skips};
use crate::seen::{SeenAsk, SeenNode};
use crate::seen_app::{SeenApp, seen_apps};
use crate::seen_tree::SeenTree;
use crate::snapshot::Snapshot;
use crate::waiting::note_waiting;
use cap_asks::Apps;
use cap_model::NoMemory;
use cap_nodes::Nodes;
use cap_tree::QueueTree;
use http_server::Log;
use std::alloc::{Allocator, Global};
use std::marker::Model;

/// What a snapshot is made of: the tree of queues, the applications that wait with their asks, the nodes with what they have left and
/// their reservations, how many containers are live, and the number of the next. It is copied as it lies, with room for all that a
/// snapshot keeps beside it, and arranged when no cluster is looked at any more. Contracts see the parts that it was copied from.
#[derive(Drop)]
pub struct ClusterCopy<const K: usize, B: Allocator> {
    tree: SeenTree<K, B>,
    apps: Vec<SeenApp<K>, B>,
    asks: Vec<SeenAsk<K>, B>,
    nodes: Vec<SeenNode<K>, B>,
    skips: Vec<usize, B>,
    live: usize,
    next_container: u64,
    // This is for contracts alone, and takes no room.
    sources: Log<Apps<K>, Nodes<K>>,
}

impl<const K: usize, B: Allocator> Model for ClusterCopy<K, B> {
    ghost use Rattle.std.specs.Prelude.{map};
    ghost use Rattle.std.specs.Coded.{codes};
    ghost use Rattle.cap_tree.specs.Queue.{users_code};
    ghost use Rattle.cap_copy.specs.Sources.{IsCopied, Parts, held_apps_in, nodes_in};

    ghost Value = { Parts };

    ghost coded = { Prim.hlevel (codes, users_code) };

    ghost view = { λ c. record {
      rows = c.tree.rows;
      apps = held_apps_in c.sources.items;
      nodes = nodes_in c.sources.items;
    } };

    ghost invariant = { λ c. IsCopied K
        (record {
          rows = c.tree.rows;
          apps = held_apps_in c.sources.items;
          nodes = nodes_in c.sources.items;
        })
        (map (λ a. a.held) c.apps.items) c.tree c.apps.items c.asks.items c.nodes.items
        c.skips.items c.live c.next_container };
}

impl<const K: usize, B: Allocator + Copy> ClusterCopy<K, B> {
    /// A copy of a tree of queues, of the active applications that wait, each of which knows where its leaf is in the tree, and of
    /// the nodes. Nothing is sorted; the user of each application is looked up. An error means that an allocation failed.
    pub fn take(
        alloc: B,
        tree: &QueueTree<K, Global>,
        apps: &Apps<K>,
        nodes: &Nodes<K>,
    ) -> Result<ClusterCopy<K, B>, NoMemory>
        requires fits { CopyFitsInMemory K.row B.row B.Allocator }
        requires resources { K ≤ resources_max }
        requires few { length apps.now.table.active ≤ applications_max }
        requires placed { All
            (λ app. IsAt tree.now app.leaf (position_of app.number apps.now.accounts))
            apps.now.table.active }
        ensures { IfOk result (λ copied. copied
            ≡ record { rows = tree.now; apps = apps.now; nodes = nodes.now }) }
    {
        apps.numbers_rise();
        nodes.numbers_rise();
        let waiting = match apps.waiting(alloc) {
            Ok(waiting) => waiting,
            Err(NoMemory) => return Err(NoMemory),
        };
        let (seen, asks) = match seen_apps(alloc, tree, &waiting) {
            Ok(copied) => copied,
            Err(NoMemory) => return Err(NoMemory),
        };
        let present = match seen_nodes(alloc, nodes) {
            Ok(present) => present,
            Err(NoMemory) => return Err(NoMemory),
        };
        let Ok(skips) = Vec::from_elem(alloc, 0, present.len()) else {
            return Err(NoMemory);
        };
        let tree = match SeenTree::copy_of(alloc, tree, waiting.len()) {
            Ok(tree) => tree,
            Err(NoMemory) => return Err(NoMemory),
        };
        Ok(ClusterCopy {
            tree,
            apps: seen,
            asks,
            nodes: present,
            skips,
            live: nodes.live_count(),
            next_container: nodes.next_container(),
            sources: Log::new().and(apps, nodes),
        })
    }

    /// The snapshot: what was copied, with each application that waits noted in the tree, the queues of these in the order of service, what
    /// the asks want beside the reservations, and which nodes hold reservations one after another. It takes no memory.
    pub fn arrange(self) -> Snapshot<K, B>
        ensures { IsSnapshotOf K self.rows self.apps.table self.nodes result }
    {
        let mut tree = self.tree;
        let apps = self.apps;
        let mut asks = self.asks;
        let nodes = self.nodes;
        let mut skips = self.skips;
        note_waiting(&mut tree, &apps);
        tree.sort();
        take_reserved(&mut asks, &apps, &nodes);
        set_skips(&mut skips, &nodes);
        Snapshot {
            tree,
            apps,
            asks,
            nodes,
            skips,
            live: self.live,
            next_container: self.next_container,
            sources: self.sources,
        }
    }
}
