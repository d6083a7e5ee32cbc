//! A tree of queues as a snapshot keeps it, and what waits at them (`SeenTree`).
ghost use Rattle.std.specs.Prelude.{◌≡◌, ◌<◌, ◌≤◌, ◌++◌, ◌∷◌, [], None, Some, IfOk, length};
ghost use Rattle.std.specs.List.{slice_get};
ghost use Rattle.cap_tree.specs.Rows.{AreRows};
ghost use Rattle.cap_tree.specs.Spot.{IsPosition};
ghost use Rattle.cap_copy.specs.Sizes.{SourceFitsInMemory};
ghost use Rattle.cap_copy.specs.Limits.{stays_in_limits};
ghost use Rattle.cap_copy.specs.ServiceOrder.{IsNextServed};

use crate::seen_queue::{SeenQueue, Wait};
use cap_model::NoMemory;
use cap_tree::{Branch, InMaximum, Marked, Path, QueueTree};
use cap_vector::{Resource, Sum};
use http_server::Log;
use std::alloc::{Allocator, Global};
use std::marker::Model;

/// A tree of queues without their users, of which each queue keeps its settings, what is used in it and under it, and the shares of
/// that; and what waits at the queues, by index. Contracts see the rows of the tree that it was copied from, where what waits does so,
/// and how many may wait.
#[derive(Drop)]
pub struct SeenTree<const K: usize, B: Allocator> {
    root: Branch<SeenQueue<K, B>, B>,
    // Of each that waits: 1 + the next index at the same queue, 0 where there is none.
    links: Vec<u32, B>,
    // This is for contracts alone, and takes no room.
    places: Log<Path<Global>, u8>,
}

impl<const K: usize, B: Allocator> Model for SeenTree<K, B> {
    ghost use Rattle.std.specs.Prelude.{map, vec_capacity};
    ghost use Rattle.std.specs.Coded.{codes};
    ghost use Rattle.cap_tree.specs.Queue.{users_code};
    ghost use Rattle.cap_copy.specs.SeenTree.{IsSeenTree, SeenRows, rows_seen};

    ghost Value = { SeenRows };

    ghost coded = { Prim.hlevel (codes, users_code) };

    ghost view = { λ t. record {
      rows = rows_seen t.root;
      waiting = map (λ e. e.0.items) t.places.items;
      room = vec_capacity t.links;
    } };

    ghost invariant = { λ t.
        IsSeenTree t.root (map (λ e. e.0.items) t.places.items) t.links.items };
}

impl<const K: usize, B: Allocator + Copy> SeenTree<K, B> {
    /// A tree as a snapshot keeps it, under another allocator, with room for so many to wait; none waits yet. An error means that an
    /// allocation failed. And what `QueueTree::find` says of every tree.
    pub fn copy_of(
        alloc: B,
        tree: &QueueTree<K, Global>,
        room: usize,
    ) -> Result<SeenTree<K, B>, NoMemory>
        requires { SourceFitsInMemory K.row }
        ensures rows { IfOk result (λ seen. seen.rows ≡ tree.now) }
        ensures none { IfOk result (λ seen. seen.waiting ≡ []) }
        ensures room { IfOk result (λ seen. room ≤ seen.room) }
        ensures whole { AreRows tree.now }
    {
        let queues = tree.root();
        let Ok(links) = Vec::with_capacity(alloc, room) else {
            return Err(NoMemory);
        };
        match queues.copy_in(alloc) {
            Ok(root) => Ok(SeenTree {
                root,
                links,
                places: Log::new(),
            }),
            Err(NoMemory) => Err(NoMemory),
        }
    }

    /// The next index waits at the queue of a position. It takes no memory.
    pub fn wait(&mut self, path: &Path<Global>)
        requires position { IsPosition self.old.rows path.now.items }
        requires room { length self.old.waiting < self.old.room }
        requires few { length self.old.waiting < 4294967295 }
        ensures rows { self.new.rows ≡ self.old.rows }
        ensures waiting { self.new.waiting ≡ self.old.waiting ++ path.now.items ∷ [] }
        ensures room { self.new.room ≡ self.old.room }
    {
        let mark = self.links.len() as u32 + 1;
        let last = self.root.get(path.as_slice()).last();
        if last != 0 {
            self.links[last as usize - 1] = mark;
        }
        self.links.push_reserved(0);
        let change = Wait { mark };
        let Ok(()) = self.root.change(path.as_slice(), &change) else {
            unreachable!()
        };
        self.places = self.places.and(path, &0);
    }

    /// Sorts the queues in which something waits, those of each parent by the order in which they are served, so that a walk looks at no
    /// queue twice. It takes no memory.
    pub fn sort(&mut self)
        ensures { self.new ≡ self.old }
    {
        self.root.sort_waiting();
    }

    /// The index that is served first: at the first level below `root` where two queues differ, that of the one that uses the smaller
    /// part of its own guarantee, by its dominant share first, and of two that are as full the lesser name in byte order. A queue is
    /// before those under it, and of two that wait at one queue the earlier index. None where nothing waits. It goes level by level
    /// to the least full child in which something waits, and takes no memory.
    pub fn first_served(&self) -> Option<u64>
        ensures next { IsNextServed self.now.rows self.now.waiting None result }
    {
        if !self.root.top().waits() {
            return None;
        }
        Some(self.root.first_waiting() - 1)
    }

    /// The index that is served next, in the order of `first_served`, after one that waits at a position. None where none is left.
    /// It looks at the queues on the way to the position, for each at the sibling that is served next, and goes on from there as
    /// `first_served` does. It takes no memory.
    pub fn next_served(&self, index: u64, position: &[u32]) -> Option<u64>
        requires { slice_get self.now.waiting index ≡ Some position.now }
        ensures next { IsNextServed self.now.rows self.now.waiting (Some index) result }
    {
        self.root.places_differ();
        let link = self.links[index as usize];
        if link != 0 {
            return Some(link as u64 - 1);
        }
        match self.root.next_waiting(position) {
            None => None,
            Some(mark) => Some(mark - 1),
        }
    }

    /// Whether the use of the queue at a position, and of each above it, stays within its maximum, and one who uses so much there
    /// within the user limit of the leaf, with `old` taken away and `new` added, in MiB, vcores and GPUs. It takes no memory.
    pub fn stays_within(
        &self,
        position: &[u32],
        used: &Sum<K>,
        old: &Resource<K>,
        new: &Resource<K>,
    ) -> bool
        requires { IsPosition self.now.rows position.now }
        ensures { result ≡
            stays_in_limits used.now old.now new.now position.now self.now.rows }
    {
        let test = InMaximum { old, new };
        if self.root.first_failing(position, &test).is_some() {
            return false;
        }
        self.root.get(position).stays_in_user_limit(used, old, new)
    }
}
