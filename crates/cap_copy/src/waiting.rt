//! What waits in the tree of a snapshot (`note_waiting`).
ghost use Rattle.std.specs.Prelude.{◌≡◌, ◌≤◌, [], length, map};
ghost use Rattle.std.specs.List.{All};
ghost use Rattle.cap_base.specs.Limits.{applications_max};
ghost use Rattle.cap_tree.specs.Spot.{IsPosition};

use crate::seen_app::SeenApp;
use crate::seen_tree::SeenTree;
use std::alloc::Allocator;

/// Notes in a tree in which nothing waits yet where the applications do, each under its index. It takes no memory.
pub(crate) fn note_waiting<const K: usize, B: Allocator + Copy>(
    tree: &mut SeenTree<K, B>,
    apps: &[SeenApp<K>],
)
    requires few { length apps.now ≤ applications_max }
    requires none { tree.old.waiting ≡ [] }
    requires room { length apps.now ≤ tree.old.room }
    requires placed { All (λ a. IsPosition tree.old.rows a.held.account.position) apps.now }
    ensures rows { tree.new.rows ≡ tree.old.rows }
    ensures waiting { tree.new.waiting ≡ map (λ a. a.held.account.position) apps.now }
{
    for app in apps {
        tree.wait(app.position());
    }
}
