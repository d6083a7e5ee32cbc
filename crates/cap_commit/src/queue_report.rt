//! What an operator sees of a queue of the tree (`report_of`).
ghost use Rattle.std.specs.Prelude.{◌≡◌, ◌≤◌};
ghost use Rattle.cap_base.specs.Limits.{applications_max};

use cap_model::QueueReport;
use cap_tree::Queue;
use std::alloc::Global;

/// What an operator sees of a queue of the tree, of which it is known whether it runs and whether it is a leaf.
pub(crate) fn report_of<const K: usize>(
    queue: &Queue<K, Global>,
    running: bool,
    leaf: bool,
) -> QueueReport<K>
    requires { queue.now.active ≤ applications_max }
    ensures { result ≡ record {
      running = running;
      leaf = leaf;
      guaranteed = queue.now.guaranteed;
      maximum = queue.now.maximum;
      used = queue.now.used;
      apps = queue.now.active;
    } }
{
    QueueReport {
        running,
        leaf,
        guaranteed: queue.guaranteed(),
        maximum: queue.maximum(),
        used: queue.used(),
        apps: queue.active() as u32,
    }
}
