//! The nodes of a snapshot, in order of number and in one piece of memory (`seen_nodes`), and which of them hold reservations one
//! after another (`set_skips`).
ghost use Rattle.std.specs.Prelude.{◌≡◌, IfOk, length, map};
ghost use Rattle.cap_copy.specs.Snapshot.{AreSkips};
ghost use Rattle.cap_copy.specs.Taking.{node_seen};

use crate::seen::SeenNode;
use cap_model::NoMemory;
use cap_nodes::Nodes;
use std::alloc::Allocator;

/// The nodes that are present, in order of number, in one piece of memory. An error means that an allocation failed.
pub(crate) fn seen_nodes<const K: usize, B: Allocator + Copy>(
    alloc: B,
    nodes: &Nodes<K>,
) -> Result<Vec<SeenNode<K>, B>, NoMemory>
    ensures { IfOk result (λ seen. seen.items ≡ map (node_seen K nodes.now) nodes.now.present) }
{
    let Ok(mut seen) = Vec::with_capacity(alloc, nodes.count()) else {
        return Err(NoMemory);
    };
    for index in 0..nodes.count() {
        let load = nodes.nth(index);
        let node = load.node();
        seen.push_reserved(SeenNode {
            number: node.number(),
            host: *node.host(),
            rack: *node.rack(),
            total: node.total(),
            free: load.free(),
            reservation: load.reservation(),
        });
    }
    Ok(seen)
}

/// Sets for each node how many from it on hold reservations, one after another: 0 for one that holds none.
pub(crate) fn set_skips<const K: usize, B: Allocator + Copy>(
    skips: &mut Vec<usize, B>,
    nodes: &[SeenNode<K>],
)
    requires { length skips.old.items ≡ length nodes.now }
    ensures { AreSkips nodes.now skips.new.items }
{
    let mut index = nodes.len();
    let mut skip = 0;
    while index > 0 {
        index -= 1;
        let node = &nodes[index];
        skip = if node.reservation.is_some() {
            skip + 1
        } else {
            0
        };
        skips[index] = skip;
    }
}
