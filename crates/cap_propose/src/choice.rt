//! The choice of a proposal on a snapshot (`propose`).
ghost use Rattle.std.specs.Prelude.{◌≡◌};
ghost use Rattle.cap_copy.specs.Snapshot.{sight_in};
ghost use Rattle.cap_model.specs.Candidates.{choice_from};
ghost use Rattle.cap_propose.specs.Sizes.{SnapshotFitsInMemory};

use cap_choice::propose_on;
use cap_copy::Snapshot;
use cap_model::Proposal;
use std::alloc::Allocator;

/// What a scheduler thread proposes on the snapshot, with the nodes as a ring from the node at `start` on (beyond the last it begins
/// again with the first): the choice on the first node that has one, `None` if no node has one. The choice on a node is the
/// admissible grant or reservation there that is served first: the less full queue first, from below `root` down to the leaf, then
/// the earlier application, then the smaller priority number and the smaller allocation request id.
pub fn propose<const K: usize, B: Allocator + Copy>(
    snapshot: &Snapshot<K, B>,
    start: u32,
) -> Option<Proposal<K>>
    requires { SnapshotFitsInMemory K.row B.row B.Allocator }
    ensures { result ≡ choice_from (sight_in K snapshot.now) start }
{
    propose_on(snapshot, start)
}
