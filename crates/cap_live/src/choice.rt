//! The choice of a proposal on a live cluster (`propose_live`).
ghost use Rattle.std.specs.Prelude.{◌≡◌};
ghost use Rattle.cap_model.specs.Candidates.{choice_from};
ghost use Rattle.cap_model.specs.Sight.{sight_of};

use crate::live::Live;
use cap_commit::Cluster;
use cap_model::Proposal;

/// What a scheduler thread proposes on a cluster, read where it lies, with the nodes as a ring from the node at `start` on (beyond the
/// last it begins again with the first): the choice on the first node that has one, `None` if no node has one. It is what `propose`
/// chooses on a snapshot of the cluster. It takes no memory.
pub fn propose_live<const K: usize>(cluster: &Cluster<K>, start: u32) -> Option<Proposal<K>>
    ensures { result ≡ choice_from (sight_of cluster.now.flat) start }
{
    Live::new(cluster).propose(start)
}
