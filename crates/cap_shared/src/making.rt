//! Making a proposal that is admissible, with room for its receipt (`make_proposed`).
ghost use Rattle.std.specs.Prelude.{◌≡◌, ◌<◌, None, IfOk, OnOk, OnErr, vec_len, vec_capacity};
ghost use Rattle.cap_model.specs.Sight.{sight_of};
ghost use Rattle.cap_model.specs.Admission.{reason_of};
ghost use Rattle.cap_model.specs.Events.{Step};
ghost use Rattle.cap_model.specs.Verdicts.{IsOf};
ghost use Rattle.cap_commit.specs.Admission.{taken_back};
ghost use Rattle.cap_commit.specs.Making.{event_of_made};

use crate::entry::Receipt;
use cap_base::RESOURCES;
use cap_commit::{Cluster, Made};
use cap_model::{NoMemory, Proposal};
use cap_vector::Resource;

/// Makes a proposal that was admitted, with room for its receipt, and takes this room back. If an allocation fails nothing changes but
/// room.
pub(crate) fn make_proposed(
    cluster: &mut Cluster<RESOURCES>,
    receipts: &mut Vec<Receipt>,
    proposal: &Proposal<RESOURCES>,
    old: &Resource<RESOURCES>,
) -> Result<Made<RESOURCES>, NoMemory>
    requires passes { reason_of (sight_of cluster.old.flat) proposal.now ≡ None }
    requires old { old.now ≡ taken_back (sight_of cluster.old.flat) proposal.now }
    ensures of { IfOk result (λ made. IsOf proposal.now (event_of_made made)) }
    ensures step { IfOk result
        (λ made. Step cluster.old.flat (event_of_made made) cluster.new.flat) }
    ensures room { OnOk result (vec_len receipts.new < vec_capacity receipts.new) }
    ensures receipts { receipts.new.items ≡ receipts.old.items }
    ensures err { OnErr result (cluster.new.flat ≡ cluster.old.flat) }
{
    if receipts.reserve(1).is_err() {
        return Err(NoMemory);
    }
    cluster.make(proposal, old)
}
