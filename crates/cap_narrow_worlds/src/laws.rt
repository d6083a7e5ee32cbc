//! Laws of the definitions in `specs/`, for callers to cite. The functions do nothing.
ghost use Rattle.cap_narrow_worlds.specs.Laws.{TwoResourcesAreKept, ProposalsAreOfTwoResources};

use cap_world::proposals_are_of_copies;

/// Where a cluster opens with nothing of the third resource, no connection hears a request of version 2, and no Refresh has settings
/// that raise an ask to any GPU, all that happens is what happens with two resources: the events are the same run, and each connection
/// is answered the same bytes.
pub fn two_resources_are_kept()
    ensures { TwoResourcesAreKept }
{}

/// And each worker makes the same proposals.
pub fn proposals_are_of_two_resources()
    ensures { ProposalsAreOfTwoResources }
{
    proposals_are_of_copies();
}
