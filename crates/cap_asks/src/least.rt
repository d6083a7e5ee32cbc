//! At most what asks want of each resource (`lowered`, `resized`).
ghost use Rattle.cap_vector.specs.Vector.{Fits};

use cap_base::RESOURCES;
use cap_vector::{Resource, round_up};

/// As many amounts of a resource, and 0 where it has no more.
pub(crate) fn resized<const K: usize, const L: usize>(resource: &Resource<K>) -> Resource<L>
    ensures { Fits result resource.now }
{
    let given = resource.amounts();
    let mut amounts = [0; L];
    for k in 0..L.min(K) {
        amounts[k] = given[k];
    }
    let Some(resized) = Resource::new(amounts) else {
        unreachable!()
    };
    resized
}

/// The lesser of both amounts of each kind.
pub(crate) fn lowered<const K: usize>(
    least: &Resource<RESOURCES>,
    resource: &Resource<K>,
) -> Resource<RESOURCES>
    ensures least { Fits result least.now }
    ensures resource { Fits result resource.now }
{
    // A step of 0 raises nothing: each amount is cut to the other.
    round_up(least, &Resource::zero(), &resized(resource))
}
