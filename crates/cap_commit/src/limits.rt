//! The limits of a cluster: what a container may have, and how many applications may be active (`Limits`).

ghost use Rattle.std.specs.Prelude.{◌≡◌, ◌≤◌};
ghost use Rattle.cap_base.specs.Limits.{applications_max, resources_max};

use cap_model::Config;
use cap_vector::Resource;

/// The limits of a cluster.
#[derive(Clone, Copy, Debug, PartialEq, Eq)]
pub struct Limits<const K: usize> {
    /// The least that a container may have, in MiB, vcores and GPUs: `yarn.scheduler.minimum-allocation`.
    pub minimum_allocation: Resource<K>,
    /// The most that a container may have, in MiB, vcores and GPUs: `yarn.scheduler.maximum-allocation`.
    pub maximum_allocation: Resource<K>,
    /// How many applications may be active: `yarn.scheduler.capacity.maximum-applications`.
    pub application_limit: u64,
}

/// The limits that settings give.
pub(crate) fn limits_of<const K: usize>(config: &Config<K>) -> Limits<K>
    ensures value { result ≡ record {
      minimum_allocation = config.now.minimum_allocation;
      maximum_allocation = config.now.maximum_allocation;
      application_limit = config.now.application_limit;
    } }
    ensures few { result.application_limit ≤ applications_max }
    ensures resources { K ≤ resources_max }
{
    let application_limit = config.application_limit();
    Limits {
        minimum_allocation: config.minimum_allocation(),
        maximum_allocation: config.maximum_allocation(),
        application_limit,
    }
}
