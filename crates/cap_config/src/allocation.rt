//! The bounds of one container that lines set up: its minimum allocation, and its maximum allocation.
ghost use Rattle.std.specs.Prelude.{◌≡◌};
ghost use Rattle.cap_base.specs.properties.Tests.{minimum_allocation, maximum_allocation};

use crate::queues::number_or;
use crate::second_pass::cluster_entry;
use cap_base::RESOURCES;
use cap_base::properties::{Entry, Setting};
use cap_vector::AMOUNT_MAX;

/// The least memory in MiB, vcores and GPUs of a container.
pub fn minimum_allocation(entries: &[Entry]) -> [u64; RESOURCES]
    ensures { result ≡ minimum_allocation entries.now }
{
    [
        number_or(cluster_entry(entries, Setting::MinimumMemory), 1024),
        number_or(cluster_entry(entries, Setting::MinimumVcores), 1),
        number_or(cluster_entry(entries, Setting::MinimumGpu), 0),
    ]
}

/// The most memory in MiB, vcores and GPUs of a container.
pub fn maximum_allocation(entries: &[Entry]) -> [u64; RESOURCES]
    ensures { result ≡ maximum_allocation entries.now }
{
    [
        number_or(cluster_entry(entries, Setting::MaximumMemory), 8192),
        number_or(cluster_entry(entries, Setting::MaximumVcores), 4),
        number_or(cluster_entry(entries, Setting::MaximumGpu), AMOUNT_MAX),
    ]
}
