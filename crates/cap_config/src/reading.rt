//! Property lines read as settings, or refused at their first fault (`read_config`, `read_detailed`).
ghost use Rattle.std.specs.Prelude.{◌≡◌, IfErr, IfOk, Ok, Some, true};
ghost use Rattle.cap_config.specs.Bounds.{are_bounded};
ghost use Rattle.cap_base.specs.properties.First.{AnswersFault, first_fault, settings_after, settings_in};
ghost use Rattle.cap_config.specs.Details.{detail_in, fault_alone, whole_detail};
ghost use Rattle.cap_config.specs.Index.{IsIndex};
ghost use Rattle.cap_base.specs.properties.Tests.{whole_fault};

use crate::config::config_of;
use crate::detail::DetailedFault;
use crate::first_pass::read_lines;
use crate::index::{Index, index_of};
use crate::second_pass::whole_fault;
use cap_base::properties::{ConfigFault, Entry};
use cap_base::{Config, RESOURCES};
use std::alloc::Global;

/// The settings that property lines make, or the first fault in them: first of each line in turn, and then of the whole
/// text. Memory may run out in place of any answer.
///
/// A line is `key=value`, a comment that begins with `#`, or empty. The keys are those of the Capacity Scheduler:
/// `yarn.scheduler.capacity.<queue-path>` with `.queues`, `.capacity`, `.maximum-capacity`, `.user-limit-factor` or
/// `.state`, `yarn.scheduler.capacity.maximum-applications`, and `yarn.scheduler.minimum-allocation-mb`, its `-vcores`,
/// `yarn.resource-types.yarn.io/gpu.minimum-allocation`, and the same of `maximum`.
pub fn read_config(alloc: Global, text: &[u8]) -> Result<Config<RESOURCES>, ConfigFault>
    ensures fault { AnswersFault (first_fault text.now) result }
    ensures settings { IfOk result (λ config. settings_in text.now ≡ Some config) }
{
    match read_detailed(alloc, text) {
        Ok(config) => Ok(config),
        Err(found) => Err(found.fault),
    }
}

/// The same, where a fault comes with what it is about.
pub fn read_detailed(alloc: Global, text: &[u8]) -> Result<Config<RESOURCES>, DetailedFault>
    ensures fault { AnswersFault (first_fault text.now) (fault_alone result) }
    ensures detail { IfErr result (λ found. found.detail ≡ detail_in text.now found.fault) }
    ensures settings { IfOk result (λ config. settings_in text.now ≡ Some config) }
{
    let entries = read_lines(alloc, text)?;
    let index = index_of(alloc, &entries)?;
    settings_of(alloc, &index)
}

/// The settings that the entries of all lines make, or the first fault of the whole text.
fn settings_of(alloc: Global, index: &Index) -> Result<Config<RESOURCES>, DetailedFault>
    requires index { IsIndex index.now }
    requires bounded { are_bounded index.now.entries.now ≡ true }
    ensures fault { AnswersFault (whole_fault index.now.entries.now) (fault_alone result) }
    ensures detail { IfErr result
        (λ found. found.detail ≡ whole_detail index.now.entries.now found.fault.kind) }
    ensures settings { IfOk result
        (λ config. settings_after (Ok index.now.entries.now) ≡ Some config) }
{
    if let Some(found) = whole_fault(index) {
        return Err(found);
    }
    Ok(config_of(alloc, index)?)
}
