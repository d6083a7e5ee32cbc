//! The first fault of property lines: its line (`ConfigFault`), and what is wrong there (`ConfigFaultKind`).

use std::alloc::{AllocError, AllocFailed};
use std::fmt;
use thiserror::Error;

/// The first fault of a text: what is wrong, and in which line.
#[derive(Clone, Copy, Debug, Drop, Error, PartialEq, Eq)]
#[error("line {line}: {kind}")]
pub struct ConfigFault {
    /// The line, counted from 1. It is 0 where no line is at fault: memory has run out, or `root` has no queues.
    pub line: usize,
    pub kind: ConfigFaultKind,
}

/// What is wrong.
#[derive(Clone, Copy, Debug, Drop, PartialEq, Eq)]
pub enum ConfigFaultKind {
    BadLine,
    UnknownKey,
    Repeated,
    BadValue,
    NoSuchQueue,
    OverParent,
    GuaranteeOverMaximum,
    TooManyQueues,
    TooDeep,
    NoChild,
    NoMemory,
}

impl ConfigFaultKind {
    ghost use Rattle.std.specs.Prelude.{◌≡◌};
    ghost use Rattle.cap_base.specs.properties.Fault.{fault_number};

    /// The number of what is wrong, as a report to an operator gives it.
    pub fn number(self) -> u8
        ensures { result ≡ fault_number self }
    {
        match self {
            ConfigFaultKind::BadLine => 1,
            ConfigFaultKind::UnknownKey => 2,
            ConfigFaultKind::Repeated => 3,
            ConfigFaultKind::BadValue => 4,
            ConfigFaultKind::NoSuchQueue => 5,
            ConfigFaultKind::OverParent => 6,
            ConfigFaultKind::GuaranteeOverMaximum => 7,
            ConfigFaultKind::TooManyQueues => 8,
            ConfigFaultKind::TooDeep => 9,
            ConfigFaultKind::NoChild => 10,
            ConfigFaultKind::NoMemory => 20,
        }
    }

    /// What is wrong, in words.
    fn words(self) -> &'static str {
        match self {
            ConfigFaultKind::BadLine => "write the line as key=value, in printable ASCII alone",
            ConfigFaultKind::UnknownKey =>
                "no such property: a queue has yarn.scheduler.capacity.<queue-path> and then .queues, .capacity, .maximum-capacity, .user-limit-factor or .state, its path begins with root, and root has .queues and .state alone; for GPUs there are yarn.resource-types.yarn.io/gpu.minimum-allocation and yarn.resource-types.yarn.io/gpu.maximum-allocation",
            ConfigFaultKind::Repeated => "an earlier line has the same property: keep one of them",
            ConfigFaultKind::BadValue =>
                "the value has another form or range: a resource is [memory=N,vcores=N] or [memory=N,vcores=N,yarn.io/gpu=N], a state RUNNING or STOPPED, queues are names of 1 to 64 letters, digits, _ or -, none of them twice, and no maximum allocation is below the minimum",
            ConfigFaultKind::NoSuchQueue =>
                "the queue is not listed by the .queues line of the queue above it, from root on",
            ConfigFaultKind::OverParent =>
                "a maximum capacity is above that of the queue over it, or the capacities of the queues below add up to more than this queue's",
            ConfigFaultKind::GuaranteeOverMaximum =>
                "the capacity is above the queue's maximum capacity, its own or inherited",
            ConfigFaultKind::TooManyQueues =>
                "with this line there are more than 1024 queues, root among them",
            ConfigFaultKind::TooDeep =>
                "this queue stands on level 16, root's being 1, and may have no queues below it",
            ConfigFaultKind::NoChild =>
                "root needs a .queues line, and a .queues line names at least one queue",
            ConfigFaultKind::NoMemory => "memory has run out",
        }
    }
}

impl fmt::Display for ConfigFaultKind {
    fn fmt<W: fmt::Write>(&self, f: &mut fmt::Formatter<W>) -> fmt::Result {
        f.write_str(self.words())
    }
}

impl std::error::Error for ConfigFaultKind {}

impl From<AllocError> for ConfigFault {
    ghost use Rattle.std.specs.Prelude.{◌≡◌};
    ghost use Rattle.cap_base.specs.properties.Fault.{no_memory};

    ghost from_gives = { λ _ e. e ≡ no_memory };

    fn from(_e: AllocError) -> ConfigFault {
        ConfigFault {
            line: 0,
            kind: ConfigFaultKind::NoMemory,
        }
    }
}

impl<T: Drop> From<AllocFailed<T>> for ConfigFault {
    ghost use Rattle.std.specs.Prelude.{◌≡◌};
    ghost use Rattle.cap_base.specs.properties.Fault.{no_memory};

    ghost from_gives = { λ _ e. e ≡ no_memory };

    fn from(_e: AllocFailed<T>) -> ConfigFault {
        ConfigFault {
            line: 0,
            kind: ConfigFaultKind::NoMemory,
        }
    }
}
