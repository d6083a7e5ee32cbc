//! Why a file is audited no further (`Stop`, `Why`).
ghost use Rattle.std.specs.Prelude.{◌≡◌};
ghost use Rattle.cap_journal.specs.declared.fault.LineFault.TheVariants.{NoMemory as no_room};
ghost use Rattle.cap_audit.specs.declared.stop.Stop.TheVariants.{NoMemory as out_of_memory};

use cap_journal::LineFault;
use cap_model::Reason;
use std::alloc::{AllocError, AllocFailed};

/// Why a file is audited no further.
#[derive(Clone, Copy, Debug, PartialEq, Eq)]
pub(crate) enum Stop {
    /// The line that was read last, or its absence, is false.
    False(Why),
    /// The settings have a fault.
    Settings,
    /// An allocation failed.
    NoMemory,
    /// A read failed, or the input did not end in time, or before a number of epochs or entries was at its end.
    Input,
    /// A write failed.
    Output,
}

/// What is false about a line.
#[derive(Clone, Copy, Debug, PartialEq, Eq)]
pub(crate) enum Why {
    /// It is no line of an audit file.
    NoLine,
    /// A property line stands behind the first epoch.
    LateProperty,
    /// The epoch before is not closed.
    NotClosed,
    /// It stands in no epoch.
    NoEpoch,
    /// It is not the epoch of this number, which is the next.
    OtherEpoch(u64),
    /// The epoch has so many entries.
    OtherCount(u64),
    /// The cluster gives another reply.
    OtherReply,
    /// The proposal is not admissible.
    Inadmissible(Reason),
    /// It is not the container of this number, which is the next.
    OtherContainer(u64),
    /// The file ends in an epoch.
    Unfinished,
}

impl From<AllocError> for Stop {
    ghost from_gives = { λ _ e. e ≡ out_of_memory };

    fn from(_e: AllocError) -> Stop {
        Stop::NoMemory
    }
}

/// What a line stops an audit with that can't be written for comparison.
pub(crate) fn stop_of(fault: LineFault) -> Stop
    ensures { fault ≡ no_room → result ≡ out_of_memory }
{
    match fault {
        LineFault::NoMemory => Stop::NoMemory,
        LineFault::NoSpelling => Stop::False(Why::NoLine),
    }
}
