//! Why a line can't be written (`LineFault`).
ghost use Rattle.std.specs.Prelude.{◌≡◌};
ghost use Rattle.cap_journal.specs.declared.fault.LineFault.TheVariants.{NoMemory as out_of_memory};

use std::alloc::{AllocError, AllocFailed};

/// Why a line can't be written.
#[derive(Clone, Copy, Debug, PartialEq, Eq)]
pub enum LineFault {
    /// An allocation failed.
    NoMemory,
    /// The event has no spelling: its request could not be read again, or its reply is not of the request's kind.
    NoSpelling,
}

impl From<AllocError> for LineFault {
    ghost from_gives = { λ _ e. e ≡ out_of_memory };

    fn from(_e: AllocError) -> LineFault {
        LineFault::NoMemory
    }
}
