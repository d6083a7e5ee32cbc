//! Why a script is played no further (`Stop`).
ghost use Rattle.std.specs.Prelude.{◌≡◌};
ghost use Rattle.cap_replay.specs.declared.stop.Stop.TheVariants.{NoMemory as out_of_memory};

use cap_config::ConfigFault;
use std::alloc::{AllocError, AllocFailed};

/// Why a script is played no further.
#[derive(Clone, Copy)]
pub(crate) enum Stop {
    /// The line of this number, counted from 1, is none that may be there.
    BadLine(u64),
    /// The settings have this fault.
    Config(ConfigFault),
    /// An allocation failed.
    NoMemory,
    /// A read failed, or the input did not end in time.
    Input,
    /// A write failed.
    Output,
}

impl From<AllocError> for Stop {
    ghost from_gives = { λ _ e. e ≡ out_of_memory };

    fn from(_e: AllocError) -> Stop {
        Stop::NoMemory
    }
}
