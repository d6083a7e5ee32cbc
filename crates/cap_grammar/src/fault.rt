//! Why a payload gives no request (`MessageFault`).
ghost use Rattle.std.specs.Prelude.{◌≡◌};
ghost use Rattle.cap_grammar.specs.declared.fault.MessageFault.TheVariants.{NoMemory};

use std::alloc::{AllocError, AllocFailed};
use thiserror::Error;

/// Why a payload gives no request.
#[derive(Debug, Drop, Error)]
pub enum MessageFault {
    /// The payload is no request.
    #[error("the payload is no request")]
    Bad,
    /// An allocation was refused.
    #[error("out of memory")]
    NoMemory,
}

impl From<AllocError> for MessageFault {
    ghost from_gives = { λ _ e. e ≡ NoMemory };

    fn from(_e: AllocError) -> MessageFault {
        MessageFault::NoMemory
    }
}
