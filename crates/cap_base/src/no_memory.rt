//! That an allocation failed (`NoMemory`).

use thiserror::Error;

/// No memory was found. Where a call answers it, the call changed nothing unless it says otherwise.
#[derive(Clone, Copy, Debug, PartialEq, Eq, Error)]
#[error("out of memory")]
pub struct NoMemory;
