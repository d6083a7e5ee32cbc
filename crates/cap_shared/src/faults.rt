//! Why a call or a commit was not made (`CallFault`, `CommitFault`).
use cap_base::RESOURCES;
use cap_model::{Proposal, Request};

/// A call was not made, and nothing changed. The request comes back.
#[derive(Drop)]
pub enum CallFault {
    /// The journal is full.
    Sealed(Request<RESOURCES>),
    /// An allocation failed.
    NoMemory(Request<RESOURCES>),
}

/// A proposal was not made, and nothing changed. The proposal comes back.
#[derive(Clone, Copy, Drop)]
pub enum CommitFault {
    /// The journal is full.
    Sealed(Proposal<RESOURCES>),
    /// It is admissible, and an allocation failed.
    NoMemory(Proposal<RESOURCES>),
}

/// Why a call was not made under the lock. Nothing changed.
#[derive(Clone, Copy, Drop)]
pub enum Fault {
    /// The journal is full.
    Sealed,
    /// An allocation failed.
    NoMemory,
}
