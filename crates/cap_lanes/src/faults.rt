//! Why a proposal was not put into a lane (`PutFault`).
use cap_base::RESOURCES;
use cap_model::Proposal;

/// A proposal was not put, and nothing changed. The proposal comes back.
#[derive(Clone, Copy, Debug, Drop)]
pub struct PutFault {
    pub back: Proposal<RESOURCES>,
}
