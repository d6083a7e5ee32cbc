//! What the channel under the lanes holds: a proposal or an end, with its worker's number (`Item`).
ghost use Rattle.std.specs.Prelude.{◌≡◌, IfSome, IfNone};
ghost use Rattle.cap_lanes.specs.declared.item.Message.TheVariants.{Put, End};

use cap_base::RESOURCES;
use cap_model::Proposal;

/// What a worker puts: a proposal, or its end, after which it puts nothing.
#[derive(Clone, Copy, Drop)]
pub enum Message {
    Put(Proposal<RESOURCES>),
    End,
}

/// What a worker put, with the worker's number.
#[derive(Clone, Copy, Drop)]
pub struct Item {
    pub worker: u32,
    pub message: Message,
}

impl Message {
    /// The proposal. None where it is the worker's end.
    pub fn proposal(&self) -> Option<Proposal<RESOURCES>>
        ensures some { IfSome result (λ proposal. self.now ≡ Put proposal) }
        ensures none { IfNone result (self.now ≡ End) }
    {
        match self {
            Message::Put(proposal) => Some(*proposal),
            Message::End => None,
        }
    }
}
