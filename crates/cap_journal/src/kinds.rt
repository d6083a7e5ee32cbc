//! Whether a reply is one to a request of a kind (`is_of_kind`).
ghost use Rattle.std.specs.Prelude.{◌≡◌, ◌↔◌, true};
ghost use Rattle.cap_grammar.specs.Spelling.{IsOfKind};

use cap_base::RESOURCES;
use cap_model::{Refusal, ReplyView, ReplyWith};

/// Whether a reply is one that a request of this kind may get.
pub(crate) fn is_of_kind(kind: u8, reply: &ReplyView<'_, RESOURCES>) -> bool
    ensures { result ≡ true ↔ IsOfKind kind reply.now }
{
    match reply {
        ReplyWith::Refused(Refusal::BadSettings { .. }) => kind == 11,
        ReplyWith::Refused(_) => true,
        ReplyWith::Submit { .. } => kind == 1,
        ReplyWith::RegisterMaster { .. } => kind == 2,
        ReplyWith::Allocate { .. } => kind == 3,
        ReplyWith::FinishMaster { .. } => kind == 4,
        ReplyWith::RegisterNode { .. } => kind == 5,
        ReplyWith::Heartbeat { .. } => kind == 6,
        ReplyWith::NodeGone { .. } => kind == 7,
        ReplyWith::QueueInfo { .. } => kind == 8,
        ReplyWith::SetQueueState => kind == 9,
        ReplyWith::ClusterInfo { .. } => kind == 10,
        ReplyWith::Refresh => kind == 11,
    }
}
