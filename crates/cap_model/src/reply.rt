//! The answer to a request (`ReplyWith`) in its three forms: in numbers (`Reply`), lent and owned.
ghost use Rattle.std.specs.Prelude.{◌≡◌};
ghost use Rattle.cap_model.specs.Replies.{map_reply};
ghost use Rattle.cap_model.specs.Reporting.{IfAllocate};

use crate::refusal::Refusal;
use crate::replies::{AllocateNumbers, AllocateReply, AllocateView, HeartbeatReply};
use crate::report::{ClusterReport, QueueReport};
use cap_vector::Resource;
use std::alloc::AllocError;

/// The answer to a request: a refusal, or what the call of that name gives. `A` is what an Allocate is answered: its numbers, or
/// its grants and ends with them, lent or owned.
#[derive(Copy, Drop)]
pub enum ReplyWith<const K: usize, A> {
    Refused(Refusal),
    Submit {
        app: u64,
    },
    /// The least and the most that a container may have.
    RegisterMaster {
        minimum: Resource<K>,
        maximum: Resource<K>,
    },
    Allocate {
        reply: A,
    },
    /// How many of its containers have ended with it.
    FinishMaster {
        ended: u32,
    },
    RegisterNode {
        node: u64,
    },
    Heartbeat {
        reply: HeartbeatReply,
    },
    /// How many containers were lost with the node.
    NodeGone {
        ended: u32,
    },
    QueueInfo {
        report: QueueReport<K>,
    },
    SetQueueState,
    ClusterInfo {
        report: ClusterReport<K>,
    },
    Refresh,
}

impl<const K: usize, A: Copy> Clone for ReplyWith<K, A> {
    ghost use Rattle.std.specs.Prelude.{◌≡◌, ⊤};

    ghost is_clone = { λ reply copy. copy ≡ reply };

    ghost is_infallible = { λ _. ⊤ };

    fn clone(&self) -> Result<ReplyWith<K, A>, AllocError> {
        Ok(*self)
    }
}

impl<const K: usize, A> ReplyWith<K, A> {
    /// The same reply, which isn't the answer to a processed allocate.
    #[inline(always)]
    pub fn other<B>(&self) -> ReplyWith<K, B>
        requires { IfAllocate (λ _. ⊥) self.now }
        ensures { (f : A → B) → result ≡ map_reply f self.now }
    {
        match self {
            ReplyWith::Refused(refusal) => ReplyWith::Refused(*refusal),
            ReplyWith::Submit { app } => ReplyWith::Submit { app: *app },
            ReplyWith::RegisterMaster { minimum, maximum } => ReplyWith::RegisterMaster {
                minimum: *minimum,
                maximum: *maximum,
            },
            ReplyWith::Allocate { .. } => unreachable!(),
            ReplyWith::FinishMaster { ended } => ReplyWith::FinishMaster { ended: *ended },
            ReplyWith::RegisterNode { node } => ReplyWith::RegisterNode { node: *node },
            ReplyWith::Heartbeat { reply } => ReplyWith::Heartbeat { reply: *reply },
            ReplyWith::NodeGone { ended } => ReplyWith::NodeGone { ended: *ended },
            ReplyWith::QueueInfo { report } => ReplyWith::QueueInfo { report: *report },
            ReplyWith::SetQueueState => ReplyWith::SetQueueState,
            ReplyWith::ClusterInfo { report } => ReplyWith::ClusterInfo { report: *report },
            ReplyWith::Refresh => ReplyWith::Refresh,
        }
    }
}

/// What a call gives: plain data of a fixed size, whatever it reports. The grants and ends of an Allocate lie with its application,
/// and `Cluster::view` lends them.
pub type Reply<const K: usize> = ReplyWith<K, AllocateNumbers>;

/// A reply whose grants and ends are lent from where they lie.
pub type ReplyView<'a, const K: usize> = ReplyWith<K, AllocateView<'a, K>>;

/// A reply that owns its grants and ends.
pub type OwnedReply<const K: usize> = ReplyWith<K, AllocateReply<K>>;
