//! Why a call is refused, by number (`Refusal`), and the refusal of the first test that holds (`first_refusal`).
ghost use Rattle.std.specs.Prelude.{◌≡◌};
ghost use Rattle.cap_base.specs.Cascade.{earliest};

/// Why a call is refused. Where several hold, the one of the smallest number is answered. A refused call leaves the
/// cluster as it was.
#[derive(Clone, Copy, Debug, PartialEq, Eq)]
pub enum Refusal {
    /// No queue has this path.
    UnknownQueue,
    /// An application is submitted to a queue with children.
    NotLeaf,
    /// An application is submitted to a queue that is STOPPED, or under one that is.
    QueueStopped,
    /// As many applications are active as `yarn.scheduler.capacity.maximum-applications` allows.
    TooManyApplications,
    /// No active application has this number.
    UnknownApplication,
    /// The application's master is registered.
    AlreadyRegistered,
    /// The application's master is not registered.
    NotRegistered,
    /// The response id is neither the last one answered, nor one before it with a kept reply.
    BadResponseId,
    /// An ask passes the maximum allocation.
    AskTooLarge,
    /// The application would have more than 256 keys.
    TooManyAsks,
    /// No node of this number is present.
    UnknownNode,
    /// A present node has this host.
    HostTaken,
    /// The sum of all nodes' totals would pass 2^40 in some resource.
    TotalTooLarge,
    /// 4,096 nodes are present.
    TooManyNodes,
    /// A node's total is 0 in every resource.
    ZeroResource,
    /// The next application or node number would be 2^62.
    NumbersSpent,
    /// The property lines of a Refresh have a fault: the first one's line, counted from 1 (0 where `root` has no queues), and
    /// the number of what is wrong there.
    BadSettings { line: u32, number: u8 },
    /// The property lines of a Refresh name other queues than the cluster has.
    OtherQueues,
    /// An allocation failed.
    NoMemory,
}

impl Refusal {
    ghost use Rattle.std.specs.Prelude.{◌≡◌, ◌<◌};
    ghost use Rattle.cap_model.specs.Refusals.{status_of};

    /// The number of the refusal, which is the status of its reply.
    pub fn status(self) -> u8
        ensures value { result ≡ status_of self }
        ensures refused { 0 < result }
    {
        match self {
            Refusal::UnknownQueue => 1,
            Refusal::NotLeaf => 2,
            Refusal::QueueStopped => 3,
            Refusal::TooManyApplications => 4,
            Refusal::UnknownApplication => 5,
            Refusal::AlreadyRegistered => 6,
            Refusal::NotRegistered => 7,
            Refusal::BadResponseId => 8,
            Refusal::AskTooLarge => 9,
            Refusal::TooManyAsks => 10,
            Refusal::UnknownNode => 11,
            Refusal::HostTaken => 12,
            Refusal::TotalTooLarge => 13,
            Refusal::TooManyNodes => 14,
            Refusal::ZeroResource => 15,
            Refusal::NumbersSpent => 16,
            Refusal::BadSettings { .. } => 17,
            Refusal::OtherQueues => 18,
            Refusal::NoMemory => 20,
        }
    }
}

/// The refusal of the first test that holds, none where none does. The tests are in the order of the numbers.
pub fn first_refusal(tests: &[(bool, Refusal)]) -> Option<Refusal>
    ensures { result ≡ earliest tests.now }
{
    for (holds, refusal) in tests {
        if *holds {
            return Some(*refusal);
        }
    }
    None
}
