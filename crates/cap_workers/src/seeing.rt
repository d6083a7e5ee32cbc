//! How a worker sees the cluster (`Seeing`): by a cluster of its own that follows the journal, or by copies.
ghost use Rattle.std.specs.Prelude.{◌≡◌, IfSome};
ghost use Rattle.cap_shared.specs.Following.{Follows};
ghost use Rattle.cap_workers.specs.Following.{Notes};
ghost use Rattle.cap_workers.specs.Scheduling.{seat_of};

use crate::follower::Follower;
use cap_base::RESOURCES;
use cap_commit::Cluster;
use cap_model::NoMemory;
use cap_shared::{Naming, Replica, Seat, Shared};
use std::alloc::Global;
use std::sync::Wait;

/// How a worker sees the cluster in an epoch.
#[derive(Drop)]
pub enum Seeing<J: Naming> {
    /// By a cluster of its own, which follows the journal.
    Following(Follower<J>),
    /// By copies, which are made under the lock.
    Copying(Seat<J>),
}

impl<J: Naming> Seeing<J> {
    /// By a cluster of its own, if there is one, that is the same as the opening of the epoch; else by copies.
    pub(crate) fn open(
        alloc: Global,
        seat: Seat<J>,
        cluster: Option<Cluster<RESOURCES>>,
    ) -> Seeing<J>
        requires { IfSome cluster (λ own. own.flat ≡ J.opening) }
        ensures { seat_of result ≡ seat }
    {
        match cluster {
            Some(cluster) => Seeing::Following(Follower::open(alloc, seat, cluster)),
            None => Seeing::Copying(seat),
        }
    }

    /// Takes what was entered since it looked last, with notes of copies, where it has a cluster of its own.
    pub(crate) fn catch_up<R: Wait>(&mut self, rt: &R, shared: &Shared<J>) -> Result<(), NoMemory>
        ensures { Notes J.opening (seat_of self.old) (seat_of self.new) }
    {
        match self {
            Seeing::Following(follower) => follower.catch_up(rt, shared),
            Seeing::Copying(_) => Ok(()),
        }
    }

    /// The seat, to be given back at the end of the epoch, and the replica, if there is one, to open the next epoch with.
    pub(crate) fn into_parts(self) -> (Seat<J>, Option<Replica<J>>)
        ensures seat { result.0 ≡ seat_of self }
        ensures follows { IfSome result.1 (λ replica. Follows replica.log result.0.past) }
    {
        match self {
            Seeing::Following(follower) => {
                let (seat, replica) = follower.into_parts();
                (seat, Some(replica))
            }
            Seeing::Copying(seat) => (seat, None),
        }
    }
}
