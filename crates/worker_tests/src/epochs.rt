//! An epoch in which a worker has a seat, and calls are made with the others.
ghost use Rattle.std.specs.Prelude.{◌≡◌, ◌≤◌, ◌+◌, IfSome};

use cap_base::RESOURCES;
use cap_commit::Cluster;
use cap_config::read_config;
use cap_messages::read_request;
use cap_model::ReplyWith;
use cap_shared::{Blank, Seat, Shared};
use cap_testing::{Call, TWO_QUEUES, WantedContainers, frame};
use cap_workers::{
    BegunEpoch, Follower, IdleWorker, LaneNaming, Scheduler, Seeing, Worker, begin_epoch,
};
use std::alloc::Global;
use std::marker::Brand;
use std::sync::Wait;
use std::time::Clock;

/// How many entries the journal has at most where a test plays.
const LIMIT: usize = 20;

/// Three containers of (1024, 1), anywhere.
const THREE: WantedContainers = WantedContainers {
    priority: 1,
    request: 0,
    count: 3,
    resource: [1024, 1, 0],
    place: b"*",
};

/// Two nodes, and an application that asks for three containers.
pub static THREE_ASKED: [Call; 5] = [
    Call::Submit(b"root.a", b"u1"),
    Call::RegisterMaster(1),
    Call::Allocate(1, 0, &[THREE], &[]),
    Call::RegisterNode(b"n1", b"/r1", [8192, 8, 0]),
    Call::RegisterNode(b"n2", b"/r1", [8192, 8, 0]),
];

/// It asks for one more, of another key.
pub static ONE_MORE: [Call; 1] = [Call::Allocate(
    1,
    1,
    &[WantedContainers {
        request: 1,
        count: 1,
        ..THREE
    }],
    &[],
)];

/// What a test does in an epoch.
pub trait Play {
    /// What it sees.
    type Seen;

    /// With a worker, and a seat to make calls with. `None` if something failed that must not.
    fn play<J: LaneNaming, H: Wait + Clock>(
        &self,
        rt: &H,
        alloc: Global,
        shared: &Shared<J>,
        caller: Seat<J>,
        own: Scheduler<J>,
    ) -> Option<Self::Seen>;
}

/// Makes calls, none of which is refused.
pub fn call_all<J: LaneNaming, H: Wait>(
    rt: &H,
    alloc: Global,
    shared: &Shared<J>,
    seat: &mut Seat<J>,
    calls: &[Call<'_>],
) -> Option<()> {
    for call in calls {
        let bytes = frame(alloc, 2, 1, call).ok()?;
        let (_, request) = read_request(alloc, bytes.get(4..)?).ok()?;
        match shared.call(rt, seat, request) {
            Ok(ReplyWith::Refused(_)) | Err(_) => return None,
            Ok(_) => {}
        }
    }
    Some(())
}

/// What an epoch is opened with: a cluster of two queues, and a worker with one that is the same.
#[derive(Drop)]
pub struct Opening {
    pub blank: Blank,
    pub cluster: Cluster<RESOURCES>,
    pub worker: IdleWorker,
}

/// An epoch that has begun.
#[derive(Drop)]
pub struct Begun<J: LaneNaming> {
    pub shared: Shared<J>,
    pub seats: Vec<Seat<J>>,
    pub own: Scheduler<J>,
}

/// What an epoch of so many callers is opened with. `None` if an allocation fails.
pub fn open_for(alloc: Global, callers: u32) -> Option<Opening>
    requires { callers ≤ 255 }
    ensures seats { IfSome result (λ o. o.blank.1 ≡ callers + 1) }
    ensures same { IfSome result (λ o.
        IfSome o.worker.cluster (λ own. own.flat ≡ o.cluster.flat)) }
{
    let config = read_config(alloc, TWO_QUEUES).ok()?;
    let Ok(cluster) = Cluster::from_config(alloc, &config) else {
        return None;
    };
    let Ok(same) = Cluster::from_config(alloc, &config) else {
        return None;
    };
    let Ok(blank) = Blank::new(alloc, callers + 1) else {
        return None;
    };
    let worker = IdleWorker {
        worker: Worker::new(0),
        cluster: Some(same),
    };
    Some(Opening {
        blank,
        cluster,
        worker,
    })
}

/// Begins an epoch with a journal of so many entries at most. `None` if an allocation fails.
pub fn begin<J: LaneNaming, H: Wait>(
    rt: &H,
    alloc: Global,
    opening: Opening,
    limit: usize,
) -> Option<Begun<J>>
    requires named { opening.blank.0 ≡ J.table }
    requires opening { opening.cluster.flat ≡ J.opening }
    requires same { IfSome opening.worker.cluster (λ own. own.flat ≡ J.opening) }
    requires limit { limit ≡ J.limit }
    requires seats { opening.blank.1 ≡ J.seats }
    requires some { (1 ≤ J.limit) × (J.limit ≤ 1000000) }
    requires few { (1 ≤ J.seats) × (J.seats ≤ 256) }
{
    let Opening {
        blank,
        cluster,
        worker,
    } = opening;
    let Ok((shared, mut seats)) = Shared::<J>::open(alloc, blank, cluster, limit) else {
        return None;
    };
    let Ok(workers) = Vec::from_array(alloc, [worker]) else {
        return None;
    };
    let begun = begin_epoch(rt, alloc, workers, &mut seats, None);
    let Ok(BegunEpoch { mut schedulers, .. }) = begun else {
        return None;
    };
    let own = schedulers.pop()?;
    Some(Begun { shared, seats, own })
}

/// The worker, and its seat with its cluster. `None` if it has none.
pub fn following<J: LaneNaming>(own: Scheduler<J>) -> Option<(Worker, Follower<J>)> {
    let (worker, seeing, _lane) = own.into_parts();
    match seeing {
        Seeing::Following(follower) => Some((worker, follower)),
        Seeing::Copying(_) => None,
    }
}

/// Plays in an epoch with one caller and worker 0, which follows.
pub fn play_in<H: Wait + Clock, P: Play>(rt: &H, alloc: Global, play: &P) -> Option<P::Seen> {
    play_with(rt, alloc, 0, false, play)
}

/// The same with the worker of this number, which follows or copies.
pub fn play_with<H: Wait + Clock, P: Play>(
    rt: &H,
    alloc: Global,
    number: u32,
    copies: bool,
    play: &P,
) -> Option<P::Seen> {
    let mut opening = open_for(alloc, 1)?;
    opening.worker.worker = Worker::new(number);
    if copies {
        opening.worker.cluster = None;
    }
    play_under_name::<Brand, H, P>(rt, alloc, opening, play)
}

/// The same under a name.
fn play_under_name<J: LaneNaming, H: Wait + Clock, P: Play>(
    rt: &H,
    alloc: Global,
    opening: Opening,
    play: &P,
) -> Option<P::Seen>
    requires named { opening.blank.0 ≡ J.table }
    requires opening { opening.cluster.flat ≡ J.opening }
    requires same { IfSome opening.worker.cluster (λ own. own.flat ≡ J.opening) }
    requires limit { 20 ≡ J.limit }
    requires seats { opening.blank.1 ≡ J.seats }
    requires few { 2 ≡ J.seats }
{
    let Begun {
        shared,
        mut seats,
        own,
    } = begin::<J, H>(rt, alloc, opening, LIMIT)?;
    let caller = seats.pop()?;
    play.play(rt, alloc, &shared, caller, own)
}
