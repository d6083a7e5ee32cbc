//! An epoch in which a worker or its replica follows what is called and granted (`run`).
ghost use Rattle.std.specs.Prelude.{◌≡◌, ◌≤◌, IfSome};

use crate::following::filling::{fill, put_queues};
use crate::following::requests::Requests;
use crate::following::rounds::{follow_rounds, look_on};
use crate::following::work::{Kind, Task, Work};
use cap_base::RESOURCES;
use cap_commit::Cluster;
use cap_config::read_config;
use cap_shared::{Blank, Seat, Shared};
use cap_testing::Looker;
use cap_workers::{
    BegunEpoch, Follower, IdleWorker, LaneNaming, OpenGate, Scheduler, Seeing, TurnEnd, Worker,
    begin_epoch,
};
use std::alloc::Global;
use std::marker::Brand;
use std::sync::Wait;

/// How many entries the journal has at most.
const LIMIT: usize = 1_000_000;

/// Does a work in a new cluster. The result is how many containers were granted, entries taken, or calls made.
pub fn run<H: Wait>(rt: &H, alloc: Global, work: &Work) -> Option<u64> {
    let mut lines = String::new(alloc);
    put_queues(&mut lines, work).ok()?;
    let config = read_config(alloc, lines.as_bytes()).ok()?;
    let Ok(cluster) = Cluster::from_config(alloc, &config) else {
        return None;
    };
    let Ok(same) = Cluster::from_config(alloc, &config) else {
        return None;
    };
    let Ok(blank) = Blank::new(alloc, 2) else {
        return None;
    };
    let worker = IdleWorker {
        worker: Worker::new(0),
        cluster: Some(same),
    };
    named_epoch::<Brand, H>(rt, alloc, blank, cluster, worker, work)
}

/// The same under a name.
fn named_epoch<J: LaneNaming, H: Wait>(
    rt: &H,
    alloc: Global,
    blank: Blank,
    cluster: Cluster<RESOURCES>,
    worker: IdleWorker,
    work: &Work,
) -> Option<u64>
    requires named { blank.0 ≡ J.table }
    requires opening { cluster.flat ≡ J.opening }
    requires same { IfSome worker.cluster (λ own. own.flat ≡ J.opening) }
    requires limit { 1000000 ≡ J.limit }
    requires seats { blank.1 ≡ J.seats }
    requires few { 2 ≡ J.seats }
{
    let Ok((shared, mut seats)) = Shared::<J>::open(alloc, blank, cluster, LIMIT) else {
        return None;
    };
    let Ok(workers) = Vec::from_array(alloc, [worker]) else {
        return None;
    };
    let begun = begin_epoch(rt, alloc, workers, &mut seats, None);
    let Ok(BegunEpoch { mut schedulers, .. }) = begun else {
        return None;
    };
    let own = schedulers.pop()?;
    let mut caller = seats.pop()?;
    fill(rt, alloc, &shared, &mut caller, work)?;
    match work.task {
        Task::Turns(turns) => take_turns(rt, &shared, own, turns),
        _ => follow(rt, alloc, &shared, &mut caller, own, work),
    }
}

/// What the worker's replica does once it has caught up with what fills the cluster.
fn follow<J: LaneNaming, H: Wait>(
    rt: &H,
    alloc: Global,
    shared: &Shared<J>,
    caller: &mut Seat<J>,
    own: Scheduler<J>,
    work: &Work,
) -> Option<u64> {
    let (_, follower) = following(own)?;
    let (seat, replica) = follower.into_parts();
    let mut looker = Looker::new(seat, replica);
    looker.catch_up(rt, shared)?;
    match work.task {
        Task::Turns(_) => None,
        Task::Looks { entries, looks } => {
            let requests = Requests::new(alloc, work, Kind::Allocate)?;
            look_on(rt, shared, caller, &mut looker, &requests, entries, looks)
        }
        Task::Rounds { kind, rounds, .. } => {
            let requests = Requests::new(alloc, work, kind)?;
            follow_rounds(rt, shared, caller, &mut looker, &requests, rounds)
        }
    }
}

/// How many containers so many turns grant.
fn take_turns<J: LaneNaming, H: Wait>(
    rt: &H,
    shared: &Shared<J>,
    own: Scheduler<J>,
    turns: u64,
) -> Option<u64> {
    let (mut worker, mut follower) = following(own)?;
    let mut granted = 0u64;
    for _ in 0..turns {
        if let TurnEnd::Done(_) = worker.follow(rt, shared, &mut follower, &OpenGate) {
            granted = granted.saturating_add(1);
        }
    }
    Some(granted)
}

/// The worker, and its seat with its cluster. `None` if it has none.
fn following<J: LaneNaming>(own: Scheduler<J>) -> Option<(Worker, Follower<J>)> {
    let (worker, seeing, _lane) = own.into_parts();
    match seeing {
        Seeing::Following(follower) => Some((worker, follower)),
        Seeing::Copying(_) => None,
    }
}
