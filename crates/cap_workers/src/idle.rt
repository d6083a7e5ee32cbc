//! A worker between two epochs (`IdleWorker`), and how an epoch begins and ends for workers and lanes (`begin_epoch`, `close_epoch`).
ghost use Rattle.std.specs.Prelude.{◌≡◌, ◌+◌, ◌++◌, [], true, Some, IfOk, IfSome, length, map, All};
ghost use Rattle.std.specs.Option.{ForSome, option_to_list};
ghost use mathlib.Core.List.{IsPrefix};
ghost use Rattle.cap_shared.specs.Journal.{Replays};
ghost use Rattle.cap_shared.specs.WordRule.{fresh};
ghost use Rattle.cap_workers.specs.Idle.{AllAre, AllBegin, AllFollowed, ClosesEpoch, HasSpell, IsFresh};
ghost use Rattle.cap_workers.specs.Scheduling.{seat_of, spell};

use crate::committer::{FinishedLanes, LaneCommitter, close_lanes};
use crate::lane::{BlankLanes, EndedLane, EpochLanes, Lane, LaneNaming};
use crate::scheduler::{Scheduled, Scheduler};
use crate::seeing::Seeing;
use crate::worker::Worker;
use cap_base::RESOURCES;
use cap_commit::Cluster;
use cap_model::NoMemory;
use cap_shared::{Closed, Replica, Seat, Shared};
use std::alloc::Global;
use std::sync::Wait;

/// A worker outside of any epoch, with a cluster of its own if it follows the journal; without, it sees the cluster by copies.
#[derive(Drop)]
pub struct IdleWorker {
    pub worker: Worker,
    pub cluster: Option<Cluster<RESOURCES>>,
}

impl IdleWorker {
    /// The worker in an epoch that its cluster opens, on a seat that was answered nothing yet.
    fn begin<J: LaneNaming>(
        self,
        alloc: Global,
        seat: Seat<J>,
        lane: Option<Lane<J>>,
    ) -> Scheduler<J>
        requires opening { IfSome self.cluster (λ own. own.flat ≡ J.opening) }
        requires fresh { seat.past ≡ [] }
        requires own { ForSome lane (λ l. l.worker ≡ self.worker.number) }
        ensures worker { result.worker ≡ self.worker }
        ensures seat { seat_of result.seeing ≡ seat }
    {
        let IdleWorker { worker, cluster } = self;
        Scheduler::new(alloc, worker, Seeing::open(alloc, seat, cluster), lane)
    }
}

/// The workers of an epoch as it begins, and what is committed out of its lanes, if it has any.
#[derive(Drop)]
pub struct BegunEpoch<J: LaneNaming> {
    pub schedulers: Vec<Scheduler<J>>,
    /// The workers as they begin, in their order.
    pub firsts: Vec<Worker>,
    pub lanes: Option<LaneCommitter<J>>,
}

/// Begins an epoch that the workers' clusters open: the committer, if there are lanes, and each worker take the last of the seats, as they were opened,
/// and each worker its lane. The lanes that no worker has end. If an allocation fails, or there are too few seats, all is given up.
pub fn begin_epoch<J: LaneNaming, R: Wait>(
    rt: &R,
    alloc: Global,
    workers: Vec<IdleWorker>,
    seats: &mut Vec<Seat<J>>,
    lanes: Option<BlankLanes>,
) -> Result<BegunEpoch<J>, NoMemory>
    requires same { AllAre J.opening workers.items }
    requires fresh { seats.old.items ≡ fresh 0 J.seats }
    requires lanes { IfSome lanes (λ blank. Some blank ≡ J.lanes) }
    ensures workers { IfOk result (λ begun.
        map (λ s. s.worker) begun.schedulers.items ≡ map (λ w. w.worker) workers.items) }
    ensures firsts { IfOk result (λ begun.
        begun.firsts.items ≡ map (λ w. w.worker) workers.items) }
    ensures own { IfOk result (λ begun.
        All (λ s. ForSome s.lane (λ l. l.worker ≡ s.worker.number)) begun.schedulers.items) }
{
    let mut lanes = open_lanes(alloc, seats, lanes)?;
    let (Ok(mut schedulers), Ok(mut firsts)) = (
        Vec::with_capacity(alloc, workers.len()),
        Vec::with_capacity(alloc, workers.len()),
    ) else {
        return Err(NoMemory);
    };
    for worker in workers {
        let Some(seat) = seats.pop() else {
            return Err(NoMemory);
        };
        let first = worker.worker;
        let lane = lane_of(&mut lanes, first.number);
        let Ok(()) = schedulers.push(worker.begin(alloc, seat, lane)) else {
            return Err(NoMemory);
        };
        let Ok(()) = firsts.push(first) else {
            return Err(NoMemory);
        };
    }
    let lanes = match lanes {
        Some(lanes) => Some(lanes.end_rest(rt)?),
        None => None,
    };
    Ok(BegunEpoch {
        schedulers,
        firsts,
        lanes,
    })
}

/// Opens the lanes of an epoch, if there are any: the committer takes the last of the seats. If an allocation fails, or there is no seat, they are given up.
fn open_lanes<J: LaneNaming>(
    alloc: Global,
    seats: &mut Vec<Seat<J>>,
    lanes: Option<BlankLanes>,
) -> Result<Option<EpochLanes<J>>, NoMemory>
    requires fresh { All IsFresh seats.old.items }
    requires lanes { IfSome lanes (λ blank. Some blank ≡ J.lanes) }
    ensures { All IsFresh seats.new.items }
{
    let Some(blank) = lanes else {
        return Ok(None);
    };
    let Some(seat) = seats.pop() else {
        return Err(NoMemory);
    };
    Ok(Some(EpochLanes::open(alloc, blank, seat)?))
}

/// Takes the lane of the worker of this number, if there are lanes and nobody has it.
fn lane_of<J: LaneNaming>(lanes: &mut Option<EpochLanes<J>>, number: u32) -> Option<Lane<J>>
    ensures { ForSome result (λ lane. lane.worker ≡ number) }
{
    lanes.as_mut()?.take(number)
}

/// Closes an epoch: all its seats come back, some with workers, and its lanes, if it had any, are closed. What the seat of each worker was answered is
/// what it did, from the node on at which it began; all that it put into its lane was taken and committed, each once, and what came of each was put into
/// its mailbox. Each worker with a cluster of its own makes what that lacks of the journal again, so it can begin in the next epoch. If an allocation
/// fails, or a lane has not ended, the workers and the cluster are given up.
pub fn close_epoch<J: LaneNaming, R: Wait>(
    rt: &R,
    alloc: Global,
    shared: Shared<J>,
    seats: Vec<Seat<J>>,
    scheduled: Vec<Scheduled<J>>,
    lanes: Option<FinishedLanes<J>>,
) -> Result<(Closed, Vec<IdleWorker>), NoMemory>
    requires { length seats.items + length scheduled.items + length (option_to_list lanes)
        ≡ J.seats }
    ensures closes { IfOk result (λ left. ClosesEpoch J.opening J.limit J.seats
        (map spell scheduled.items) left.0.journal.items left.0.cluster.flat) }
    ensures workers { IfOk result (λ left. AllAre left.0.cluster.flat left.1.items) }
    ensures back { IfOk result (λ left.
        map (λ w. w.worker) left.1.items ≡ map (λ w. w.worker) scheduled.items) }
{
    let mut seats = seats;
    let (leaving, ended) = leave_all(alloc, &mut seats, scheduled)?;
    close_lanes(rt, alloc, lanes, &mut seats, ended)?;
    let closed = shared.close(seats);
    let workers = carry_on(alloc, leaving, &closed)?;
    Ok((closed, workers))
}

/// Puts workers that have left an epoch into the order in which they began. An error means that one is missing, or that an allocation failed; all are
/// given up then.
pub fn in_order<J: LaneNaming>(
    alloc: Global,
    firsts: Vec<Worker>,
    scheduled: Vec<Scheduled<J>>,
) -> Result<Vec<Scheduled<J>>, NoMemory>
    ensures { IfOk result (λ ordered. map (λ w. w.first) ordered.items ≡ firsts.items) }
{
    let Ok(mut ordered) = Vec::with_capacity(alloc, firsts.len()) else {
        return Err(NoMemory);
    };
    let mut scheduled = scheduled;
    for first in firsts {
        let Some(one) = take_begun(&mut scheduled, first) else {
            return Err(NoMemory);
        };
        let Ok(()) = ordered.push(one) else {
            return Err(NoMemory);
        };
    }
    Ok(ordered)
}

/// Takes the worker that has begun as this one. `None` if there is none.
fn take_begun<J: LaneNaming>(
    scheduled: &mut Vec<Scheduled<J>>,
    first: Worker,
) -> Option<Scheduled<J>>
    ensures { IfSome result (λ one. one.first ≡ first) }
{
    let place = scheduled.iter().position(
        |it| -> bool
            ensures { result ≡ true → it.now.first ≡ first }
        { it.first() == first },
    )?;
    Some(scheduled.swap_remove(place))
}

/// Takes workers from their seats, which are put to the others: the workers, each with what has followed the journal, if it has that, and their lanes. If
/// an allocation fails they are given up.
fn leave_all<J: LaneNaming>(
    alloc: Global,
    seats: &mut Vec<Seat<J>>,
    scheduled: Vec<Scheduled<J>>,
) -> Result<(Vec<(Worker, Option<Replica<J>>)>, Vec<EndedLane<J>>), NoMemory>
    ensures seats { IfOk result (λ _.
        length seats.new.items ≡ length seats.old.items + length scheduled.items) }
    ensures work { IfOk result (λ left.
        All (HasSpell J.opening J.limit seats.new.items left.1.items)
        (map spell scheduled.items)) }
    ensures followed { IfOk result (λ left. AllFollowed seats.new.items left.0.items) }
    ensures back { IfOk result (λ left.
        map (λ w. w.0) left.0.items ≡ map (λ w. w.worker) scheduled.items) }
{
    let (Ok(mut leaving), Ok(mut lanes)) = (
        Vec::with_capacity(alloc, scheduled.len()),
        Vec::with_capacity(alloc, scheduled.len()),
    ) else {
        return Err(NoMemory);
    };
    for one in scheduled {
        let (worker, seeing, ended) = one.into_parts();
        let (seat, replica) = seeing.into_parts();
        let Ok(()) = seats.push(seat) else {
            return Err(NoMemory);
        };
        let Ok(()) = leaving.push((worker, replica)) else {
            return Err(NoMemory);
        };
        add_ended(&mut lanes, ended)?;
    }
    Ok((leaving, lanes))
}

/// Adds a worker's lane, if it had one, to those that have ended. If an allocation fails it is given up.
fn add_ended<J: LaneNaming>(
    lanes: &mut Vec<EndedLane<J>>,
    ended: Option<EndedLane<J>>,
) -> Result<(), NoMemory>
    ensures { IfOk result (λ _. lanes.new.items ≡ lanes.old.items ++ option_to_list ended) }
{
    let Some(ended) = ended else {
        return Ok(());
    };
    match lanes.push(ended) {
        Ok(()) => Ok(()),
        Err(_) => Err(NoMemory),
    }
}

/// Makes again what the workers' clusters lack of the journal. If an allocation fails the workers are given up.
fn carry_on<J: LaneNaming>(
    alloc: Global,
    leaving: Vec<(Worker, Option<Replica<J>>)>,
    closed: &Closed,
) -> Result<Vec<IdleWorker>, NoMemory>
    requires begin { AllBegin closed.now.journal.items leaving.items }
    requires run { Replays J.opening closed.now.journal.items closed.now.cluster.flat }
    ensures same { IfOk result (λ workers. AllAre closed.now.cluster.flat workers.items) }
    ensures back { IfOk result (λ workers.
        map (λ w. w.worker) workers.items ≡ map (λ w. w.0) leaving.items) }
{
    let Ok(mut workers) = Vec::with_capacity(alloc, leaving.len()) else {
        return Err(NoMemory);
    };
    for (worker, replica) in leaving {
        let cluster = carried(replica, closed)?;
        let Ok(()) = workers.push(IdleWorker { worker, cluster }) else {
            return Err(NoMemory);
        };
    }
    Ok(workers)
}

/// The cluster of a replica, if there is one, once it has made the journal of a closed epoch again. If an allocation fails it is given up.
fn carried<J: LaneNaming>(
    replica: Option<Replica<J>>,
    closed: &Closed,
) -> Result<Option<Cluster<RESOURCES>>, NoMemory>
    requires begins { IfSome replica (λ own. IsPrefix own.log closed.now.journal.items) }
    requires run { Replays J.opening closed.now.journal.items closed.now.cluster.flat }
    ensures { IfOk result (λ cluster.
        IfSome cluster (λ own. own.flat ≡ closed.now.cluster.flat)) }
{
    match replica {
        Some(replica) => Ok(Some(replica.close(closed)?)),
        None => Ok(None),
    }
}
