//! An epoch: all tasks over one shared cluster, until its journal is full or all connections have ended (`epoch`).
ghost use Rattle.std.specs.Prelude.{◌≡◌, ◌≤◌, ◌<◌, ◌+◌, Some, IfOk, IfSome, length, map};
ghost use Rattle.std.specs.Option.{ForSome, option_to_list};
ghost use Rattle.cap_shared.specs.WordRule.{fresh};
ghost use Rattle.cap_workers.specs.Idle.{AllAre};
ghost use Rattle.cap_server.specs.Epochs.{LeadsTo, standing};

use crate::participants::{EpochThreads, Left, Participants};
use crate::state::SharedState;
use crate::task::Records;
use crate::threads::{Common, run_threads};
use cap_base::RESOURCES;
use cap_commit::Cluster;
use cap_connections::Places;
use cap_model::NoMemory;
use cap_shared::{Blank, Closed, Seat, Shared};
use cap_workers::{
    BegunEpoch, BlankLanes, Coordinator, Gate, IdleWorker, LaneNaming, Worker, begin_epoch,
    close_epoch, in_order,
};
use std::alloc::Global;
use std::io::Input;
use std::marker::Brand;
use std::net::Net;
use std::sync::Wait;
use std::thread::Threads;
use std::time::Clock;

/// What goes from one epoch to the next: the cluster, the workers, each with the same cluster of its own, and who else works on it; and how many
/// entries the last journal had.
#[derive(Drop)]
pub(crate) struct Carried {
    pub cluster: Cluster<RESOURCES>,
    pub workers: Vec<IdleWorker>,
    pub participants: Participants,
    pub entries: usize,
}

impl Carried {
    /// The cluster, the workers, and who else works on it.
    fn into_parts(self) -> (Cluster<RESOURCES>, Vec<IdleWorker>, Participants)
        ensures cluster { result.0.flat ≡ self.cluster.flat }
        ensures workers { result.1.items ≡ self.workers.items }
    {
        let Carried {
            cluster,
            workers,
            participants,
            entries: _,
        } = self;
        (cluster, workers, participants)
    }
}

/// An epoch over the cluster that the last one left, with a seat for each connection, each worker and the committer: its journal leads from this
/// cluster to the one that is left, and each worker that has a cluster of its own has that too. The workers begin as they are and go on as they have left,
/// in the same order. What the seat of each was answered is its turns, or its offers, and nothing else; what was put into lanes was taken and committed,
/// each once, or is left, and then dropped. An error means that an allocation failed or that a thread could not be made; the cluster is given up then.
pub(crate) fn epoch<H: Net + Threads + Wait + Clock + Eprint + Input + Sync, G: Gate + Sync>(
    rt: &H,
    alloc: Global,
    carried: Carried,
    state: &SharedState<'_, G>,
) -> Result<Carried, NoMemory>
    requires { AllAre carried.cluster.flat carried.workers.items }
    ensures run { IfOk result (λ next. LeadsTo state.now.limit
        (standing carried.cluster.flat carried.workers.items) next.entries
        (standing next.cluster.flat next.workers.items)) }
    ensures workers { IfOk result (λ next. AllAre next.cluster.flat next.workers.items) }
{
    match (
        Blank::new(alloc, state.seats),
        blank_lanes(alloc, state.lanes),
    ) {
        (Ok(blank), Ok(lanes)) => {
            let (cluster, workers, participants) = carried.into_parts();
            let blanks = (blank, lanes);
            let begun = (workers, participants);
            named_epoch::<Brand, H, G>(rt, alloc, blanks, cluster, begun, state)
        }
        _ => Err(NoMemory),
    }
}

/// Lanes with room for so many proposals, if there are to be any. If an allocation fails there are none.
fn blank_lanes(alloc: Global, capacity: Option<usize>) -> Result<Option<BlankLanes>, NoMemory>
    requires { ForSome capacity (λ places. (8 ≤ places) × (places ≤ 1024)) }
{
    match capacity {
        Some(capacity) => Ok(Some(BlankLanes::new(alloc, capacity)?)),
        None => Ok(None),
    }
}

/// The same under a name.
fn named_epoch<
    J: LaneNaming + Send + Sync,
    H: Net + Threads + Wait + Clock + Eprint + Input + Sync,
    G: Gate + Sync,
>(
    rt: &H,
    alloc: Global,
    blanks: (Blank, Option<BlankLanes>),
    cluster: Cluster<RESOURCES>,
    begun: (Vec<IdleWorker>, Participants),
    state: &SharedState<'_, G>,
) -> Result<Carried, NoMemory>
    requires named { blanks.0.0 ≡ J.table }
    requires lanes { blanks.1 ≡ J.lanes }
    requires opening { cluster.flat ≡ J.opening }
    requires workers { AllAre J.opening begun.0.items }
    requires limit { state.now.limit ≡ J.limit }
    requires seats { blanks.0.1 ≡ J.seats }
    requires count { state.now.seats ≡ J.seats }
    requires some { (1 ≤ J.limit) × (J.limit ≤ 1000000) }
    requires few { (1 ≤ J.seats) × (J.seats ≤ 256) }
    ensures run { IfOk result (λ next. LeadsTo state.now.limit
        (standing cluster.flat begun.0.items) next.entries
        (standing next.cluster.flat next.workers.items)) }
    ensures workers { IfOk result (λ next. AllAre next.cluster.flat next.workers.items) }
{
    let (blank, lanes) = blanks;
    let (shared, seats) = Shared::<J>::open(alloc, blank, cluster, state.limit)?;
    let left = work_all(rt, alloc, &shared, state, begun, (seats, lanes))?;
    let Left {
        participants,
        workers,
        seats,
        lanes,
    } = left;
    let (closed, workers) = close_epoch(rt, alloc, shared, seats, workers, lanes)?;
    let (carried, records) = parted(closed, workers, participants);
    state.leave(rt, records, carried.participants.acceptor.accepted());
    Ok(carried)
}

/// Does what is to be done, in threads, until the epoch ends. Who works on comes back, with all seats, the workers in the order in which they began. An
/// error means that an allocation failed, or that a thread could not be made.
fn work_all<
    J: LaneNaming + Send + Sync,
    H: Net + Threads + Wait + Clock + Eprint + Input + Sync,
    G: Gate + Sync,
>(
    rt: &H,
    alloc: Global,
    shared: &Shared<J>,
    state: &SharedState<'_, G>,
    begun: (Vec<IdleWorker>, Participants),
    opened: (Vec<Seat<J>>, Option<BlankLanes>),
) -> Result<Left<J>, NoMemory>
    requires count { state.now.seats ≡ J.seats }
    requires workers { AllAre J.opening begun.0.items }
    requires fresh { opened.0.items ≡ fresh 0 J.seats }
    requires lanes { IfSome opened.1 (λ blank. Some blank ≡ J.lanes) }
    ensures seats { IfOk result (λ left. length left.seats.items + length left.workers.items
        + length (option_to_list left.lanes) ≡ J.seats) }
    ensures began { IfOk result (λ left.
        map (λ w. w.first) left.workers.items ≡ map (λ w. w.worker) begun.0.items) }
{
    let (workers, participants) = begun;
    let (mut seats, lanes) = opened;
    let BegunEpoch {
        schedulers,
        firsts,
        lanes,
    } = begin_epoch(rt, alloc, workers, &mut seats, lanes)?;
    let running = EpochThreads::new(alloc, seats, schedulers.len())?;
    let common = Common {
        coordinator: Coordinator::new(),
        places: Places::new(alloc, state.seats as usize)?,
    };
    state.signal.lower(rt);
    let left = run_threads(
        rt,
        alloc,
        shared,
        state,
        &common,
        (running, schedulers, lanes),
        participants,
    )?;
    settled(alloc, left, firsts, state.seats)
}

/// What the threads of an epoch have left, with the workers in the order in which they began. An error means that one of them, or a seat, is missing, or
/// that an allocation failed.
fn settled<J: LaneNaming>(
    alloc: Global,
    left: Left<J>,
    firsts: Vec<Worker>,
    seats: u32,
) -> Result<Left<J>, NoMemory>
    ensures seats { IfOk result (λ left. length left.seats.items + length left.workers.items
        + length (option_to_list left.lanes) ≡ seats) }
    ensures began { IfOk result (λ left. map (λ w. w.first) left.workers.items ≡ firsts.items) }
{
    let Left {
        participants,
        workers,
        seats: back,
        lanes,
    } = left;
    let workers = in_order(alloc, firsts, workers)?;
    let count = back.len() + workers.len() + usize::from(lanes.is_some());
    if count != seats as usize {
        return Err(NoMemory);
    }
    Ok(Left {
        participants,
        workers,
        seats: back,
        lanes,
    })
}

/// What a closed epoch leaves for the next, and what is left of it beside that.
fn parted(
    closed: Closed,
    workers: Vec<IdleWorker>,
    participants: Participants,
) -> (Carried, Records)
    ensures cluster { result.0.cluster.flat ≡ closed.cluster.flat }
    ensures workers { result.0.workers.items ≡ workers.items }
    ensures entries { result.0.entries ≡ length closed.journal.items }
{
    let Closed {
        cluster,
        journal,
        seats,
    } = closed;
    let carried = Carried {
        cluster,
        workers,
        participants,
        entries: journal.len(),
    };
    (carried, Records { journal, seats })
}
