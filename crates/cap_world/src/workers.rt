//! The workers that ever copied the cluster, by number, and the steps on them: they copy, propose and commit.
ghost use Rattle.std.specs.Prelude.{◌≡◌, ◌++◌, ℕ, List, Ok, IfOk, OnErr, option_map, vec_len, vec_capacity, ◌<◌};
ghost use Rattle.cap_base.specs.Limits.{resources};
ghost use Rattle.cap_model.specs.declared.event.Event.{Event};
ghost use Rattle.cap_model.specs.Flat.{Flat};
ghost use Rattle.cap_model.specs.Sight.{sight_of};
ghost use Rattle.cap_model.specs.Admission.{IsAdmissible};
ghost use Rattle.cap_copy.specs.Snapshot.{sight_in};
ghost use Rattle.cap_world.specs.Connection.{Connection};
ghost use Rattle.cap_world.specs.World.{choice_in, verdict_in, worker_at};
ghost use Rattle.cap_world.specs.Working.{IsOfProposal, IsTried, made_by};
ghost use Rattle.cap_world.specs.Steps.{StepOutcome};

use crate::step::{Did, Step};
use crate::worker::WorkerSlot;
use cap_base::RESOURCES;
use cap_commit::Cluster;
use cap_model::{Event, NoMemory, Proposal, Verdict};
use cap_sights::snapshot_of;
use indexmap::IndexMap;
use std::alloc::Global;

pub(crate) type Workers = IndexMap<u32, WorkerSlot>;

/// The numbers of workers are below it.
const WORKERS_MAX: u32 = 64;

/// The proposal of the worker that is not committed yet, if any.
pub(crate) fn choice(workers: &Workers, number: u32) -> Option<Proposal<RESOURCES>>
    ensures { result ≡ choice_in (worker_at number workers.now.entries) }
{
    let Some(worker) = workers.get(&number) else {
        return None;
    };
    worker.choice()
}

/// The verdict of the worker's last commit, if any.
pub(crate) fn verdict(workers: &Workers, number: u32) -> Option<&Verdict<RESOURCES>>
    ensures { option_map (λ verdict. verdict.now) result
        ≡ verdict_in (worker_at number workers.now.entries) }
{
    let Some(worker) = workers.get(&number) else {
        return None;
    };
    worker.verdict()
}

/// A worker copies the cluster, if there is such a worker.
#[inline(never)]
pub(crate) fn copy(
    alloc: Global,
    workers: &mut Workers,
    number: u32,
    cluster: &Cluster<RESOURCES>,
) -> Result<Did, NoMemory>
    ensures { (connections : List (ℕ × Connection)) (events : List (Event resources)) →
        StepOutcome (Step.Copy number) result
        (record {
          cluster = cluster.now.flat;
          connections = connections;
          workers = workers.old.entries;
        })
        (record {
          cluster = cluster.now.flat;
          connections = connections;
          workers = workers.new.entries;
        }) events events }
{
    if number >= WORKERS_MAX {
        return Ok(Did::Idle);
    }
    let snapshot = snapshot_of(alloc, cluster)?;
    if let Some(worker) = workers.get_mut(&number) {
        worker.renew(snapshot);
        return Ok(Did::Done);
    }
    match workers.insert(number, WorkerSlot::new(snapshot)) {
        Ok(_) => Ok(Did::Done),
        Err(_) => Err(NoMemory),
    }
}

/// A worker proposes on its snapshot, if it has one.
#[inline(never)]
pub(crate) fn propose(workers: &mut Workers, number: u32, start: u32) -> Did
    ensures { (cluster : Flat resources) (connections : List (ℕ × Connection))
        (events : List (Event resources)) →
        StepOutcome (Step.Propose number start) (Ok result)
        (record { cluster = cluster; connections = connections; workers = workers.old.entries })
        (record { cluster = cluster; connections = connections; workers = workers.new.entries })
        events events }
{
    if number >= WORKERS_MAX {
        return Did::Idle;
    }
    let Some(worker) = workers.get_mut(&number) else {
        return Did::Idle;
    };
    worker.propose(start);
    Did::Done
}

/// A worker's proposal is tried on the cluster, if it has one.
#[inline(never)]
pub(crate) fn commit(
    workers: &mut Workers,
    number: u32,
    cluster: &mut Cluster<RESOURCES>,
    events: &mut Vec<Event<RESOURCES>>,
) -> Result<Did, NoMemory>
    ensures { (connections : List (ℕ × Connection)) → StepOutcome (Step.Commit number) result
        (record {
          cluster = cluster.old.flat;
          connections = connections;
          workers = workers.old.entries;
        })
        (record {
          cluster = cluster.new.flat;
          connections = connections;
          workers = workers.new.entries;
        })
        events.old.items events.new.items }
{
    if number >= WORKERS_MAX {
        return Ok(Did::Idle);
    }
    let Some(worker) = workers.get_mut(&number) else {
        return Ok(Did::Idle);
    };
    let Some(proposal) = worker.choice() else {
        return Ok(Did::Idle);
    };
    let verdict = tried(proposal, cluster, events)?;
    worker.conclude(verdict);
    Ok(Did::Done)
}

/// Tries a proposal, and appends the event of what was made. `NoMemory` comes only where it is admissible, and changes nothing.
fn tried(
    proposal: Proposal<RESOURCES>,
    cluster: &mut Cluster<RESOURCES>,
    events: &mut Vec<Event<RESOURCES>>,
) -> Result<Verdict<RESOURCES>, NoMemory>
    ensures ok { IfOk result (λ verdict. IsTried proposal cluster.old.flat cluster.new.flat
        events.old.items events.new.items verdict) }
    ensures admissible { OnErr result (IsAdmissible (sight_of cluster.old.flat) proposal) }
    ensures cluster { OnErr result (cluster.new.flat ≡ cluster.old.flat) }
    ensures events { OnErr result (events.new.items ≡ events.old.items) }
{
    if events.reserve(1).is_err() {
        return match cluster.reason(&proposal) {
            Some(reason) => Ok(Verdict::Rejected(reason)),
            None => Err(NoMemory),
        };
    }
    let verdict = cluster.try_commit(proposal)?;
    append(&verdict, events);
    Ok(verdict)
}

/// Appends the event of a verdict, if it has one, for which there is room.
fn append(verdict: &Verdict<RESOURCES>, events: &mut Vec<Event<RESOURCES>>)
    requires room { vec_len events.old < vec_capacity events.old }
    requires made { IsOfProposal verdict.now }
    ensures { events.new.items ≡ events.old.items ++ made_by verdict.now }
{
    let event = match verdict {
        Verdict::Done(Event::Grant { container }) => Event::Grant {
            container: *container,
        },
        Verdict::Done(Event::Reserve { reservation }) => Event::Reserve {
            reservation: *reservation,
        },
        Verdict::Done(Event::Call { .. }) => unreachable!(),
        Verdict::Rejected(_) => return,
    };
    let Ok(()) = events.push(event) else {
        unreachable!()
    };
}
