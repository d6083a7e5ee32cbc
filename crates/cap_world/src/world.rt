//! Connections and workers over one cluster, and one step on them (`World`).
ghost use Rattle.std.specs.Prelude.{◌≡◌, IfOk, option_map};
ghost use Rattle.cap_model.specs.Bounds.{IsBounded};
ghost use Rattle.cap_model.specs.Flat.{opened_cluster};
ghost use Rattle.cap_world.specs.World.{Adds, IsWorld, start, is_open, output_of, choice_of, verdict_of};
ghost use Rattle.cap_world.specs.Steps.{StepOutcome};
ghost use Rattle.cap_world.specs.Once.{StaysBounded, HappensOnce};
ghost use Rattle.cap_world.specs.Laws.{KeepsPromises};

use crate::connections::{self, Connections};
use crate::step::{Did, Step};
use crate::workers::{self, Workers};
use cap_base::RESOURCES;
use cap_commit::Cluster;
use cap_model::{Config, Event, NoMemory, Proposal, Verdict};
use http_server::Log;
use std::alloc::Global;
use std::marker::Model;

/// Connections and workers over one cluster. Contracts see its opening cluster, its events, the cluster now, each connection ever
/// opened with the bytes that it took and was answered, and each worker that ever copied the cluster with its snapshot, its
/// proposal and its last verdict.
pub struct World {
    alloc: Global,
    cluster: Cluster<RESOURCES>,
    connections: Connections,
    workers: Workers,
    // These two exist for contracts alone.
    opening: Log<Cluster<RESOURCES>, usize>,
    events: Log<Vec<Event<RESOURCES>>, usize>,
}

impl Drop for World {
    fn drop(self) {
        let World {
            alloc: _,
            cluster: _,
            connections: _,
            workers: _,
            opening: _,
            events: _,
        } = self;
    }
}

impl Model for World {
    ghost use Rattle.std.specs.Coded.{codes};
    ghost use Rattle.cap_tree.specs.Queue.{users_code};
    ghost use Rattle.cap_world.specs.World.{Known, IsLawful, events_of, opening_of};

    ghost Value = { Known };

    ghost coded = { Prim.hlevel (codes, users_code) };

    ghost view = { λ w. record { opening = opening_of w.opening.items; events = events_of w.events.items; sight = record { cluster = w.cluster.flat; connections = w.connections.entries; workers = w.workers.entries } } };

    ghost invariant = { λ w. IsLawful (opening_of w.opening.items) (events_of w.events.items) (record { cluster = w.cluster.flat; connections = w.connections.entries; workers = w.workers.entries }) };
}

impl World {
    /// A world with no connection and no worker's copy over the cluster. It takes no memory.
    pub fn open(alloc: Global, cluster: Cluster<RESOURCES>) -> World
        ensures { result ≡ start cluster.flat }
    {
        let opening = Log::new().and(&cluster, &0);
        World {
            alloc,
            cluster,
            connections: Connections::new(alloc),
            workers: Workers::new(alloc),
            opening,
            events: Log::new(),
        }
    }

    /// The world over the cluster that settings open. Whatever steps it makes, of which memory may be refused to some, have the
    /// headline, every state is bounded, and each container is granted, ended and reported once.
    pub fn from_config(alloc: Global, config: &Config<RESOURCES>) -> Result<World, NoMemory>
        ensures opened { IfOk result (λ world. world ≡ start (opened_cluster config.now)) }
        ensures promised { KeepsPromises (opened_cluster config.now) }
    {
        // The queues of settings are listed: for that the cluster is bounded.
        let _listed = config.queues();
        match Cluster::from_config(alloc, config) {
            Ok(cluster) => Ok(World::open(alloc, cluster)),
            Err(NoMemory) => Err(NoMemory),
        }
    }

    /// The cluster.
    pub fn cluster(&self) -> &Cluster<RESOURCES>
        ensures { result.now.flat ≡ self.now.sight.cluster }
    {
        &self.cluster
    }

    /// Whether the connection of this number is open: it was opened, and neither its end, nor a length that no frame has, nor
    /// an allocation has failed on it.
    pub fn is_open(&self, number: u32) -> bool
        ensures { result ≡ is_open number self.now.sight }
    {
        connections::is_open(&self.connections, number)
    }

    /// All bytes ever answered on the connection of this number, kept for good.
    pub fn output(&self, number: u32) -> &[u8]
        ensures { result.now ≡ output_of number self.now.sight }
    {
        connections::output(&self.connections, number)
    }

    /// Both of the connection of this number: all bytes ever answered on it, and whether it is open.
    pub fn answers(&self, number: u32) -> (&[u8], bool)
        ensures output { result.0.now ≡ output_of number self.now.sight }
        ensures open { result.1 ≡ is_open number self.now.sight }
    {
        connections::answers(&self.connections, number)
    }

    /// The proposal of the worker of this number: what it chose last, if it neither copied the cluster nor committed
    /// since.
    pub fn choice(&self, worker: u32) -> Option<Proposal<RESOURCES>>
        ensures { result ≡ choice_of worker self.now.sight }
    {
        workers::choice(&self.workers, worker)
    }

    /// What the last commit of the worker of this number came to: an event, or the reason of a rejection.
    pub fn verdict(&self, worker: u32) -> Option<&Verdict<RESOURCES>>
        ensures { option_map (λ verdict. verdict.now) result ≡ verdict_of worker self.now.sight }
    {
        workers::verdict(&self.workers, worker)
    }

    /// Makes one step, and appends its events to the list as they are made. A step that does not apply is `Idle` and changes
    /// nothing. `NoMemory` leaves the world as it was and appends nothing; but in `Bytes` the connection has then ended, and the
    /// requests before the refusal were answered and their events appended. A `Propose` takes no memory, nor does the `Commit` of
    /// a proposal that is rejected.
    pub fn step(&mut self, step: Step, events: &mut Vec<Event<RESOURCES>>) -> Result<Did, NoMemory>
        ensures outcome { StepOutcome step.entry result self.old.sight self.new.sight
            events.old.items events.new.items }
        ensures adds { Adds self.old self.new events.old.items events.new.items }
        ensures headline { IsWorld self.new }
        ensures bounded { IsBounded self.new.opening
            → StaysBounded self.new.opening self.new.events self.new.sight.cluster }
        ensures once { IsBounded self.new.opening
            → HappensOnce self.new.opening self.new.events self.new.sight.cluster }
    {
        let held = events.as_slice().len();
        let result = act(
            self.alloc,
            &mut self.cluster,
            &mut self.connections,
            &mut self.workers,
            step,
            events,
        );
        self.events = self.events.and(events, &held);
        result
    }
}

/// The step on the parts of a world.
fn act(
    alloc: Global,
    cluster: &mut Cluster<RESOURCES>,
    connections: &mut Connections,
    workers: &mut Workers,
    step: Step,
    events: &mut Vec<Event<RESOURCES>>,
) -> Result<Did, NoMemory>
    ensures { StepOutcome step.entry result
        (record {
          cluster = cluster.old.flat;
          connections = connections.old.entries;
          workers = workers.old.entries;
        })
        (record {
          cluster = cluster.new.flat;
          connections = connections.new.entries;
          workers = workers.new.entries;
        })
        events.old.items events.new.items }
{
    match step {
        Step::Open(c) => connections::open(alloc, connections, c),
        Step::Bytes(c, piece) => connections::feed(alloc, connections, c, piece, cluster, events),
        Step::End(c) => Ok(connections::end(connections, c)),
        Step::Copy(w) => workers::copy(alloc, workers, w, cluster),
        Step::Propose(w, start) => Ok(workers::propose(workers, w, start)),
        Step::Commit(w) => workers::commit(workers, w, cluster, events),
    }
}
