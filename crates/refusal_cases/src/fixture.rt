//! Steps on a cluster, and what comes of one where memory is short.
use crate::table::{Before, done};
use cap_base::RESOURCES;
use cap_commit::Cluster;
use cap_config::read_config;
use cap_messages::{dispatch, read_request};
use cap_model::{
    Config, Event, Key, Proposal, ProposalKind, Reason, Refusal, Reply, ReplyWith, Request, Verdict,
};
use cap_testing::{Call, WantedContainers, are_alike, cluster, frame, make_call, report_alike};
use cap_vector::Resource;
use memory_testing::{Came, Hoard};
use std::alloc::Global;

/// A call, or a proposal for an application's ask of a priority and a request id on a node.
#[derive(Clone, Copy)]
pub enum Step {
    Call(Call<'static>),
    Grant(u64, (u32, u64), u64, [u64; 2]),
    Reserve(u64, (u32, u64), u64, [u64; 2]),
    /// An Allocate of an application with a response id: one container of (1024, 1) anywhere for each of so many keys.
    AskForKeys(u64, u32, u64),
    /// So many registrations, each of a node of (1, 1) with a host of its own.
    Nodes(u32),
    /// The settings of these property lines are set, where their queues are the cluster's.
    Settings(&'static [u8]),
}

/// What a step is answered: a status, why a proposal is rejected, or numbers. These are the new application or node; the least and the
/// most that a container may have; response id, ignored, grants and ends of an Allocate; response id, ignored and live of a Heartbeat; how
/// many containers ended; whether a queue runs, whether it is a leaf and what it uses; nodes, applications, containers and MiB used of a
/// cluster; the new container, 0 for a reservation, and what is used then; or whether settings were set, and how many applications may be active.
#[derive(Clone, Copy, PartialEq, Eq)]
pub enum Answered {
    Status(u8),
    Rejected(Reason),
    Numbers([u64; 4]),
    NoMemory,
}

/// A step that is made after others, and what it is answered.
pub type Row = (Before, Step, Answered);

/// A step of which all is made that takes memory.
#[derive(Drop)]
enum Given {
    Request(Request<RESOURCES>),
    Proposal(Proposal<RESOURCES>),
    Settings(Config<RESOURCES>),
}

/// A proposal for an application, a key and a node.
pub fn proposal(
    kind: ProposalKind,
    of: (u64, (u32, u64), u64),
    resource: [u64; 2],
) -> Option<Proposal<RESOURCES>> {
    let (app, (priority, request), node) = of;
    let [memory, vcores] = resource;
    Some(Proposal {
        kind,
        app,
        key: Key { priority, request },
        node,
        resource: Resource::new([memory, vcores, 0])?,
    })
}

/// A call as the engine reads it.
pub fn request(alloc: Global, call: &Call<'_>) -> Option<Request<RESOURCES>> {
    let bytes = frame(alloc, 2, 1, call).ok()?;
    let (_, request) = read_request(alloc, bytes.get(4..)?).ok()?;
    Some(request)
}

fn ask_for_keys(alloc: Global, app: u64, response: u32, count: u64) -> Option<Request<RESOURCES>> {
    let mut asks = Vec::new(alloc);
    for request in 0..count {
        asks.push(WantedContainers {
            priority: 7,
            request,
            count: 1,
            resource: [1024, 1, 0],
            place: b"*",
        })
        .ok()?;
    }
    request(alloc, &Call::Allocate(app, response, &asks, &[]))
}

fn prepared(alloc: Global, step: Step) -> Option<Given> {
    let request = match step {
        Step::Call(call) => request(alloc, &call),
        Step::AskForKeys(app, response, count) => ask_for_keys(alloc, app, response, count),
        Step::Nodes(_) => None,
        Step::Settings(lines) => return Some(Given::Settings(read_config(alloc, lines).ok()?)),
        Step::Grant(app, key, node, resource) => {
            let grant = proposal(ProposalKind::Grant, (app, key, node), resource)?;
            return Some(Given::Proposal(grant));
        }
        Step::Reserve(app, key, node, resource) => {
            let reserve = proposal(ProposalKind::Reserve, (app, key, node), resource)?;
            return Some(Given::Proposal(reserve));
        }
    };
    match request {
        Some(request) => Some(Given::Request(request)),
        None => None,
    }
}

fn answer_of(reply: &Reply<RESOURCES>) -> Answered {
    Answered::Numbers(match reply {
        ReplyWith::Refused(Refusal::NoMemory) => return Answered::NoMemory,
        ReplyWith::Refused(refusal) => return Answered::Status(refusal.status()),
        ReplyWith::Submit { app } => [*app, 0, 0, 0],
        ReplyWith::RegisterMaster { minimum, maximum } => {
            let ([least, few, _], [most, many, _]) = (minimum.amounts(), maximum.amounts());
            [least, few, most, many]
        }
        ReplyWith::Allocate { reply } => {
            let told = reply.reported;
            [
                u64::from(told.response),
                u64::from(told.ignored),
                told.grants as u64,
                told.ends as u64,
            ]
        }
        ReplyWith::RegisterNode { node } => [*node, 0, 0, 0],
        ReplyWith::Heartbeat { reply } => [
            u64::from(reply.response),
            u64::from(reply.ignored),
            u64::from(reply.live),
            0,
        ],
        ReplyWith::FinishMaster { ended } | ReplyWith::NodeGone { ended } => {
            [u64::from(*ended), 0, 0, 0]
        }
        ReplyWith::QueueInfo { report } => {
            let [memory, vcores, _] = report.used.amounts();
            [report.running as u64, report.leaf as u64, memory, vcores]
        }
        ReplyWith::SetQueueState | ReplyWith::Refresh => [0, 0, 0, 0],
        ReplyWith::ClusterInfo { report } => {
            let [memory, ..] = report.used.amounts();
            [
                u64::from(report.nodes),
                u64::from(report.apps),
                u64::from(report.containers),
                memory,
            ]
        }
    })
}

fn tried(cluster: &mut Cluster<RESOURCES>, proposal: Proposal<RESOURCES>) -> Answered {
    let Ok(verdict) = cluster.try_commit(proposal) else {
        return Answered::NoMemory;
    };
    let number = match &verdict {
        Verdict::Rejected(reason) => return Answered::Rejected(*reason),
        Verdict::Done(Event::Grant { container }) => container.number,
        Verdict::Done(_) => 0,
    };
    let [memory, vcores, _] = cluster.root_use().amounts();
    Answered::Numbers([number, memory, vcores, 0])
}

/// Sets settings, where their queues are the cluster's.
fn set(cluster: &mut Cluster<RESOURCES>, config: &Config<RESOURCES>) -> Answered {
    let is_same = cluster.tree().same_paths(config);
    if is_same {
        cluster.set_settings(config);
    }
    let limit = cluster.settings().application_limit;
    Answered::Numbers([is_same as u64, limit, 0, 0])
}

fn made(alloc: Global, cluster: &mut Cluster<RESOURCES>, given: &Given) -> Answered {
    match given {
        Given::Request(request) => answer_of(&dispatch(alloc, cluster, request)),
        Given::Proposal(proposal) => tried(cluster, *proposal),
        Given::Settings(config) => set(cluster, config),
    }
}

/// Registers a node of (1, 1).
fn make_node(alloc: Global, cluster: &mut Cluster<RESOURCES>, number: u32) -> Option<()> {
    let mut host = String::new(alloc);
    write!(host, "m{number}").ok()?;
    make_call(
        alloc,
        cluster,
        &Call::RegisterNode(host.as_bytes(), b"/r1", [1, 1, 0]),
    )
}

/// Registers so many.
fn make_nodes(alloc: Global, cluster: &mut Cluster<RESOURCES>, count: u32) -> Option<()> {
    for number in 0..count {
        make_node(alloc, cluster, number)?;
    }
    Some(())
}

/// Makes a step. `None` if it is refused or rejected.
fn make_step(alloc: Global, cluster: &mut Cluster<RESOURCES>, step: Step) -> Option<()> {
    if let Step::Nodes(count) = step {
        return make_nodes(alloc, cluster, count);
    }
    let given = prepared(alloc, step)?;
    match made(alloc, cluster, &given) {
        Answered::Numbers(_) => Some(()),
        _ => None,
    }
}

fn make_all(alloc: Global, cluster: &mut Cluster<RESOURCES>, steps: &[Step]) -> Option<()> {
    for step in steps {
        make_step(alloc, cluster, *step)?;
    }
    Some(())
}

/// The cluster after these steps. `None` if one is refused or rejected, or an allocation fails.
pub fn cluster_after(alloc: Global, before: Before) -> Option<Cluster<RESOURCES>> {
    let (lines, steps) = done(before);
    let mut cluster = cluster(alloc, lines)?;
    match make_all(alloc, &mut cluster, steps) {
        Some(()) => Some(cluster),
        None => None,
    }
}

/// What came of something that was refused or done at first, and of which this is so now.
pub fn came_of(was_refused: bool, is_so: bool) -> Came {
    match (was_refused, is_so) {
        (true, true) => Came::Refused,
        (false, true) => Came::Done,
        _ => Came::Other,
    }
}

/// A step that is to be made, the cluster on which it is made, and another one that is as that was.
#[derive(Drop)]
struct Trial {
    cluster: Cluster<RESOURCES>,
    twin: Cluster<RESOURCES>,
    given: Given,
    answer: Answered,
}

fn prepared_trial(alloc: Global, row: Row) -> Option<Trial> {
    let (before, step, answer) = row;
    Some(Trial {
        cluster: cluster_after(alloc, before)?,
        twin: cluster_after(alloc, before)?,
        given: prepared(alloc, step)?,
        answer,
    })
}

impl Trial {
    /// Makes the step on the twin too: whether that is answered, and both clusters are then alike and report the same.
    fn ends_alike(&mut self, alloc: Global) -> bool {
        let answer = match made(alloc, &mut self.twin, &self.given) {
            Answered::NoMemory => made(alloc, &mut self.twin, &self.given),
            answer => answer,
        };
        answer == self.answer
            && are_alike(&self.cluster, &self.twin)
            && report_alike(alloc, &mut self.cluster, &mut self.twin)
    }

    /// What comes of the step where so many bytes are left, and whether all of them still are: a refusal leaves the cluster as it was, and
    /// the step is answered once memory is there again.
    fn came(&mut self, alloc: Global, hoard: &mut Hoard, bytes: usize) -> (Came, bool) {
        hoard.leave(alloc, bytes);
        let first = made(alloc, &mut self.cluster, &self.given);
        let has_left = hoard.has_left(alloc, bytes);
        hoard.give();
        if first != Answered::NoMemory {
            let is_so = first == self.answer && self.ends_alike(alloc);
            return (came_of(false, is_so), has_left);
        }
        let is_as_before = are_alike(&self.cluster, &self.twin);
        let second = made(alloc, &mut self.cluster, &self.given);
        let is_so = is_as_before && second == self.answer && self.ends_alike(alloc);
        (came_of(true, is_so), has_left)
    }
}

/// What comes of a row where so many bytes are left, and whether all of them still are.
fn came_and_left(alloc: Global, hoard: &mut Hoard, bytes: usize, row: Row) -> (Came, bool) {
    match prepared_trial(alloc, row) {
        Some(mut trial) => trial.came(alloc, hoard, bytes),
        None => (Came::Beside, false),
    }
}

/// What comes of a row where so many bytes are left.
pub fn came(alloc: Global, hoard: &mut Hoard, bytes: usize, row: Row) -> Came {
    came_and_left(alloc, hoard, bytes, row).0
}

/// So many bytes are many for one step.
const MANY: usize = 65_536;

/// Whether the row's step is answered where no bytes are left, and takes none of many.
pub fn takes_none(alloc: Global, hoard: &mut Hoard, row: Row) -> bool {
    came(alloc, hoard, 0, row) == Came::Done
        && hoard.is_short()
        && came_and_left(alloc, hoard, MANY, row) == (Came::Done, true)
}
