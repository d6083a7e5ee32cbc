//! Tests of proposals that no worker makes: the first reason to reject each, and what is changed where it is made.

use cap_base::RESOURCES;
use cap_commit::{Cluster, Proposal, ProposalKind, Reason, Verdict};
use cap_model::Key;
use cap_testing::{Call, SMALL_QUEUES, WantedContainers, cluster_after, make_call};
use cap_vector::Resource;
use std::alloc::Global;

/// One container wanted anywhere.
const ONE: WantedContainers<'static> = WantedContainers {
    priority: 1,
    request: 0,
    count: 1,
    resource: [1024, 1, 0],
    place: b"*",
};

const ASKS_OF_1: &[WantedContainers<'static>] = &[
    ONE,
    WantedContainers {
        priority: 2,
        resource: [3072, 1, 0],
        ..ONE
    },
    WantedContainers {
        priority: 3,
        place: b"n2",
        ..ONE
    },
];

const ASKS_OF_2: &[WantedContainers<'static>] = &[
    WantedContainers {
        resource: [3072, 1, 0],
        ..ONE
    },
    WantedContainers {
        priority: 2,
        resource: [2048, 1, 0],
        place: b"/r2",
        ..ONE
    },
    WantedContainers {
        priority: 3,
        place: b"n1",
        ..ONE
    },
];

/// Application 1 in `root.a` and application 2 in `root.b` with their asks, application 3 without a master, and two nodes, of
/// (8192, 8) on the rack `/r1` and of (1024, 1) on `/r2`.
const CALLS: [Call<'static>; 9] = [
    Call::Submit(b"root.a", b"u1"),
    Call::Submit(b"root.b", b"u2"),
    Call::Submit(b"root.a", b"u3"),
    Call::RegisterMaster(1),
    Call::Allocate(1, 0, ASKS_OF_1, &[]),
    Call::RegisterMaster(2),
    Call::Allocate(2, 0, ASKS_OF_2, &[]),
    Call::RegisterNode(b"n1", b"/r1", [8192, 8, 0]),
    Call::RegisterNode(b"n2", b"/r2", [1024, 1, 0]),
];

/// A proposal for the ask of an application and priority on a node.
fn proposal(
    kind: ProposalKind,
    of: (u64, u32, u64),
    resource: [u64; RESOURCES],
) -> Option<Proposal<RESOURCES>> {
    let (app, priority, node) = of;
    Some(Proposal {
        kind,
        app,
        key: Key {
            priority,
            request: 0,
        },
        node,
        resource: Resource::new(resource)?,
    })
}

/// Why a proposal is rejected, if it is, in the cluster of these property lines after these calls.
fn reason(
    alloc: Global,
    before: (&[u8], &[Call<'_>]),
    kind: ProposalKind,
    of: (u64, u32, u64),
    resource: [u64; RESOURCES],
) -> Option<Option<Reason>> {
    let (lines, calls) = before;
    let proposal = proposal(kind, of, resource)?;
    let cluster = cluster_after(alloc, lines, calls)?;
    Some(cluster.reason(&proposal))
}

const GRANT: ProposalKind = ProposalKind::Grant;

const RESERVE: ProposalKind = ProposalKind::Reserve;

/// A proposal for the ask of an application and priority on a node, and why it is rejected, if it is.
const REASONS: [(
    ProposalKind,
    (u64, u32, u64),
    [u64; RESOURCES],
    Option<Reason>,
); 19] = [
    (GRANT, (1, 1, 1), [1024, 1, 0], None),
    (GRANT, (1, 1, 2), [1024, 1, 0], None),
    (GRANT, (1, 3, 2), [1024, 1, 0], None),
    (GRANT, (3, 1, 1), [1024, 1, 0], Some(Reason::NoApp)),
    (GRANT, (9, 9, 9), [1, 1, 0], Some(Reason::NoApp)),
    (GRANT, (1, 9, 9), [1, 1, 0], Some(Reason::NoAsk)),
    (GRANT, (1, 1, 9), [2048, 1, 0], Some(Reason::OtherAsk)),
    (GRANT, (1, 1, 3), [1024, 1, 0], Some(Reason::NoNode)),
    (GRANT, (1, 3, 9), [1024, 1, 0], Some(Reason::NoNode)),
    (GRANT, (1, 3, 1), [1024, 1, 0], Some(Reason::WrongPlace)),
    (GRANT, (2, 2, 1), [2048, 1, 0], Some(Reason::WrongPlace)),
    (GRANT, (2, 2, 2), [2048, 1, 0], Some(Reason::NoRoom)),
    (GRANT, (1, 2, 2), [3072, 1, 0], Some(Reason::NoRoom)),
    (
        GRANT,
        (1, 2, 1),
        [3072, 1, 0],
        Some(Reason::OverMaximum { level: 1 }),
    ),
    (GRANT, (2, 1, 1), [3072, 1, 0], Some(Reason::OverUser)),
    (
        RESERVE,
        (1, 2, 1),
        [3072, 1, 0],
        Some(Reason::OverMaximum { level: 1 }),
    ),
    (RESERVE, (2, 1, 1), [3072, 1, 0], Some(Reason::OverUser)),
    (RESERVE, (1, 1, 1), [1024, 1, 0], Some(Reason::FitsNow)),
    (RESERVE, (2, 2, 2), [2048, 1, 0], Some(Reason::NeverFits)),
];

#[test]
fn proposals_are_rejected_for_the_first_reason(rt: HostRuntime) {
    for &(kind, of, resource, answer) in &REASONS {
        let given = reason(rt.alloc(), (SMALL_QUEUES, &CALLS), kind, of, resource);
        assert!(rt; given == Some(answer), "{kind:?} {of:?}");
    }
}

/// The same queues with GPUs.
const GPU_QUEUES: &[u8] = b"yarn.scheduler.capacity.root.queues=a,b
yarn.scheduler.capacity.root.a.capacity=[memory=1024,vcores=1,yarn.io/gpu=1]
yarn.scheduler.capacity.root.a.maximum-capacity=[memory=2048,vcores=2,yarn.io/gpu=2]
yarn.scheduler.capacity.root.b.capacity=[memory=2048,vcores=8,yarn.io/gpu=1]
";

/// A container with a GPU, wanted anywhere.
const WITH_GPU: &[WantedContainers<'static>] = &[WantedContainers {
    resource: [1024, 1, 1],
    ..ONE
}];

/// Application 1 in `root.a` and application 2 in `root.b` ask for it, and there are two nodes, with two GPUs and with none.
const GPU_CALLS: [Call<'static>; 8] = [
    Call::Submit(b"root.a", b"u1"),
    Call::Submit(b"root.b", b"u2"),
    Call::RegisterMaster(1),
    Call::Allocate(1, 0, WITH_GPU, &[]),
    Call::RegisterMaster(2),
    Call::Allocate(2, 0, WITH_GPU, &[]),
    Call::RegisterNode(b"n1", b"/r1", [8192, 8, 2]),
    Call::RegisterNode(b"n2", b"/r1", [8192, 8, 0]),
];

/// Settings, a proposal of it for an application on a node, and why it is rejected, if it is.
const GPU_REASONS: [(&[u8], ProposalKind, u64, u64, Option<Reason>); 7] = [
    (
        SMALL_QUEUES,
        GRANT,
        1,
        1,
        Some(Reason::OverMaximum { level: 1 }),
    ),
    (SMALL_QUEUES, GRANT, 2, 1, Some(Reason::OverUser)),
    (SMALL_QUEUES, GRANT, 1, 2, Some(Reason::NoRoom)),
    (GPU_QUEUES, GRANT, 1, 1, None),
    (GPU_QUEUES, GRANT, 2, 1, None),
    (GPU_QUEUES, GRANT, 1, 2, Some(Reason::NoRoom)),
    (GPU_QUEUES, RESERVE, 1, 2, Some(Reason::NeverFits)),
];

#[test]
fn settings_without_gpus_give_none_away(rt: HostRuntime) {
    for &(lines, kind, app, node, answer) in &GPU_REASONS {
        let of = (app, 1, node);
        let given = reason(rt.alloc(), (lines, &GPU_CALLS), kind, of, [1024, 1, 1]);
        assert!(rt; given == Some(answer), "{kind:?} {of:?}");
    }
}

/// What is done to the cluster: a proposal of a kind for an ask of application and priority on a node, or a call.
#[derive(Clone, Copy)]
enum Change {
    Grant(u64, u32, u64, [u64; RESOURCES]),
    Reserve(u64, u32, u64, [u64; RESOURCES]),
    Call(Call<'static>),
}

/// Why a proposal that was tried was rejected, if it was.
fn tried(
    cluster: &mut Cluster<RESOURCES>,
    proposal: Proposal<RESOURCES>,
) -> Option<Option<Reason>> {
    match cluster.try_commit(proposal).ok()? {
        Verdict::Done(_) => Some(None),
        Verdict::Rejected(reason) => Some(Some(reason)),
    }
}

fn make(alloc: Global, cluster: &mut Cluster<RESOURCES>, change: Change) -> Option<Option<Reason>> {
    let (kind, of, resource) = match change {
        Change::Grant(app, priority, node, resource) => {
            (ProposalKind::Grant, (app, priority, node), resource)
        }
        Change::Reserve(app, priority, node, resource) => {
            (ProposalKind::Reserve, (app, priority, node), resource)
        }
        Change::Call(call) => {
            make_call(alloc, cluster, &call)?;
            return Some(None);
        }
    };
    tried(cluster, proposal(kind, of, resource)?)
}

/// Why the last change was rejected, if it was; how many containers are live and how many reservations there are; and what `root.a` uses.
type After = (Option<Reason>, usize, usize, [u64; RESOURCES]);

/// After these changes.
fn after(alloc: Global, changes: &[Change]) -> Option<After> {
    let mut cluster = cluster_after(alloc, SMALL_QUEUES, &CALLS)?;
    after_in(alloc, &mut cluster, changes)
}

fn after_in(alloc: Global, cluster: &mut Cluster<RESOURCES>, changes: &[Change]) -> Option<After> {
    let mut last = None;
    for change in changes {
        last = make(alloc, cluster, *change)?;
    }
    let used = cluster.report(b"root.a")?.used.amounts();
    let nodes = cluster.nodes();
    Some((last, nodes.live_count(), nodes.reservation_count(), used))
}

const FIRST: Change = Change::Grant(1, 1, 2, [1024, 1, 0]);

const KEPT: Change = Change::Reserve(1, 3, 2, [1024, 1, 0]);

const RELEASE: Change = Change::Call(Call::Allocate(1, 1, &[], &[1]));

const CONVERTED: Change = Change::Grant(1, 3, 2, [1024, 1, 0]);

const OTHER: Change = Change::Grant(2, 2, 2, [2048, 1, 0]);

const MISPLACED: Change = Change::Grant(2, 3, 2, [1024, 1, 0]);

const SECOND: Change = Change::Reserve(1, 2, 2, [3072, 1, 0]);

/// Changes, and what is so after them.
const CHANGES: [(&[Change], After); 10] = [
    (&[FIRST], (None, 1, 0, [1024, 1, 0])),
    (&[FIRST, FIRST], (Some(Reason::NoAsk), 1, 0, [1024, 1, 0])),
    (&[FIRST, KEPT], (None, 1, 1, [2048, 2, 0])),
    (
        &[FIRST, KEPT, KEPT],
        (Some(Reason::NoAsk), 1, 1, [2048, 2, 0]),
    ),
    (
        &[FIRST, KEPT, CONVERTED],
        (Some(Reason::NoRoom), 1, 1, [2048, 2, 0]),
    ),
    (
        &[FIRST, KEPT, OTHER],
        (Some(Reason::ReservedByOther), 1, 1, [2048, 2, 0]),
    ),
    (
        &[FIRST, KEPT, MISPLACED],
        (Some(Reason::WrongPlace), 1, 1, [2048, 2, 0]),
    ),
    (
        &[FIRST, KEPT, SECOND],
        (Some(Reason::ReservedByOther), 1, 1, [2048, 2, 0]),
    ),
    (&[FIRST, KEPT, RELEASE], (None, 0, 1, [1024, 1, 0])),
    (
        &[FIRST, KEPT, RELEASE, CONVERTED],
        (None, 1, 0, [1024, 1, 0]),
    ),
];

#[test]
fn a_proposal_is_made_or_changes_nothing(rt: HostRuntime) {
    for &(changes, answer) in &CHANGES {
        assert!(rt; after(rt.alloc(), changes) == Some(answer));
    }
}
