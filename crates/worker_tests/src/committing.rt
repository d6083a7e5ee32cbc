//! Workers put what they choose into lanes, and the committer commits it: what came of that, and what the journal has.
ghost use Rattle.std.specs.Prelude.{◌≡◌, ◌≤◌, ◌+◌, Some, IfSome};
ghost use Rattle.cap_workers.specs.Idle.{AllAre};

use crate::epochs::call_all;
use cap_base::RESOURCES;
use cap_commit::Cluster;
use cap_config::read_config;
use cap_shared::{Blank, Seat, Shared};
use cap_testing::{Call, TWO_QUEUES, WantedContainers};
use cap_workers::{
    BegunEpoch, BlankLanes, Coordinator, IdleWorker, LaneNaming, OpenGate, Scheduler, Seeing,
    Tally, Worker, begin_epoch, commit_all,
};
use std::alloc::Global;
use std::marker::Brand;
use std::sync::Wait;
use std::test::*;

/// How many calls are made before the workers offer.
const CALLS: usize = 5;

/// How much is offered, and how much of it there is.
#[derive(Clone, Copy)]
struct Row {
    /// How often each of two workers offers.
    offers: usize,
    /// How many containers are asked for.
    count: u32,
    /// How many entries the journal has at most beside those of the calls.
    entries: usize,
}

/// How many proposals were made and rejected, and how many entries the journal has beside those of the calls.
#[derive(Clone, Copy, PartialEq, Eq)]
struct Came {
    made: u64,
    rejected: u64,
    entries: usize,
}

/// What an epoch of a caller, the committer and two workers is opened with.
#[derive(Drop)]
struct Opened {
    blank: Blank,
    lanes: BlankLanes,
    cluster: Cluster<RESOURCES>,
    workers: [IdleWorker; 2],
}

fn open(alloc: Global) -> Option<Opened>
    ensures seats { IfSome result (λ o. o.blank.1 ≡ 4) }
    ensures same { IfSome result (λ o. AllAre o.cluster.flat o.workers) }
{
    let config = read_config(alloc, TWO_QUEUES).ok()?;
    let (Ok(cluster), Ok(first), Ok(second)) = (
        Cluster::from_config(alloc, &config),
        Cluster::from_config(alloc, &config),
        Cluster::from_config(alloc, &config),
    ) else {
        return None;
    };
    let (Ok(blank), Ok(lanes)) = (Blank::new(alloc, 4), BlankLanes::new(alloc, 18)) else {
        return None;
    };
    let workers = [
        IdleWorker {
            worker: Worker::new(0),
            cluster: Some(first),
        },
        IdleWorker {
            worker: Worker::new(1),
            cluster: Some(second),
        },
    ];
    Some(Opened {
        blank,
        lanes,
        cluster,
        workers,
    })
}

/// Two nodes, and an application that asks for so many containers of (1024, 1), anywhere.
fn ask<J: LaneNaming, H: Wait>(
    rt: &H,
    alloc: Global,
    shared: &Shared<J>,
    caller: &mut Seat<J>,
    count: u32,
) -> Option<()> {
    let asks = [WantedContainers {
        priority: 1,
        request: 0,
        count,
        resource: [1024, 1, 0],
        place: b"*",
    }];
    let calls = [
        Call::Submit(b"root.a", b"u1"),
        Call::RegisterMaster(1),
        Call::Allocate(1, 0, &asks, &[]),
        Call::RegisterNode(b"n1", b"/r1", [8192, 8, 0]),
        Call::RegisterNode(b"n2", b"/r1", [8192, 8, 0]),
    ];
    call_all(rt, alloc, shared, caller, &calls)
}

/// Offers so often, and ends the lane: how often. `None` if the worker has none, or sees the cluster by copies.
fn offer<J: LaneNaming, H: Wait>(
    rt: &H,
    shared: &Shared<J>,
    scheduler: Scheduler<J>,
    offers: usize,
) -> Option<usize> {
    let (mut worker, seeing, lane) = scheduler.into_parts();
    let Seeing::Following(mut follower) = seeing else {
        return None;
    };
    let mut putter = lane?.into_putter();
    for _ in 0..offers {
        let _end = worker.follow_to_lane(rt, shared, &mut follower, &mut putter, &OpenGate);
    }
    let _ended = putter.finish(rt);
    Some(offers)
}

fn played<H: Wait>(rt: &H, alloc: Global, row: Row) -> Option<Came> {
    if row.entries > 100 {
        return None;
    }
    play_under_name::<Brand, H>(rt, alloc, open(alloc)?, row)
}

/// The same under a name. All was offered before the committer begins.
fn play_under_name<J: LaneNaming, H: Wait>(
    rt: &H,
    alloc: Global,
    opened: Opened,
    row: Row,
) -> Option<Came>
    requires named { opened.blank.0 ≡ J.table }
    requires lanes { Some opened.lanes ≡ J.lanes }
    requires opening { opened.cluster.flat ≡ J.opening }
    requires same { AllAre J.opening opened.workers }
    requires limit { row.entries + 5 ≡ J.limit }
    requires few { row.entries ≤ 100 }
    requires seats { opened.blank.1 ≡ J.seats }
    requires count { 4 ≡ J.seats }
{
    let Opened {
        blank,
        lanes,
        cluster,
        workers,
    } = opened;
    let limit = row.entries + CALLS;
    let Ok((shared, mut seats)) = Shared::<J>::open(alloc, blank, cluster, limit) else {
        return None;
    };
    let Ok(workers) = Vec::from_array(alloc, workers) else {
        return None;
    };
    let begun = begin_epoch(rt, alloc, workers, &mut seats, Some(lanes));
    let Ok(
        BegunEpoch {
            schedulers,
            lanes,
            ..
        },
    ) = begun
    else {
        return None;
    };
    let mut caller = seats.pop()?;
    ask(rt, alloc, &shared, &mut caller, row.count)?;
    for scheduler in schedulers {
        offer(rt, &shared, scheduler, row.offers)?;
    }
    let (coordinator, tally) = (Coordinator::new(), Tally::new());
    let _lanes = commit_all(rt, &shared, &coordinator, &tally, lanes?)?;
    Some(Came {
        made: tally.made(),
        rejected: tally.rejected(),
        entries: shared.entries().saturating_sub(CALLS),
    })
}

/// Two workers choose what was not committed yet: of the last container that is asked for the second proposal is rejected. What is taken once the journal is
/// full is not made.
#[test]
fn the_committer_commits_each_proposal_that_it_takes(rt: HostRuntime) {
    let rows = [
        ((1, 2, 100), (2, 0, 2)),
        ((1, 1, 100), (1, 1, 1)),
        ((1, 2, 1), (1, 0, 1)),
        ((5, 10, 100), (10, 0, 10)),
        ((5, 9, 100), (9, 1, 9)),
    ];
    for &((offers, count, entries), (made, rejected, made_entries)) in &rows {
        let row = Row {
            offers,
            count,
            entries,
        };
        let want = Came {
            made,
            rejected,
            entries: made_entries,
        };
        assert!(rt;
            played(&rt, rt.alloc(), row) == Some(want),
            "{offers} offers, {count} containers, {entries} entries"
        );
    }
}
