//! Eight clients make calls of all kinds, and a worker schedules beside them: what its cluster is at the end.
ghost use denote.Param.Send.{IsSend, IsSync};
ghost use Rattle.std.specs.Prelude.{◌≡◌, IfSome};

use crate::clients::{CLIENTS, Called, Course, begin_clients, join_clients, seats_of};
use crate::epochs::{Begun, Opening, begin, open_for};
use cap_shared::{Seat, Shared};
use cap_testing::{are_alike, report_alike};
use cap_workers::{
    Coordinator, Direction, LaneNaming, OpenGate, Scheduled, Scheduler, close_epoch,
};
use std::alloc::Global;
use std::marker::Brand;
use std::sync::Wait;
use std::test::*;
use std::thread::{self, Scope, Threads};
use std::time::Clock;

/// How many entries the journal has at most.
const LIMIT: usize = 1_000_000;

/// Whether the worker's cluster is the shared one, in all that can be seen, and how many entries it has followed.
#[derive(Clone, Copy)]
struct Compared {
    alike: bool,
    entries: usize,
}

/// Closes an epoch, and compares. `None` if a client did not make all its calls, or an allocation fails.
fn close_and_compare<J: LaneNaming, H: Wait>(
    rt: &H,
    alloc: Global,
    shared: Shared<J>,
    called: Vec<Called<J>>,
    scheduled: Scheduled<J>,
) -> Option<Compared>
    requires { 9 ≡ J.seats }
{
    let seats = seats_of(alloc, called)?;
    let Ok(workers) = Vec::from_array(alloc, [scheduled]) else {
        return None;
    };
    if seats.len() != 8 || workers.len() != 1 {
        return None;
    }
    let (mut closed, mut workers) = close_epoch(rt, alloc, shared, seats, workers, None).ok()?;
    let mut own = workers.pop()?.cluster?;
    Some(Compared {
        alike: are_alike(&closed.cluster, &own)
            && report_alike(alloc, &mut closed.cluster, &mut own),
        entries: closed.journal.len(),
    })
}

/// What the clients and the worker of an epoch leave.
#[derive(Drop)]
struct Left<J: LaneNaming> {
    called: Vec<Called<J>>,
    scheduled: Scheduled<J>,
}

/// The clients call, each in a thread of its own, while the worker schedules in this one.
fn work_in<'s, E, J: LaneNaming + Send + Sync, H: Threads + Wait + Clock + Sync>(
    scope: &'s Scope<'s, E>,
    rt: &'s H,
    alloc: Global,
    shared: &'s Shared<J>,
    course: &'s Course,
    seats: Vec<Seat<J>>,
    own: Scheduler<J>,
) -> Option<Left<J>> {
    let threads = begin_clients(scope, rt, alloc, shared, course, seats)?;
    let coordinator = Coordinator::new();
    let direction = Direction {
        coordinator: &coordinator,
        signal: course,
        gate: &OpenGate,
    };
    let scheduled = own.schedule(rt, shared, &direction);
    let called = join_clients(rt, alloc, threads)?;
    Some(Left { called, scheduled })
}

/// The same with the threads' scope. `None` if a thread can't be made, or an allocation fails.
fn play_together<J: LaneNaming + Send + Sync, H: Threads + Wait + Clock + Sync>(
    rt: &H,
    alloc: Global,
    shared: &Shared<J>,
    seats: Vec<Seat<J>>,
    own: Scheduler<J>,
) -> Option<Left<J>> {
    let course = Course::new(0);
    let course = &course;
    thread::scope(
        thread::scope_env(),
        rt,
        move |scope|
            requires { IsSend J.row × IsSync J.row × IsSync H.row }
        { work_in(scope, rt, alloc, shared, course, seats, own) },
    )
}

/// The clients call while the worker schedules, and then the epoch is closed.
fn played<H: Threads + Wait + Clock + Sync>(rt: &H, alloc: Global) -> Option<Compared> {
    let opening = open_for(alloc, CLIENTS)?;
    play_under_name::<Brand, H>(rt, alloc, opening)
}

/// The same under a name.
fn play_under_name<J: LaneNaming + Send + Sync, H: Threads + Wait + Clock + Sync>(
    rt: &H,
    alloc: Global,
    opening: Opening,
) -> Option<Compared>
    requires named { opening.blank.0 ≡ J.table }
    requires opening { opening.cluster.flat ≡ J.opening }
    requires same { IfSome opening.worker.cluster (λ own. own.flat ≡ J.opening) }
    requires limit { 1000000 ≡ J.limit }
    requires seats { opening.blank.1 ≡ J.seats }
    requires count { 9 ≡ J.seats }
{
    let Begun { shared, seats, own } = begin::<J, H>(rt, alloc, opening, LIMIT)?;
    let Left { called, scheduled } = play_together(rt, alloc, &shared, seats, own)?;
    close_and_compare(rt, alloc, shared, called, scheduled)
}

#[test]
fn a_worker_has_the_cluster_that_eight_clients_bring_about(rt: HostRuntime) {
    let seen = played(&rt, rt.alloc());
    assert!(rt; seen.is_some_and(|seen| seen.alike));
    assert!(rt; seen.is_some_and(|seen| seen.entries >= 8000));
}
