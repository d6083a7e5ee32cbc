//! Epochs of a shared cluster on one thread, where memory is short at a time.
ghost use Rattle.std.specs.Prelude.{◌≡◌, ◌≤◌};

use crate::acts::{Act, make_act};
use crate::shortage::Shortage;
use cap_base::RESOURCES;
use cap_commit::Cluster;
use cap_model::Request;
use cap_shared::{Blank, Naming, Seat, Shared};
use memory_testing::Came;
use std::marker::Brand;
use std::sync::Wait;

/// How many entries the journal may have.
const LIMIT: usize = 100;

/// What is done where memory is short: an act with the only seat, the opening of two seats, or their close, once each has asked for the
/// cluster's report.
#[derive(Clone, Copy)]
pub enum Task {
    Act(Act),
    Open,
    Close,
}

/// What an epoch was when it had closed: what came of the act, how many seats it had, and how many entries and reports of seats there are.
#[derive(Clone, Copy)]
pub struct Epoch {
    pub came: Came,
    pub seats: usize,
    pub entries: usize,
    pub reports: usize,
}

fn seats_of(task: Task) -> u32
    ensures { (1 ≤ result) × (result ≤ 256) }
{
    match task {
        Task::Act(_) => 1,
        Task::Open | Task::Close => 2,
    }
}

/// What each seat does.
fn work<J: Naming, H: Wait>(
    rt: &H,
    shortage: &mut Shortage<'_>,
    shared: &Shared<J>,
    seat: &mut Seat<J>,
    task: Task,
) -> Came {
    match task {
        Task::Act(act) => make_act(rt, shortage, shared, seat, act),
        Task::Open => Came::Done,
        Task::Close => {
            let _reply = shared.call(rt, seat, Request::ClusterInfo);
            Came::Done
        }
    }
}

/// Opens an epoch, where memory may have become short, does the task and closes it. `None` if it is not opened.
fn worked<J: Naming, H: Wait>(
    rt: &H,
    shortage: &mut Shortage<'_>,
    blank: Blank,
    cluster: Cluster<RESOURCES>,
    limit: usize,
    task: Task,
) -> Option<Epoch>
    requires named { blank.0 ≡ J.table }
    requires opening { cluster.flat ≡ J.opening }
    requires limit { limit ≡ J.limit }
    requires seats { blank.1 ≡ J.seats }
    requires some { (1 ≤ J.limit) × (J.limit ≤ 1000000) }
    requires few { (1 ≤ J.seats) × (J.seats ≤ 256) }
{
    let opened = Shared::<J>::open(shortage.alloc, blank, cluster, limit);
    shortage.end();
    let Ok((shared, mut seats)) = opened else {
        return None;
    };
    let count = seats.len();
    let mut came = Came::Other;
    for seat in seats.as_mut_slice() {
        came = work(rt, shortage, &shared, seat, task);
    }
    if let Task::Close = task {
        shortage.begin();
    }
    let closed = shared.close(seats);
    shortage.end();
    Some(Epoch {
        came,
        seats: count,
        entries: closed.journal.len(),
        reports: closed.seats.len(),
    })
}

/// Does a task in an epoch over this cluster. `None` if it is not opened.
pub fn in_epoch<H: Wait>(
    rt: &H,
    shortage: &mut Shortage<'_>,
    cluster: Cluster<RESOURCES>,
    task: Task,
) -> Option<Epoch> {
    if let Task::Open = task {
        shortage.begin();
    }
    let Ok(blank) = Blank::new(shortage.alloc, seats_of(task)) else {
        shortage.end();
        return None;
    };
    worked::<Brand, H>(rt, shortage, blank, cluster, LIMIT, task)
}
