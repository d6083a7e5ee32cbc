//! What is done with a shared cluster on one thread, of which each allocation is refused (`TASKS`), and what comes of it (`came`). Another
//! thread needs memory of its own.

use crate::acts::Act;
use crate::cases::Case;
use crate::epochs::{Epoch, Task, in_epoch};
use crate::fixture::cluster_after;
use crate::shortage::Shortage;
use crate::table::{Before, ONE, OTHER_LIMITS};
use cap_base::RESOURCES;
use cap_commit::Cluster;
use cap_testing::{Call, WantedContainers};
use cap_workers::lanes;
use memory_testing::{Came, Hoard};
use std::alloc::Global;
use std::sync::Wait;

/// Does a task in an epoch over this cluster, where so many bytes are left at a time.
pub fn epoch<H: Wait>(
    rt: &H,
    alloc: Global,
    hoard: &mut Hoard,
    bytes: usize,
    cluster: Cluster<RESOURCES>,
    task: Task,
) -> Option<Epoch> {
    let mut shortage = Shortage {
        alloc,
        hoard,
        bytes,
    };
    in_epoch(rt, &mut shortage, cluster, task)
}

/// What comes of a task on the cluster after these steps, where so many bytes are left.
pub fn came<H: Wait>(
    rt: &H,
    alloc: Global,
    hoard: &mut Hoard,
    bytes: usize,
    before: Before,
    task: Task,
) -> Came {
    let Some(cluster) = cluster_after(alloc, before) else {
        return Came::Beside;
    };
    match (task, epoch(rt, alloc, hoard, bytes, cluster, task)) {
        (Task::Act(_), Some(epoch)) => epoch.came,
        (Task::Act(_), None) => Came::Beside,
        (Task::Open, Some(epoch)) if epoch.seats == 2 => Came::Done,
        (Task::Open, None) => Came::Refused,
        _ => Came::Other,
    }
}

/// Eight more asks than the application has, each under a key of its own.
const EIGHT_MORE: &[WantedContainers<'static>] = &[
    WantedContainers { request: 1, ..ONE },
    WantedContainers { request: 2, ..ONE },
    WantedContainers { request: 3, ..ONE },
    WantedContainers { request: 4, ..ONE },
    WantedContainers { request: 5, ..ONE },
    WantedContainers { request: 6, ..ONE },
    WantedContainers { request: 7, ..ONE },
    WantedContainers { request: 8, ..ONE },
];

/// A Submit, a Refresh, a second Allocate of eight more asks, a grant, a turn, an offer, the opening of an epoch, and lanes.
pub static TASKS: [Case; 8] = [
    Case::Task(
        Before::Nothing,
        Task::Act(Act::Call(Call::Submit(b"root.a", b"u1"))),
    ),
    Case::Task(
        Before::Nothing,
        Task::Act(Act::Call(Call::Refresh(OTHER_LIMITS))),
    ),
    Case::Task(
        Before::Asking,
        Task::Act(Act::Call(Call::Allocate(1, 1, EIGHT_MORE, &[]))),
    ),
    Case::Task(Before::Asking, Task::Act(Act::Commit)),
    Case::Task(Before::Asking, Task::Act(Act::Turn)),
    Case::Task(Before::Asking, Task::Act(Act::Offer)),
    Case::Task(Before::Nothing, Task::Open),
    Case::Lanes,
];

/// Makes lanes where so many bytes are left.
pub fn made_lanes(alloc: Global, hoard: &mut Hoard, bytes: usize) -> Came {
    hoard.leave(alloc, bytes);
    let made = lanes(alloc, 64);
    hoard.give();
    match made {
        Ok(_) => Came::Done,
        Err(_) => Came::Refused,
    }
}
