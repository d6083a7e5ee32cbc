//! Steps of a world that take no memory.
use cap_world::{Did, Step, World};
use memory_testing::{Came, Hoard};
use refusal_cases::worlds::{NOTHING, Row, Seen, came, world};
use refusal_cases::{Before, cluster_after};
use std::alloc::Global;

/// ClusterInfo with call id 3, framed.
const INFO: &[u8] = &[0, 0, 0, 6, 1, 10, 0, 0, 0, 3];

/// A proposal, an end, each step that is idle, and a commit that is rejected, since the application has no more asks.
static FRUGAL: [Row; 9] = [
    Row {
        before: &[Step::Copy(0)],
        step: Step::Propose(0, 0),
        did: Did::Done,
        seen: Seen {
            has_chosen: true,
            ..NOTHING
        },
    },
    Row {
        before: &[Step::Open(1)],
        step: Step::End(1),
        did: Did::Done,
        seen: NOTHING,
    },
    Row {
        before: &[Step::Open(1)],
        step: Step::Open(1),
        did: Did::Idle,
        seen: Seen {
            is_open: true,
            ..NOTHING
        },
    },
    Row {
        before: &[],
        step: Step::Bytes(1, INFO),
        did: Did::Idle,
        seen: NOTHING,
    },
    Row {
        before: &[],
        step: Step::End(1),
        did: Did::Idle,
        seen: NOTHING,
    },
    Row {
        before: &[],
        step: Step::Copy(64),
        did: Did::Idle,
        seen: NOTHING,
    },
    Row {
        before: &[],
        step: Step::Propose(0, 0),
        did: Did::Idle,
        seen: NOTHING,
    },
    Row {
        before: &[],
        step: Step::Commit(0),
        did: Did::Idle,
        seen: NOTHING,
    },
    Row {
        before: &[
            Step::Copy(0),
            Step::Copy(1),
            Step::Propose(0, 0),
            Step::Propose(1, 0),
            Step::Commit(1),
        ],
        step: Step::Commit(0),
        did: Did::Done,
        seen: Seen {
            has_verdict: true,
            live: 1,
            events: 1,
            ..NOTHING
        },
    },
];

/// Whether each step is made where no bytes are left.
fn are_frugal(alloc: Global, hoard: &mut Hoard, rows: &[Row]) -> bool {
    for row in rows {
        if came(alloc, hoard, 0, row) != Came::Done || !hoard.is_short() {
            return false;
        }
    }
    true
}

/// Whether a world opens where no bytes are left.
fn opens(alloc: Global, hoard: &mut Hoard) -> bool {
    let Some(cluster) = cluster_after(alloc, Before::Nothing) else {
        return false;
    };
    hoard.leave(alloc, 0);
    let world = World::open(alloc, cluster);
    let is_empty = world.output(1).is_empty();
    hoard.give();
    is_empty && hoard.is_short()
}

#[test]
fn steps_that_take_no_memory(rt: HostRuntime) {
    let Some(mut hoard) = Hoard::new(rt.alloc()) else {
        return assert!(rt; false, "no hoard");
    };
    assert!(rt; opens(rt.alloc(), &mut hoard));
    assert!(rt; are_frugal(rt.alloc(), &mut hoard, &FRUGAL));
}
