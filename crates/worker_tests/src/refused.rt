//! A worker that follows the journal where memory is refused, each allocation in turn: at each of its looks, and at the end of an epoch in which it has
//! rested all along. It goes on, and its cluster is the shared one.
ghost use Rattle.std.specs.Prelude.{◌≡◌, IfSome};

use crate::epochs::{Begun, Opening, begin, call_all, following, open_for};
use bumpalo::Bump;
use cap_base::RESOURCES;
use cap_commit::Cluster;
use cap_shared::{Seat, Shared};
use cap_testing::{Call, TWO_QUEUES, WantedContainers, are_alike, first, report_alike};
use cap_workers::{Follower, LaneNaming, OpenGate, TurnEnd, Worker};
use memory_testing::{Came, Hoard, Turns, refuse_in_turn};
use std::alloc::Global;
use std::marker::Brand;
use std::sync::Wait;
use std::sync::atomic::{AtomicU64, Ordering};
use std::test::*;

/// How many entries the journal has at most.
const LIMIT: usize = 100;

/// Turns at most that are refused after some steps.
const TURNS: usize = 4096;

/// How many bytes more each turn has than the one before.
const MORE: usize = 16;

/// What an entry takes at least in the list of what is new: of an Allocate the pointers of two lists, the application and the response.
const DEED: usize = 32;

/// What is done before the worker looks that follows. Each makes one entry.
#[derive(Clone, Copy)]
enum Step {
    Call(Call<'static>),
    /// A worker that copies the cluster grants or reserves something.
    Propose,
}

/// Steps, and how many bytes more than the list of what is new are taken at least where they are made again.
#[derive(Clone, Copy)]
struct Row {
    steps: &'static [Step],
    taken: usize,
}

/// A container of (1024, 1), anywhere.
const ONE: WantedContainers<'static> = WantedContainers {
    priority: 2,
    request: 0,
    count: 1,
    resource: [1024, 1, 0],
    place: b"*",
};

/// One that no node can take.
const NOWHERE: WantedContainers<'static> = WantedContainers {
    place: b"n9",
    ..ONE
};

const EIGHT: &[WantedContainers<'static>] = &[
    WantedContainers {
        request: 1,
        ..NOWHERE
    },
    WantedContainers {
        request: 2,
        ..NOWHERE
    },
    WantedContainers {
        request: 3,
        ..NOWHERE
    },
    WantedContainers {
        request: 4,
        ..NOWHERE
    },
    WantedContainers {
        request: 5,
        ..NOWHERE
    },
    WantedContainers {
        request: 6,
        ..NOWHERE
    },
    WantedContainers {
        request: 7,
        ..NOWHERE
    },
    WantedContainers {
        request: 8,
        ..NOWHERE
    },
];

const FOUR: &[WantedContainers<'static>] = &[WantedContainers { count: 4, ..ONE }];

/// One of (2048, 2) on the second node, which has as much, and gave half of it away.
const LARGE: &[WantedContainers<'static>] = &[WantedContainers {
    priority: 3,
    resource: [2048, 2, 0],
    place: b"n2",
    ..ONE
}];

const NODES: &[Step] = &[
    Step::Call(Call::RegisterNode(b"n1", b"/r1", [8192, 8, 0])),
    Step::Call(Call::RegisterNode(b"n2", b"/r2", [2048, 2, 0])),
    Step::Call(Call::RegisterNode(b"n3", b"/r2", [2048, 2, 0])),
];

const MASTERS: &[Step] = &[
    Step::Call(Call::Submit(b"root.a", b"u1")),
    Step::Call(Call::Submit(b"root.b", b"u2")),
    Step::Call(Call::RegisterMaster(1)),
    Step::Call(Call::RegisterMaster(2)),
];

const ASKS: &[Step] = &[Step::Call(Call::Allocate(1, 0, EIGHT, &[]))];

const GRANTS: &[Step] = &[
    Step::Call(Call::Allocate(1, 1, FOUR, &[])),
    Step::Propose,
    Step::Propose,
    Step::Propose,
    Step::Propose,
];

/// The grants are reported, a container ends and another is released, and the end is reported.
const ENDS: &[Step] = &[
    Step::Call(Call::Allocate(1, 2, &[], &[])),
    Step::Call(Call::Heartbeat(1, 0, &[1])),
    Step::Call(Call::Allocate(1, 3, &[], &[4])),
];

const RESERVED: &[Step] = &[Step::Call(Call::Allocate(1, 4, LARGE, &[])), Step::Propose];

const REFRESH: &[Step] = &[Step::Call(Call::Refresh(TWO_QUEUES))];

const REPORTS: &[Step] = &[
    Step::Call(Call::SetQueueState(b"root.b", false)),
    Step::Call(Call::QueueInfo(b"root.a")),
    Step::Call(Call::ClusterInfo),
];

const LEAVERS: &[Step] = &[
    Step::Call(Call::NodeGone(3)),
    Step::Call(Call::FinishMaster(2)),
];

/// Twelve nodes that have no room for a container.
const SMALL_NODES: &[Step] = &[
    Step::Call(Call::RegisterNode(b"m1", b"/r1", [512, 1, 0])),
    Step::Call(Call::RegisterNode(b"m2", b"/r1", [512, 1, 0])),
    Step::Call(Call::RegisterNode(b"m3", b"/r1", [512, 1, 0])),
    Step::Call(Call::RegisterNode(b"m4", b"/r1", [512, 1, 0])),
    Step::Call(Call::RegisterNode(b"m5", b"/r1", [512, 1, 0])),
    Step::Call(Call::RegisterNode(b"m6", b"/r1", [512, 1, 0])),
    Step::Call(Call::RegisterNode(b"m7", b"/r1", [512, 1, 0])),
    Step::Call(Call::RegisterNode(b"m8", b"/r1", [512, 1, 0])),
    Step::Call(Call::RegisterNode(b"m9", b"/r1", [512, 1, 0])),
    Step::Call(Call::RegisterNode(b"m10", b"/r1", [512, 1, 0])),
    Step::Call(Call::RegisterNode(b"m11", b"/r1", [512, 1, 0])),
    Step::Call(Call::RegisterNode(b"m12", b"/r1", [512, 1, 0])),
];

/// A cluster keeps of each ask its key, its count and its resource: 40 bytes. What the lines of a Refresh read as has a guarantee and a maximum of each of
/// the three queues: 48 bytes.
static ROWS: [Row; 10] = [
    Row {
        steps: NODES,
        taken: 0,
    },
    Row {
        steps: MASTERS,
        taken: 0,
    },
    Row {
        steps: ASKS,
        taken: 8 * 40,
    },
    Row {
        steps: GRANTS,
        taken: 0,
    },
    Row {
        steps: ENDS,
        taken: 0,
    },
    Row {
        steps: RESERVED,
        taken: 0,
    },
    Row {
        steps: REFRESH,
        taken: 3 * 48,
    },
    Row {
        steps: REPORTS,
        taken: 0,
    },
    Row {
        steps: LEAVERS,
        taken: 0,
    },
    Row {
        steps: SMALL_NODES,
        taken: 0,
    },
];

impl Row {
    /// How many turns are refused at least where each has 16 bytes more than the one before.
    fn least(&self) -> usize {
        let list = self.steps.len().saturating_mul(DEED);
        list.saturating_add(self.taken) / MORE
    }
}

/// The same of all these rows, where none of them was made again before.
fn least_of(rows: &[Row]) -> usize {
    let mut least = 0usize;
    for row in rows {
        least = least.saturating_add(row.least());
    }
    least
}

/// How many entries these rows make.
fn entries_of(rows: &[Row]) -> usize {
    let mut entries = 0usize;
    for row in rows {
        entries = entries.saturating_add(row.steps.len());
    }
    entries
}

/// A worker that follows, one that copies, and the seat of that and of all calls.
#[derive(Drop)]
struct Party<J: LaneNaming> {
    worker: Worker,
    follower: Follower<J>,
    copier: Worker,
    caller: Seat<J>,
}

impl<J: LaneNaming> Party<J> {
    /// Makes steps. `None` if one is not made.
    fn make<H: Wait>(
        &mut self,
        rt: &H,
        alloc: Global,
        shared: &Shared<J>,
        steps: &[Step],
    ) -> Option<()> {
        for step in steps {
            match step {
                Step::Call(call) => call_all(rt, alloc, shared, &mut self.caller, &[*call])?,
                Step::Propose => self.propose(rt, alloc, shared)?,
            }
        }
        Some(())
    }

    /// The worker that copies makes something. `None` if it makes nothing.
    fn propose<H: Wait>(&mut self, rt: &H, alloc: Global, shared: &Shared<J>) -> Option<()> {
        let mut arena = Bump::new(alloc);
        let turn = self
            .copier
            .turn(rt, shared, &mut self.caller, &mut arena, &OpenGate);
        match turn.end {
            TurnEnd::Done(_) => Some(()),
            _ => None,
        }
    }

    /// The worker that follows takes turns where there is nothing to propose, each with 16 bytes more than the one before, the first with none, until one
    /// is not refused: how many were. `None` if anything else comes.
    fn follow<H: Wait>(
        &mut self,
        rt: &H,
        alloc: Global,
        shared: &Shared<J>,
        hoard: &mut Hoard,
    ) -> Option<usize> {
        for refused in 0..TURNS {
            hoard.leave(alloc, refused * MORE);
            let end = self
                .worker
                .follow(rt, shared, &mut self.follower, &OpenGate);
            hoard.give();
            match end {
                TurnEnd::NoMemory if hoard.is_short() => {}
                TurnEnd::Nothing if hoard.is_short() => return Some(refused),
                _ => return None,
            }
        }
        None
    }

    /// After the steps of each row the worker follows. The first row after which fewer turns were refused than it says, else how many rows there are.
    /// `None` if a step is not made, or the worker does not follow.
    fn follow_rows<H: Wait>(
        &mut self,
        rt: &H,
        alloc: Global,
        shared: &Shared<J>,
        hoard: &mut Hoard,
        rows: &[Row],
    ) -> Option<usize> {
        let mut enough = 0usize;
        for (place, row) in rows.iter().enumerate() {
            self.make(rt, alloc, shared, row.steps)?;
            let refused = self.follow(rt, alloc, shared, hoard)?;
            if enough == place && refused >= row.least() {
                enough = enough.saturating_add(1);
            }
        }
        Some(enough)
    }
}

/// What became of the worker's cluster at the end of an epoch.
#[derive(Clone, Copy, Debug, PartialEq, Eq)]
enum Own {
    /// It was given up, since an allocation was refused.
    Refused,
    /// It is the shared one in all that can be seen.
    Alike,
    Unlike,
}

/// What was seen of an epoch: after how many rows enough turns were refused; how many entries the worker had followed before the end, and how many there
/// are; and what became of its cluster.
#[derive(Clone, Copy, Debug, PartialEq, Eq)]
struct Seen {
    enough: usize,
    followed: usize,
    entries: usize,
    own: Own,
}

/// The rows of an epoch. A worker with so many bytes at the end rests until then; any other follows after each row, and has all memory at the end.
#[derive(Clone, Copy)]
struct Work {
    rows: &'static [Row],
    at_end: Option<usize>,
}

impl<J: LaneNaming> Party<J> {
    /// All rows. Of one that rests none is refused.
    fn work<H: Wait>(
        &mut self,
        rt: &H,
        alloc: Global,
        shared: &Shared<J>,
        hoard: &mut Hoard,
        work: Work,
    ) -> Option<usize> {
        if work.at_end.is_none() {
            return self.follow_rows(rt, alloc, shared, hoard, work.rows);
        }
        for row in work.rows {
            self.make(rt, alloc, shared, row.steps)?;
        }
        Some(0)
    }
}

/// Closes an epoch, and compares. `None` if an allocation fails beside the worker.
fn close_and_compare<J: LaneNaming>(
    alloc: Global,
    shared: Shared<J>,
    party: Party<J>,
    hoard: &mut Hoard,
    at_end: Option<usize>,
    enough: usize,
) -> Option<Seen>
    requires { 2 ≡ J.seats }
{
    let Party {
        follower,
        caller,
        ..
    } = party;
    let (seat, replica) = follower.into_parts();
    let followed = replica.followed();
    let Ok(seats) = Vec::from_array(alloc, [caller, seat]) else {
        return None;
    };
    let mut closed = shared.close(seats);
    if let Some(bytes) = at_end {
        hoard.leave(alloc, bytes);
    }
    let own = replica.close(&closed);
    hoard.give();
    let own = match own {
        Ok(own) => compare(alloc, &mut closed.cluster, own),
        Err(_) => Own::Refused,
    };
    Some(Seen {
        enough,
        followed,
        entries: closed.journal.len(),
        own,
    })
}

fn compare(alloc: Global, cluster: &mut Cluster<RESOURCES>, mut own: Cluster<RESOURCES>) -> Own {
    if are_alike(cluster, &own) && report_alike(alloc, cluster, &mut own) {
        Own::Alike
    } else {
        Own::Unlike
    }
}

/// An epoch. `None` if something failed that must not.
fn played<H: Wait>(rt: &H, alloc: Global, hoard: &mut Hoard, work: Work) -> Option<Seen> {
    let opening = open_for(alloc, 1)?;
    play_under_name::<Brand, H>(rt, alloc, opening, hoard, work)
}

/// The same under a name.
fn play_under_name<J: LaneNaming, H: Wait>(
    rt: &H,
    alloc: Global,
    opening: Opening,
    hoard: &mut Hoard,
    work: Work,
) -> Option<Seen>
    requires named { opening.blank.0 ≡ J.table }
    requires opening { opening.cluster.flat ≡ J.opening }
    requires same { IfSome opening.worker.cluster (λ own. own.flat ≡ J.opening) }
    requires limit { 100 ≡ J.limit }
    requires seats { opening.blank.1 ≡ J.seats }
    requires count { 2 ≡ J.seats }
{
    let Begun {
        shared,
        mut seats,
        own,
    } = begin::<J, H>(rt, alloc, opening, LIMIT)?;
    let caller = seats.pop()?;
    let (worker, follower) = following(own)?;
    let mut party = Party {
        worker,
        follower,
        copier: Worker::new(0),
        caller,
    };
    let enough = party.work(rt, alloc, &shared, hoard, work)?;
    close_and_compare(alloc, shared, party, hoard, work.at_end, enough)
}

/// After each number of rows its cluster is the shared one, all of which it has followed.
#[test]
fn one_that_follows_goes_on_after_each_refusal(rt: HostRuntime) {
    let alloc = rt.alloc();
    let mut hoard = Hoard::new(alloc).unwrap_or(Hoard::of_nothing(alloc));
    for count in 1..=ROWS.len() {
        let work = Work {
            rows: first(&ROWS, count),
            at_end: None,
        };
        let seen = played(&rt, alloc, &mut hoard, work);
        let entries = entries_of(work.rows);
        let want = Seen {
            enough: count,
            followed: entries,
            entries,
            own: Own::Alike,
        };
        assert_eq!(rt; seen, Some(want), "{count}");
    }
}

/// What comes of the end of an epoch where so many bytes are left to a worker that has rested all along.
fn came_at_end<H: Wait>(
    rt: &H,
    alloc: Global,
    hoard: &mut Hoard,
    bytes: usize,
    refused: &AtomicU64,
) -> Came {
    let work = Work {
        rows: &ROWS,
        at_end: Some(bytes),
    };
    let Some(seen) = played(rt, alloc, hoard, work) else {
        return Came::Beside;
    };
    match seen.own {
        Own::Refused if seen.followed == 0 => {
            refused.fetch_add(1, Ordering::SeqCst);
            Came::Refused
        }
        Own::Alike if seen.followed == 0 => Came::Done,
        _ => Came::Other,
    }
}

#[test]
fn the_end_of_an_epoch_is_refused_in_turn(rt: HostRuntime) {
    let refused = AtomicU64::new(0);
    let turns = refuse_in_turn(
        rt.alloc(),
        |alloc, hoard, bytes| came_at_end(&rt, alloc, hoard, bytes, &refused),
    );
    assert_eq!(rt; turns, Turns::Refused);
    assert!(rt; refused.load(Ordering::SeqCst) >= least_of(&ROWS) as u64);
}
