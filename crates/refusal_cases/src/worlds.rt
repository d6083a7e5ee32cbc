//! Steps of a world of which each allocation is refused (`WORLDS`), and what comes of one (`came`).
use crate::cases::Case;
use crate::fixture::{came_of, cluster_after};
use crate::table::Before;
use cap_base::RESOURCES;
use cap_model::Event;
use cap_world::{Did, Step, World};
use memory_testing::{Came, Hoard};
use std::alloc::Global;

/// What is seen of a world: whether connection 1 is open and how many bytes it was answered, whether worker 0 has chosen and has a verdict, how
/// many containers are live, and how many events there are.
#[derive(Clone, Copy, PartialEq, Eq)]
pub struct Seen {
    pub is_open: bool,
    pub output: usize,
    pub has_chosen: bool,
    pub has_verdict: bool,
    pub live: usize,
    pub events: usize,
}

fn shown(world: &World, events: &[Event<RESOURCES>]) -> Seen {
    Seen {
        is_open: world.is_open(1),
        output: world.output(1).len(),
        has_chosen: world.choice(0).is_some(),
        has_verdict: world.verdict(0).is_some(),
        live: world.cluster().nodes().live_count(),
        events: events.len(),
    }
}

/// A world in which nothing has happened.
pub const NOTHING: Seen = Seen {
    is_open: false,
    output: 0,
    has_chosen: false,
    has_verdict: false,
    live: 0,
    events: 0,
};

/// A step of a world after others, what became of it and what is seen then.
#[derive(Clone, Copy)]
pub struct Row {
    pub before: &'static [Step<'static>],
    pub step: Step<'static>,
    pub did: Did,
    pub seen: Seen,
}

/// A world of the cluster after these steps.
pub fn world(alloc: Global, before: Before) -> Option<World> {
    let cluster = cluster_after(alloc, before)?;
    Some(World::open(alloc, cluster))
}

/// Makes steps, each of which is to apply.
fn play(world: &mut World, steps: &[Step<'_>], events: &mut Vec<Event<RESOURCES>>) -> Option<()> {
    for step in steps {
        let Ok(Did::Done) = world.step(*step, events) else {
            return None;
        };
    }
    Some(())
}

/// What comes of the row's step where so many bytes are left: a refusal changes nothing, and the step is made once memory is there.
fn judged(
    alloc: Global,
    hoard: &mut Hoard,
    bytes: usize,
    row: &Row,
    world: &mut World,
    events: &mut Vec<Event<RESOURCES>>,
) -> Option<Came> {
    if play(world, row.before, events).is_none() {
        return Some(Came::Beside);
    }
    let before = shown(world, events);
    hoard.leave(alloc, bytes);
    let did = world.step(row.step, events);
    hoard.give();
    if let Ok(did) = did {
        let is_so = did == row.did && shown(world, events) == row.seen;
        return Some(came_of(false, is_so));
    }
    if shown(world, events) != before {
        return None;
    }
    play(world, &[row.step], events)?;
    Some(came_of(true, shown(world, events) == row.seen))
}

/// The same where application 1 asks for a container, and node 1 has room for it.
pub fn came(alloc: Global, hoard: &mut Hoard, bytes: usize, row: &Row) -> Came {
    let mut events = Vec::new(alloc);
    match world(alloc, Before::Asking) {
        Some(mut world) => {
            judged(alloc, hoard, bytes, row, &mut world, &mut events).unwrap_or(Came::Other)
        }
        None => Came::Beside,
    }
}

/// RegisterNode of `n1` in `/r1` with (8192, 8) and call id 2, and ClusterInfo with call id 3, in one piece.
const PIECE: &[u8] = &[
    0, 0, 0, 29, 1, 5, 0, 0, 0, 2, 2, 110, 49, 3, 47, 114, 49, 0, 0, 0, 0, 0, 0, 32, 0, 0, 0, 0, 0,
    0, 0, 0, 8, 0, 0, 0, 6, 1, 10, 0, 0, 0, 3,
];

/// What they are answered: node 1, and a cluster of one node.
const ANSWERED: &[u8] = &[
    0, 0, 0, 15, 1, 5, 0, 0, 0, 2, 0, 0, 0, 0, 0, 0, 0, 0, 1, 0, 0, 0, 51, 1, 10, 0, 0, 0, 3, 0, 0,
    0, 0, 1, 0, 0, 0, 0, 0, 0, 0, 0, 0, 0, 0, 0, 0, 0, 32, 0, 0, 0, 0, 0, 0, 0, 0, 8, 0, 0, 0, 0,
    0, 0, 0, 0, 0, 0, 0, 0, 0, 0, 0, 0,
];

/// What they are answered where memory is refused to the first call alone: status 20, and a cluster of no node.
const REFUSED_FIRST: &[u8] = &[
    0, 0, 0, 7, 1, 5, 0, 0, 0, 2, 20, 0, 0, 0, 51, 1, 10, 0, 0, 0, 3, 0, 0, 0, 0, 0, 0, 0, 0, 0, 0,
    0, 0, 0, 0, 0, 0, 0, 0, 0, 0, 0, 0, 0, 0, 0, 0, 0, 0, 0, 0, 0, 0, 0, 0, 0, 0, 0, 0, 0, 0, 0, 0,
    0, 0, 0,
];

/// What became of the two requests, with this output and so many events. A session that found no memory has ended; the request before stays
/// answered, and has its event.
fn came_of_piece(output: &[u8], events: usize, is_open: bool) -> Came {
    let is_whole = match (is_open, output.len(), events) {
        (true, _, 2) if output == ANSWERED => return Came::Done,
        (true, _, 2) => output == REFUSED_FIRST,
        (false, 0, 0) => true,
        (false, 11, 1) => REFUSED_FIRST.starts_with(output),
        (false, 19, 1) => ANSWERED.starts_with(output),
        _ => false,
    };
    came_of(true, is_whole)
}

/// What comes of the two requests in one piece where so many bytes are left.
fn fed(
    alloc: Global,
    hoard: &mut Hoard,
    bytes: usize,
    world: &mut World,
    events: &mut Vec<Event<RESOURCES>>,
) -> Option<Came> {
    if play(world, &[Step::Open(1)], events).is_none() {
        return Some(Came::Beside);
    }
    hoard.leave(alloc, bytes);
    let did = world.step(Step::Bytes(1, PIECE), events);
    hoard.give();
    let is_open = world.is_open(1);
    if did.is_ok() != is_open {
        return None;
    }
    Some(came_of_piece(world.output(1), events.len(), is_open))
}

/// The same of a world in which nothing has happened.
pub fn came_of_bytes(alloc: Global, hoard: &mut Hoard, bytes: usize) -> Came {
    let mut events = Vec::new(alloc);
    match world(alloc, Before::Nothing) {
        Some(mut world) => {
            fed(alloc, hoard, bytes, &mut world, &mut events).unwrap_or(Came::Other)
        }
        None => Came::Beside,
    }
}

/// A step of each kind that takes memory.
pub static WORLDS: [Case; 4] = [
    Case::World(Row {
        before: &[],
        step: Step::Open(1),
        did: Did::Done,
        seen: Seen {
            is_open: true,
            ..NOTHING
        },
    }),
    Case::World(Row {
        before: &[Step::Open(1)],
        step: Step::Copy(0),
        did: Did::Done,
        seen: Seen {
            is_open: true,
            ..NOTHING
        },
    }),
    Case::World(Row {
        before: &[Step::Copy(0), Step::Propose(0, 0)],
        step: Step::Commit(0),
        did: Did::Done,
        seen: Seen {
            has_verdict: true,
            live: 1,
            events: 1,
            ..NOTHING
        },
    }),
    Case::Piece,
];
