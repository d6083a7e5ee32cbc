//! A worker that follows the journal: what it grants, and that it sees what others enter and what it was granted itself.
use crate::epochs::{ONE_MORE, Play, THREE_ASKED, call_all, following, play_in};
use cap_lanes::{Committer, Putter, lanes};
use cap_model::Event;
use cap_shared::{Seat, Shared};
use cap_workers::{Follower, LaneNaming, OfferEnd, OpenGate, Scheduler, TurnEnd, Worker};
use std::alloc::Global;
use std::sync::Wait;
use std::test::*;
use std::time::Clock;

/// What came of a turn.
#[derive(Clone, Copy, PartialEq, Eq)]
enum Came {
    Nothing,
    /// A container of this number was granted on this node.
    Granted { container: u64, node: u64 },
    /// Something else.
    Other,
}

fn came_of(end: &TurnEnd) -> Came {
    match end {
        TurnEnd::Nothing => Came::Nothing,
        TurnEnd::Done(Event::Grant { container }) => Came::Granted {
            container: container.number,
            node: container.node,
        },
        _ => Came::Other,
    }
}

/// Six turns of worker 0, the last two after one more call.
struct SixTurns;

impl Play for SixTurns {
    type Seen = Vec<Came>;

    fn play<J: LaneNaming, H: Wait + Clock>(
        &self,
        rt: &H,
        alloc: Global,
        shared: &Shared<J>,
        mut caller: Seat<J>,
        own: Scheduler<J>,
    ) -> Option<Vec<Came>> {
        let (mut worker, mut follower) = following(own)?;
        let mut came = Vec::new(alloc);
        call_all(rt, alloc, shared, &mut caller, &THREE_ASKED)?;
        for turn in 0..6 {
            if turn == 4 {
                call_all(rt, alloc, shared, &mut caller, &ONE_MORE)?;
            }
            let end = worker.follow(rt, shared, &mut follower, &OpenGate);
            came.push(came_of(&end)).ok()?;
        }
        Some(came)
    }
}

#[test]
fn a_worker_that_follows_sees_all_entries(rt: HostRuntime) {
    let granted = |container, node| Came::Granted { container, node };
    let want = [
        granted(1, 1),
        granted(2, 2),
        granted(3, 1),
        Came::Nothing,
        granted(4, 1),
        Came::Nothing,
    ];
    let came = play_in(&rt, rt.alloc(), &SixTurns);
    assert!(rt; came.is_some_and(|came| came.as_slice() == want.as_slice()));
}

/// Three offers of worker 0, of which the committer's end takes the first before the next is made, and commits it.
struct ThreeOffers;

/// New lanes with eight places.
fn new_lanes(alloc: Global) -> Option<(Committer, Vec<Putter>)> {
    match lanes(alloc, 8) {
        Ok(ends) => {
            let (committer, putters) = ends;
            let putters = Vec::from_array(alloc, putters).ok()?;
            Some((committer, putters))
        }
        Err(_) => None,
    }
}

/// What came of an offer: the node of what lies in the lane.
fn offered<J: LaneNaming, H: Wait>(
    rt: &H,
    shared: &Shared<J>,
    worker: &mut Worker,
    follower: &mut Follower<J>,
    putter: &mut Putter,
    committer: &mut Committer,
) -> Option<u64> {
    let OfferEnd::Put = worker.follow_to_lane(rt, shared, follower, putter, &OpenGate) else {
        return None;
    };
    let (number, proposal) = committer.try_take(rt)?;
    if number != 0 {
        return None;
    }
    Some(proposal.node())
}

impl Play for ThreeOffers {
    type Seen = [Option<u64>; 3];

    fn play<J: LaneNaming, H: Wait + Clock>(
        &self,
        rt: &H,
        alloc: Global,
        shared: &Shared<J>,
        mut caller: Seat<J>,
        own: Scheduler<J>,
    ) -> Option<[Option<u64>; 3]> {
        let (mut committer, mut putters) = new_lanes(alloc)?;
        let (mut worker, mut follower) = following(own)?;
        let putter = putters.first_mut()?;
        let mut seen = [None; 3];
        for place in 0..3 {
            if place == 1 {
                call_all(rt, alloc, shared, &mut caller, &THREE_ASKED)?;
            }
            seen[place] = offered(
                rt,
                shared,
                &mut worker,
                &mut follower,
                putter,
                &mut committer,
            );
        }
        Some(seen)
    }
}

/// Nothing is put where there is nothing to propose. Then two offers start at nodes of their own: the second start is the second node's.
#[test]
fn offers_on_a_replica_go_to_the_lane(rt: HostRuntime) {
    let want = [None, Some(2), Some(1)];
    assert!(rt; play_in(&rt, rt.alloc(), &ThreeOffers) == Some(want));
}
