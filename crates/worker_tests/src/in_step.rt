//! A worker that follows the journal and one that copies the cluster take turns on the same entries: they choose the same.
ghost use Rattle.std.specs.Prelude.{◌≡◌, IfSome};

use crate::epochs::{Begun, Opening, begin, following, open_for};
use bumpalo::Bump;
use cap_base::RESOURCES;
use cap_lanes::{Committer, Putter, lanes};
use cap_messages::read_request;
use cap_model::{Event, Proposal, Verdict};
use cap_shared::{Seat, Shared};
use cap_testing::RandomClient;
use cap_workers::{Follower, LaneNaming, OfferEnd, OpenGate, Worker};
use memory_testing::Hoard;
use std::alloc::Global;
use std::marker::Brand;
use std::sync::Wait;
use std::test::*;
use std::time::Clock;

/// How many entries the journal has at most, three in each turn: few enough for the room that a hoard leaves.
const LIMIT: usize = 3_000;

/// How many turns each of the two takes.
const TURNS: u32 = 1000;

/// What was seen of the turns.
#[derive(Clone, Copy)]
struct Seen {
    unlike: u32,
    granted: u32,
    reserved: u32,
    /// How often the one that follows found too little memory.
    starved: u32,
}

/// Two workers, one with a cluster of its own and one with a seat alone, which put what they choose into lanes; and clients with a seat.
#[derive(Drop)]
struct Party<J: LaneNaming> {
    worker: Worker,
    follower: Follower<J>,
    copier: Seat<J>,
    committer: Committer,
    putters: Vec<Putter>,
    caller: Seat<J>,
    clients: [RandomClient; 2],
}

/// What one of them has put, if it has put something. `None` where it failed.
fn taken<H: Wait>(
    rt: &H,
    committer: &mut Committer,
    end: &OfferEnd,
) -> Option<Option<Proposal<RESOURCES>>> {
    match end {
        OfferEnd::Nothing => Some(None),
        OfferEnd::Put => match committer.try_take(rt) {
            Some((_, proposal)) => Some(Some(proposal)),
            None => None,
        },
        OfferEnd::Refused(_) | OfferEnd::NoMemory => None,
    }
}

fn is_same(a: &Option<Proposal<RESOURCES>>, b: &Option<Proposal<RESOURCES>>) -> bool {
    match (a, b) {
        (None, None) => true,
        (Some(a), Some(b)) => {
            a.kind == b.kind
                && a.app == b.app
                && a.key == b.key
                && a.node == b.node
                && a.resource == b.resource
        }
        _ => false,
    }
}

impl<J: LaneNaming> Party<J> {
    /// Each client makes its next call. `None` if one is not made.
    fn call<H: Wait>(&mut self, rt: &H, alloc: Global, shared: &Shared<J>) -> Option<()> {
        for client in &mut self.clients {
            let bytes = client.next_frame(alloc)?;
            let (_, request) = read_request(alloc, bytes.get(4..)?).ok()?;
            let reply = shared.call(rt, &mut self.caller, request).ok()?;
            client.note(&reply.view());
        }
        Some(())
    }

    /// What the worker chooses that follows. `None` where it failed.
    fn follow<H: Wait>(
        &mut self,
        rt: &H,
        shared: &Shared<J>,
    ) -> Option<Option<Proposal<RESOURCES>>> {
        let putter = self.putters.first_mut()?;
        let end = self
            .worker
            .follow_to_lane(rt, shared, &mut self.follower, putter, &OpenGate);
        taken(rt, &mut self.committer, &end)
    }

    /// What one chooses that copies, from this start. `None` where it failed.
    fn copy<H: Wait>(
        &mut self,
        rt: &H,
        alloc: Global,
        shared: &Shared<J>,
        mut worker: Worker,
    ) -> Option<Option<Proposal<RESOURCES>>> {
        let mut arena = Bump::new(alloc);
        let putter = self.putters.last_mut()?;
        let offer = worker.offer(rt, shared, &mut self.copier, putter, &mut arena, &OpenGate);
        taken(rt, &mut self.committer, &offer.end)
    }

    /// A turn after a call of each client, in which the one that follows has so many bytes of memory at first, and all where these are too few; what is
    /// chosen is committed once.
    fn take_turn<H: Wait>(
        &mut self,
        rt: &H,
        alloc: Global,
        shared: &Shared<J>,
        (hoard, bytes): (&mut Hoard, usize),
        seen: &mut Seen,
    ) -> Option<()> {
        self.call(rt, alloc, shared)?;
        let mut start = self.worker;
        hoard.leave(alloc, bytes);
        let mut followed = self.follow(rt, shared);
        hoard.give();
        if followed.is_none() {
            seen.starved = seen.starved.saturating_add(1);
            start = self.worker;
            followed = self.follow(rt, shared);
        }
        let followed = followed?;
        let copied = self.copy(rt, alloc, shared, start)?;
        if !is_same(&followed, &copied) {
            seen.unlike = seen.unlike.saturating_add(1);
        }
        let Some(proposal) = followed else {
            return Some(());
        };
        match shared.commit(rt, &mut self.caller, proposal).ok()? {
            Verdict::Done(Event::Grant { .. }) => seen.granted = seen.granted.saturating_add(1),
            Verdict::Done(_) => seen.reserved = seen.reserved.saturating_add(1),
            Verdict::Rejected(_) => seen.unlike = seen.unlike.saturating_add(1),
        }
        Some(())
    }
}

/// All turns, in an epoch that has begun. In each the one that follows has 16 bytes more than in the turn before, and none again after 4,096.
fn take_turns<J: LaneNaming, H: Wait>(
    rt: &H,
    alloc: Global,
    begun: Begun<J>,
    hoard: &mut Hoard,
) -> Option<Seen> {
    let Begun {
        shared,
        mut seats,
        own,
    } = begun;
    let (worker, follower) = following(own)?;
    let (committer, putters) = lanes(alloc, 8).ok()?;
    let mut party = Party {
        worker,
        follower,
        copier: seats.pop()?,
        committer,
        putters: Vec::from_array(alloc, putters).ok()?,
        caller: seats.pop()?,
        clients: [RandomClient::new(1), RandomClient::new(2)],
    };
    let mut seen = Seen {
        unlike: 0,
        granted: 0,
        reserved: 0,
        starved: 0,
    };
    for turn in 0..TURNS {
        let bytes = (turn % 256 * 16) as usize;
        party.take_turn(rt, alloc, &shared, (&mut *hoard, bytes), &mut seen)?;
    }
    Some(seen)
}

/// Both take turns. `None` if something failed that must not.
fn played<H: Wait + Clock>(rt: &H, alloc: Global, hoard: &mut Hoard) -> Option<Seen> {
    let opening = open_for(alloc, 2)?;
    play_under_name::<Brand, H>(rt, alloc, opening, hoard)
}

/// The same under a name.
fn play_under_name<J: LaneNaming, H: Wait + Clock>(
    rt: &H,
    alloc: Global,
    opening: Opening,
    hoard: &mut Hoard,
) -> Option<Seen>
    requires named { opening.blank.0 ≡ J.table }
    requires opening { opening.cluster.flat ≡ J.opening }
    requires same { IfSome opening.worker.cluster (λ own. own.flat ≡ J.opening) }
    requires limit { 3000 ≡ J.limit }
    requires seats { opening.blank.1 ≡ J.seats }
    requires count { 3 ≡ J.seats }
{
    let begun = begin::<J, H>(rt, alloc, opening, LIMIT)?;
    take_turns(rt, alloc, begun, hoard)
}

/// Something of each kind was seen, and no two choices that differ.
fn is_whole(seen: &Seen) -> bool {
    seen.unlike == 0 && seen.granted >= 100 && seen.reserved >= 10
}

#[test]
fn one_that_follows_and_one_that_copies_choose_the_same(rt: HostRuntime) {
    let mut nothing = Hoard::of_nothing(rt.alloc());
    let seen = played(&rt, rt.alloc(), &mut nothing);
    assert!(rt; seen.is_some_and(|seen| is_whole(&seen) && seen.starved == 0));
}

/// In each turn at least two calls are new, of 32 bytes at least in the list of what is new: so it is refused where 0, 16, 32 or 48 bytes are left,
/// which is so in 16 turns.
#[test]
fn they_choose_the_same_where_memory_is_short(rt: HostRuntime) {
    let alloc = rt.alloc();
    let mut hoard = Hoard::new(alloc).unwrap_or(Hoard::of_nothing(alloc));
    let seen = played(&rt, alloc, &mut hoard);
    assert!(rt; seen.is_some_and(|seen| is_whole(&seen) && seen.starved >= 16));
}
