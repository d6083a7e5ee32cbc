//! A replica beside the journal played again, whole, at each of its copies: while eight clients make calls of all kinds and a worker grants, and where it
//! has rested for a whole journal.
ghost use denote.Param.Send.{IsSend, IsSync};
ghost use Rattle.std.specs.Prelude.{◌≡◌, IfSome};

use crate::clients::{Called, Course, begin_clients, join_clients, seats_of};
use crate::epochs::{Begun, Opening, THREE_ASKED, begin, call_all, following, open_for};
use crate::picture::picture_of;
use bumpalo::Bump;
use cap_base::RESOURCES;
use cap_commit::Cluster;
use cap_messages::dispatch;
use cap_model::{Event, Proposal, ProposalKind, Verdict};
use cap_shared::{Entry, Seat, Shared};
use cap_testing::{Both, Looker, TWO_QUEUES, are_alike, cluster, report_alike};
use cap_workers::{LaneNaming, OpenGate, StopSignal, Worker};
use std::alloc::Global;
use std::marker::Brand;
use std::sync::Wait;
use std::test::*;
use std::thread::{self, Scope, Threads};

/// How many entries the journal has at most.
const LIMIT: usize = 1_000_000;

/// How many entries a piece has at most.
const PIECE: usize = 256;

/// What a replica was once it had followed so many entries.
#[derive(Clone, Copy)]
struct Shown {
    entries: usize,
    picture: u64,
}

/// A worker that copies the cluster, with its seat.
#[derive(Drop)]
struct Copier<J: LaneNaming> {
    worker: Worker,
    seat: Seat<J>,
}

impl<J: LaneNaming> Copier<J> {
    /// An application asks for three containers on two nodes, and has them after three turns.
    fn grant_three<H: Wait>(&mut self, rt: &H, alloc: Global, shared: &Shared<J>) -> Option<()> {
        call_all(rt, alloc, shared, &mut self.seat, &THREE_ASKED)?;
        for _ in 0..3 {
            self.turn(rt, alloc, shared);
        }
        Some(())
    }

    /// Takes a turn.
    fn turn<H: Wait>(&mut self, rt: &H, alloc: Global, shared: &Shared<J>) {
        let mut arena = Bump::new(alloc);
        let _turn = self
            .worker
            .turn(rt, shared, &mut self.seat, &mut arena, &OpenGate);
    }

    /// Takes turns until all clients have ended.
    fn turn_until_ended<H: Wait>(
        &mut self,
        rt: &H,
        alloc: Global,
        shared: &Shared<J>,
        course: &Course,
    ) {
        for _ in rt.forever() {
            if course.is_raised(rt) {
                return;
            }
            self.turn(rt, alloc, shared);
        }
    }
}

/// The replica takes piece by piece, with a turn of the other worker before each, until all clients have ended and nothing is new: what it was after each
/// piece. `None` if an allocation fails.
fn look_on<J: LaneNaming, H: Wait>(
    rt: &H,
    alloc: Global,
    shared: &Shared<J>,
    looker: &mut Looker<J>,
    copier: &mut Copier<J>,
    course: &Course,
) -> Option<Vec<Shown>> {
    let mut shown = Vec::new(alloc);
    for _ in rt.forever() {
        let are_ended = course.is_raised(rt);
        if !are_ended {
            copier.turn(rt, alloc, shared);
        }
        let are_all = looker.take_piece(rt, shared)?;
        shown
            .push(Shown {
                entries: looker.followed(),
                picture: picture_of(looker.cluster()),
            })
            .ok()?;
        course.has_looked();
        if are_ended && are_all {
            return Some(shown);
        }
    }
    unreachable!()
}

/// Makes what an entry says. `None` if it is not made, or an allocation fails.
fn make(alloc: Global, cluster: &mut Cluster<RESOURCES>, entry: &Entry) -> Option<()> {
    let proposal = match &entry.event {
        Event::Call { request, .. } => {
            let request = request.request(alloc).ok()?;
            let _reply = dispatch(alloc, cluster, &request);
            return Some(());
        }
        Event::Grant { container } => Proposal {
            kind: ProposalKind::Grant,
            app: container.app,
            key: container.key,
            node: container.node,
            resource: container.resource,
        },
        Event::Reserve { reservation } => Proposal {
            kind: ProposalKind::Reserve,
            app: reservation.app,
            key: reservation.key,
            node: reservation.node,
            resource: reservation.resource,
        },
    };
    match cluster.try_commit(proposal) {
        Ok(Verdict::Done(_)) => Some(()),
        _ => None,
    }
}

/// How many of what was shown, from the first on, are as a journal says that is played again. `None` if it can't be played.
fn count_alike(alloc: Global, journal: &[Entry], shown: &[Shown]) -> Option<usize> {
    let mut cluster = cluster(alloc, TWO_QUEUES)?;
    let mut alike = 0usize;
    for (place, entry) in journal.iter().enumerate() {
        alike = count_at(&cluster, shown, alike, place);
        make(alloc, &mut cluster, entry)?;
    }
    Some(count_at(&cluster, shown, alike, journal.len()))
}

/// The same with those that were shown after so many entries.
fn count_at(cluster: &Cluster<RESOURCES>, shown: &[Shown], alike: usize, entries: usize) -> usize {
    let mut count = alike;
    for one in shown.get(alike..).unwrap_or(&[]) {
        if one.entries != entries || one.picture != picture_of(cluster) {
            break;
        }
        count = count.saturating_add(1);
    }
    count
}

/// How many of these are grants and reservations.
fn count_proposed(journal: &[Entry]) -> usize {
    journal
        .iter()
        .filter(|entry| !matches!(&entry.event, Event::Call { .. }))
        .count()
}

/// What was seen of an epoch: how many pieces were taken, after how many of them the replica was as the journal says, and how many were full; how many
/// entries there are, and how many of them are grants and reservations; and whether the replica is the shared cluster at last.
#[derive(Clone, Copy, Debug)]
struct Seen {
    pieces: usize,
    alike: usize,
    full: usize,
    entries: usize,
    proposed: usize,
    is_right: bool,
}

/// What the threads of an epoch leave.
#[derive(Drop)]
struct Left<J: LaneNaming> {
    called: Vec<Called<J>>,
    looker: Looker<J>,
    copier: Copier<J>,
    shown: Vec<Shown>,
}

/// Closes an epoch, and compares. `None` if a client has not made all its calls, or an allocation fails.
fn close_and_compare<J: LaneNaming>(alloc: Global, shared: Shared<J>, left: Left<J>) -> Option<Seen>
    requires { 10 ≡ J.seats }
{
    let Left {
        called,
        looker,
        copier,
        shown,
    } = left;
    let Copier { worker: _, seat } = copier;
    let mut others = seats_of(alloc, called)?;
    let Ok(()) = others.push(seat) else {
        return None;
    };
    if others.len() != 9 {
        return None;
    }
    let Both {
        mut closed,
        mut own,
    } = looker.close(shared, others)?;
    let alike = count_alike(alloc, closed.journal.as_slice(), shown.as_slice())?;
    Some(Seen {
        pieces: shown.len(),
        alike,
        full: count_full(&shown),
        entries: closed.journal.len(),
        proposed: count_proposed(&closed.journal),
        is_right: are_alike(&closed.cluster, &own)
            && report_alike(alloc, &mut closed.cluster, &mut own),
    })
}

/// How many pieces had as many entries as a piece has at most.
fn count_full(shown: &[Shown]) -> usize {
    let (mut full, mut before) = (0usize, 0usize);
    for one in shown {
        if one.entries == before.saturating_add(PIECE) {
            full = full.saturating_add(1);
        }
        before = one.entries;
    }
    full
}

/// What an epoch works with beside its shared cluster.
#[derive(Drop)]
struct Hands<J: LaneNaming> {
    seats: Vec<Seat<J>>,
    looker: Looker<J>,
    copier: Copier<J>,
    /// Whether the replica rests until all clients have ended.
    rests: bool,
}

/// The clients call, each in a thread of its own, while the replica looks in this one, or rests.
fn work_in<'s, E, J: LaneNaming + Send + Sync, H: Threads + Wait + Sync>(
    scope: &'s Scope<'s, E>,
    rt: &'s H,
    alloc: Global,
    shared: &'s Shared<J>,
    course: &'s Course,
    hands: Hands<J>,
) -> Option<Left<J>> {
    let Hands {
        seats,
        mut looker,
        mut copier,
        rests,
    } = hands;
    let threads = begin_clients(scope, rt, alloc, shared, course, seats)?;
    if rests {
        copier.turn_until_ended(rt, alloc, shared, course);
    }
    let shown = look_on(rt, alloc, shared, &mut looker, &mut copier, course);
    let called = join_clients(rt, alloc, threads)?;
    Some(Left {
        called,
        looker,
        copier,
        shown: shown?,
    })
}

/// The same with the threads' scope. `None` if a thread can't be made, or an allocation fails.
fn play_together<J: LaneNaming + Send + Sync, H: Threads + Wait + Sync>(
    rt: &H,
    alloc: Global,
    shared: &Shared<J>,
    hands: Hands<J>,
) -> Option<Left<J>> {
    let course = Course::new(if hands.rests { 0 } else { 10 });
    let course = &course;
    thread::scope(
        thread::scope_env(),
        rt,
        move |scope|
            requires { IsSend J.row × IsSync J.row × IsSync H.row }
        { work_in(scope, rt, alloc, shared, course, hands) },
    )
}

/// An epoch of eight clients, in which the replica rests until they have ended or not.
fn played<H: Threads + Wait + Sync>(rt: &H, alloc: Global, rests: bool) -> Option<Seen> {
    let opening = open_for(alloc, 9)?;
    play_under_name::<Brand, H>(rt, alloc, opening, rests)
}

/// The same under a name.
fn play_under_name<J: LaneNaming + Send + Sync, H: Threads + Wait + Sync>(
    rt: &H,
    alloc: Global,
    opening: Opening,
    rests: bool,
) -> Option<Seen>
    requires named { opening.blank.0 ≡ J.table }
    requires opening { opening.cluster.flat ≡ J.opening }
    requires same { IfSome opening.worker.cluster (λ own. own.flat ≡ J.opening) }
    requires limit { 1000000 ≡ J.limit }
    requires seats { opening.blank.1 ≡ J.seats }
    requires count { 10 ≡ J.seats }
{
    let Begun {
        shared,
        mut seats,
        own,
    } = begin::<J, H>(rt, alloc, opening, LIMIT)?;
    let (_, follower) = following(own)?;
    let (seat, replica) = follower.into_parts();
    let mut copier = Copier {
        worker: Worker::new(0),
        seat: seats.pop()?,
    };
    copier.grant_three(rt, alloc, &shared)?;
    let hands = Hands {
        seats,
        looker: Looker::new(seat, replica),
        copier,
        rests,
    };
    let left = play_together(rt, alloc, &shared, hands)?;
    close_and_compare(alloc, shared, left)
}

/// Each client waits before each tenth call of a thousand until the replica has looked once more: so it looks 99 times at least. Three containers are
/// granted before.
#[test]
fn a_replica_is_the_cluster_at_each_of_its_copies(rt: HostRuntime) {
    let seen = played(&rt, rt.alloc(), false);
    assert!(rt; seen.is_some_and(|seen| seen.alike == seen.pieces && seen.is_right));
    assert!(rt; seen.is_some_and(|seen| seen.pieces >= 99 && seen.entries >= 8000));
    assert!(rt; seen.is_some_and(|seen| seen.proposed >= 3));
}

/// All its pieces are full but the last one, which may be.
#[test]
fn one_that_rested_takes_a_whole_journal_in_pieces(rt: HostRuntime) {
    let seen = played(&rt, rt.alloc(), true);
    assert!(rt; seen.is_some_and(|seen| seen.alike == seen.pieces && seen.is_right));
    assert!(rt; seen.is_some_and(|seen| seen.entries >= 8000));
    assert!(rt; seen.is_some_and(|seen| seen.full == seen.entries / PIECE));
    assert!(rt; seen.is_some_and(|seen| seen.pieces == seen.entries.div_ceil(PIECE)));
}
