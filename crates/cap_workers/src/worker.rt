//! A worker (`Worker`), and what it does in a turn: it copies, proposes, and commits or offers.
ghost use Rattle.std.specs.Prelude.{◌≡◌, MatchResult};
ghost use Rattle.cap_model.specs.Candidates.{choice_from};
ghost use Rattle.cap_copy.specs.Snapshot.{sight_in};
ghost use Rattle.cap_propose.specs.Sizes.{SnapshotFitsInMemory};
ghost use Rattle.cap_workers.specs.Worker.{Chooses, IsCommitted, IsOffer, IsPut, IsTurn, end_by, end_by_fault, next_turn};

use crate::gate::{CommitOutcome, Gate, Point};
use bumpalo::Bump;
use cap_base::RESOURCES;
use cap_copy::Snapshot;
use cap_lanes::Putter;
use cap_model::{Event, NoMemory, Proposal, Reason, Verdict};
use cap_propose::propose;
use cap_shared::{CommitFault, Naming, Seat, Shared};
use std::alloc::Allocator;
use std::sync::Wait;

/// A worker. Contracts see its number, and the node at which its next turn starts.
#[derive(Clone, Copy, Debug, PartialEq, Eq)]
pub struct Worker {
    pub number: u32,
    pub start: u32,
}

/// How a turn ended.
#[derive(Drop)]
pub enum TurnEnd {
    /// There was nothing to propose.
    Nothing,
    /// The proposal was made: a grant or a reservation.
    Done(Event<RESOURCES>),
    /// The proposal was rejected, and nothing changed.
    Rejected(Reason),
    /// The journal is full. The proposal comes back, and was not made.
    Sealed(Proposal<RESOURCES>),
    /// An allocation failed, and nothing was made.
    NoMemory,
}

/// What came of a turn.
#[derive(Drop)]
pub struct Turn {
    pub end: TurnEnd,
    /// Whether the arena was reset. If not, its memory is not given back before it is dropped: use another for the next turn.
    pub reset: bool,
}

/// How an offer ended.
#[derive(Drop)]
pub enum OfferEnd {
    /// There was nothing to propose.
    Nothing,
    /// The proposal was put into the worker's lane.
    Put,
    /// The lane did not take the proposal. It comes back.
    Refused(Proposal<RESOURCES>),
    /// An allocation failed, and nothing was put.
    NoMemory,
}

/// What came of an offer.
#[derive(Drop)]
pub struct Offer {
    pub end: OfferEnd,
    /// Whether the arena was reset. If not, its memory is not given back before it is dropped: use another for the next offer.
    pub reset: bool,
}

/// What is proposed in a turn, and whether the arena was reset. An error means that an allocation failed.
#[derive(Drop)]
struct Begun {
    choice: Result<Option<Proposal<RESOURCES>>, NoMemory>,
    reset: bool,
}

impl Worker {
    /// A worker whose first turn starts at the node of its number.
    pub fn new(number: u32) -> Worker
        ensures { result ≡ record { number = number; start = number } }
    {
        Worker {
            number,
            start: number,
        }
    }

    /// Takes a turn: copies the cluster into the arena, under the lock; proposes on the copy, with the nodes as a ring from its
    /// start on, drops the copy and resets the arena, outside the lock; and commits what it proposes. The next turn starts one
    /// node later, after 2^32 - 1 at 0. If an allocation fails nothing is made.
    pub fn turn<J: Naming, R: Wait, G: Gate>(
        &mut self,
        rt: &R,
        shared: &Shared<J>,
        seat: &mut Seat<J>,
        arena: &mut Bump,
        gate: &G,
    ) -> Turn
        ensures start { self.new ≡ next_turn self.old }
        ensures turn { IsTurn J.opening J.limit self.old.start seat.old seat.new result.end }
    {
        let Begun { choice, reset } = self.begin(rt, shared, seat, arena, gate);
        let end = match choice {
            Ok(Some(proposal)) => self.commit(rt, shared, seat, gate, proposal),
            Ok(None) => TurnEnd::Nothing,
            Err(NoMemory) => TurnEnd::NoMemory,
        };
        Turn { end, reset }
    }

    /// The same as a turn, but what it proposes is put into the worker's lane, for the committer, and waits there while the lane is
    /// full. If an allocation fails nothing is put.
    pub fn offer<J: Naming, R: Wait, G: Gate>(
        &mut self,
        rt: &R,
        shared: &Shared<J>,
        seat: &mut Seat<J>,
        putter: &mut Putter,
        arena: &mut Bump,
        gate: &G,
    ) -> Offer
        ensures start { self.new ≡ next_turn self.old }
        ensures offer { IsOffer J.opening self.old.start seat.old seat.new
            putter.old putter.new result.end }
    {
        let Begun { choice, reset } = self.begin(rt, shared, seat, arena, gate);
        let end = match choice {
            Ok(Some(proposal)) => put(rt, putter, proposal),
            Ok(None) => OfferEnd::Nothing,
            Err(NoMemory) => OfferEnd::NoMemory,
        };
        Offer { end, reset }
    }

    /// Begins a turn: copies the cluster, and proposes on the copy.
    fn begin<J: Naming, R: Wait, G: Gate>(
        &mut self,
        rt: &R,
        shared: &Shared<J>,
        seat: &mut Seat<J>,
        arena: &mut Bump,
        gate: &G,
    ) -> Begun
        ensures start { self.new ≡ next_turn self.old }
        ensures choice { MatchResult result.choice
            (Chooses J.opening self.old.start seat.old seat.new) (λ _. seat.new ≡ seat.old) }
    {
        let Worker { number, start } = self.next();
        let choice = choose(rt, shared, seat, arena, gate, number, start);
        let reset = arena.reset().is_ok();
        Begun { choice, reset }
    }

    /// Takes the worker to its next turn. What it was before this is what the turn starts with.
    pub(crate) fn next(&mut self) -> Worker
        ensures turn { result ≡ self.old }
        ensures start { self.new ≡ next_turn self.old }
    {
        let turn = *self;
        self.start = turn.start.wrapping_add(1);
        turn
    }

    /// Commits the proposal of a turn that has begun, once.
    pub(crate) fn commit<J: Naming, R: Wait, G: Gate>(
        &self,
        rt: &R,
        shared: &Shared<J>,
        seat: &mut Seat<J>,
        gate: &G,
        proposal: Proposal<RESOURCES>,
    ) -> TurnEnd
        ensures { IsCommitted proposal J.limit seat.old seat.new result }
    {
        let answer = shared.commit(rt, seat, proposal);
        gate.at(self.number, Point::Committed(CommitOutcome::of(&answer)));
        end_of(answer)
    }
}

/// What a worker proposes on a copy of the cluster, which it drops. If an allocation fails there is no proposal.
fn choose<J: Naming, R: Wait, G: Gate>(
    rt: &R,
    shared: &Shared<J>,
    seat: &mut Seat<J>,
    arena: &Bump,
    gate: &G,
    worker: u32,
    start: u32,
) -> Result<Option<Proposal<RESOURCES>>, NoMemory>
    ensures { MatchResult result (Chooses J.opening start seat.old seat.new)
        (λ _. seat.new ≡ seat.old) }
{
    let copied = shared.hold_to_schedule(rt).copy(arena, seat);
    let Ok(copied) = copied else {
        return Err(NoMemory);
    };
    let snapshot = copied.arrange();
    Ok(propose_on(&snapshot, gate, worker, start))
}

/// What a worker proposes on a snapshot. It has no shared cluster here, so that it can hold none.
fn propose_on<const K: usize, B: Allocator + Copy, G: Gate>(
    snapshot: &Snapshot<K, B>,
    gate: &G,
    worker: u32,
    start: u32,
) -> Option<Proposal<K>>
    requires { SnapshotFitsInMemory K.row B.row B.Allocator }
    ensures { result ≡ choice_from (sight_in K snapshot.now) start }
{
    gate.at(worker, Point::Copied);
    let choice = propose(snapshot, start);
    gate.at(worker, Point::Proposed);
    choice
}

/// How a turn ends whose commit was answered so.
fn end_of(answer: Result<Verdict<RESOURCES>, CommitFault>) -> TurnEnd
    ensures { result ≡ end_by answer }
{
    match answer {
        Ok(Verdict::Done(event)) => TurnEnd::Done(event),
        Ok(Verdict::Rejected(reason)) => TurnEnd::Rejected(reason),
        Err(fault) => end_without(&fault),
    }
}

/// How a turn ends whose proposal came back.
fn end_without(fault: &CommitFault) -> TurnEnd
    ensures { result ≡ end_by_fault fault.now }
{
    match fault {
        CommitFault::Sealed(back) => TurnEnd::Sealed(*back),
        CommitFault::NoMemory(_) => TurnEnd::NoMemory,
    }
}

/// Puts what a worker proposes, once.
pub(crate) fn put<R: Wait>(rt: &R, putter: &mut Putter, proposal: Proposal<RESOURCES>) -> OfferEnd
    ensures { IsPut proposal putter.old putter.new result }
{
    match putter.put(rt, proposal) {
        Ok(()) => OfferEnd::Put,
        Err(fault) => OfferEnd::Refused(fault.back),
    }
}
