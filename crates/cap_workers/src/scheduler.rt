//! A worker in an epoch (`Scheduler`), which takes turns on a cluster of its own that follows the journal, or on copies.
//!
//! | it is | until | and then |
//! |---|---|---|
//! | proposing | a grant or a reservation was made | proposing, one node later |
//! | proposing | what it proposed was rejected | worker 0: proposing, one node later; any other: resting |
//! | proposing | there is nothing to propose, or memory is wanting | resting |
//! | proposing | what it chose lies in its lane | waiting for an answer |
//! | waiting for an answer | who holds the cluster has committed that | as above where it was made or rejected; else resting |
//! | resting | its rest is over; where it found nothing, the journal has grown | proposing |
//! | any of these | the journal is full, or the signal is raised | leaving |
//!
//! Each rest is twice as long as the one before, until a proposal of the worker is made (`Pause`). So workers that choose the same keep out of each
//! other's way, and one of them, worker 0, goes on at full pace whatever is rejected.
ghost use Rattle.std.specs.Prelude.{◌≡◌, []};
ghost use Rattle.std.specs.Option.{ForSome};
ghost use Rattle.cap_workers.specs.Following.{IsFollowingOffer, IsFollowingTurn};
ghost use Rattle.cap_workers.specs.Lanes.{IsNewLane, emptied};
ghost use Rattle.cap_workers.specs.Scheduling.{Offers, Schedules, Turns, Works, seat_of};
ghost use Rattle.cap_workers.specs.Worker.{next_turn};

use crate::committing::commit_lanes;
use crate::coordinator::Coordinator;
use crate::gate::{CommitOutcome, Gate};
use crate::lane::{EndedLane, Lane, LaneNaming};
use crate::mailbox::Answer;
use crate::pause::Pause;
use crate::seeing::Seeing;
use crate::worker::{Offer, OfferEnd, Turn, TurnEnd, Worker};
use bumpalo::Bump;
use cap_lanes::Putter;
use cap_shared::Shared;
use std::alloc::Global;
use std::marker::Model;
use std::sync::Wait;
use std::time::{Clock, Duration};

/// Ends an epoch, and keeps those that have nothing to do until then.
pub trait StopSignal {
    /// Whether those that schedule are to leave the epoch. Once it is raised it stays so until the epoch has ended.
    fn is_raised<R: Wait>(&self, rt: &R) -> bool;

    /// Waits for so long, or until the signal is raised.
    fn wait<R: Wait + Clock>(&self, rt: &R, pause: Duration);
}

/// What the workers of an epoch look at beside the cluster.
#[derive(Drop)]
pub struct Direction<'a, J: LaneNaming, S, G> {
    pub coordinator: &'a Coordinator<J>,
    pub signal: &'a S,
    pub gate: &'a G,
}

/// What a worker does after a turn.
#[derive(Clone, Copy, PartialEq, Eq)]
enum Next {
    /// Its proposal was made: it proposes again.
    Propose,
    /// Its proposal was rejected: worker 0 proposes again, any other rests for a while.
    GiveWay,
    /// There was nothing to propose: it rests until the journal has grown.
    Rest,
    /// An allocation failed: it rests for a while.
    Retry,
    /// The journal is full.
    Leave,
}

impl Next {
    fn after_turn(end: TurnEnd) -> Next {
        match end {
            TurnEnd::Done(_) => Next::Propose,
            TurnEnd::Rejected(_) => Next::GiveWay,
            TurnEnd::Nothing => Next::Rest,
            TurnEnd::NoMemory => Next::Retry,
            TurnEnd::Sealed(_) => Next::Leave,
        }
    }

    /// Where what was put is answered so.
    fn after_answer(answer: Option<Answer>) -> Next {
        match answer.map(|it| it.outcome) {
            Some(CommitOutcome::Made) => Next::Propose,
            Some(CommitOutcome::Rejected) => Next::GiveWay,
            Some(CommitOutcome::Unmade) | None => Next::Retry,
        }
    }
}

/// A worker that begins an epoch, with a seat that was answered nothing yet, and with its lane, if the epoch has lanes.
#[derive(Drop)]
pub struct Scheduler<J: LaneNaming> {
    alloc: Global,
    worker: Worker,
    seeing: Seeing<J>,
    lane: Option<Lane<J>>,
    ghost fresh: { (seat_of seeing).past ≡ [] },
    ghost own: { ForSome lane (λ l. l.worker ≡ worker.number) },
}

/// A worker that has left an epoch. Its seat was answered what it did: turns one after the other, or offers, and nothing else. Contracts see what the
/// worker was when the epoch began and what it is now, what its seat was answered, and the end of its lane, if it had one.
pub struct Scheduled<J: LaneNaming> {
    /// The worker as the epoch began.
    first: Worker,
    worker: Worker,
    seeing: Seeing<J>,
    ended: Option<EndedLane<J>>,
}

impl<J: LaneNaming> Drop for Scheduled<J> {
    fn drop(self) {
        let Scheduled {
            first: _,
            worker: _,
            seeing: _,
            ended: _,
        } = self;
    }
}

impl<J: LaneNaming> Model for Scheduled<J> {
    ghost use Rattle.cap_workers.specs.Scheduling.{Work, Works, seat_of};

    ghost Value = { Work };

    ghost view = { λ s. record {
      first = s.first;
      worker = s.worker;
      seat = seat_of s.seeing;
      ended = s.ended;
    } };

    ghost invariant = { λ s.
        Works J.opening J.limit s.first s.worker (seat_of s.seeing) s.ended };
}

impl<J: LaneNaming> Scheduler<J> {
    /// A worker whose seat was answered nothing yet.
    pub(crate) fn new(
        alloc: Global,
        worker: Worker,
        seeing: Seeing<J>,
        lane: Option<Lane<J>>,
    ) -> Scheduler<J>
        requires fresh { (seat_of seeing).past ≡ [] }
        requires own { ForSome lane (λ l. l.worker ≡ worker.number) }
        ensures worker { result.worker ≡ worker }
        ensures seat { seat_of result.seeing ≡ seat_of seeing }
    {
        Scheduler {
            alloc,
            worker,
            seeing,
            lane,
        }
    }

    /// The number of the worker.
    pub fn number(&self) -> u32
        ensures { result ≡ self.now.worker.number }
    {
        self.worker.number
    }

    /// The worker, how it sees the cluster, and its lane, if it has one, for whoever takes its turns in its place.
    pub fn into_parts(self) -> (Worker, Seeing<J>, Option<Lane<J>>)
        ensures worker { result.0 ≡ self.worker }
        ensures seeing { result.1 ≡ self.seeing }
        ensures lane { result.2 ≡ self.lane }
    {
        let Scheduler {
            alloc: _,
            worker,
            seeing,
            lane,
        } = self;
        (worker, seeing, lane)
    }

    /// Takes turns until the journal is full or the signal is raised, and commits what each chooses; with a lane it puts that there, and the
    /// lane's end last. At the end it takes what was entered until then, so that little is left to do when the epoch is closed.
    pub fn schedule<R: Wait + Clock, G: Gate, S: StopSignal>(
        self,
        rt: &R,
        shared: &Shared<J>,
        direction: &Direction<'_, J, S, G>,
    ) -> Scheduled<J>
        ensures first { result.first ≡ self.worker }
        ensures number { result.worker.number ≡ self.worker.number }
    {
        let Scheduler {
            alloc,
            worker,
            seeing,
            lane,
        } = self;
        let first = worker;
        let mut turns = Turning {
            alloc,
            arena: Bump::new(alloc),
            worker,
            seeing,
        };
        let ended = turns.take(rt, shared, direction, lane);
        let Turning {
            alloc: _,
            arena: _,
            worker,
            seeing,
        } = turns;
        Scheduled {
            first,
            worker,
            seeing,
            ended,
        }
    }
}

impl<J: LaneNaming> Scheduled<J> {
    /// The worker as the epoch began.
    pub fn first(&self) -> Worker
        ensures { result ≡ self.now.first }
    {
        self.first
    }

    /// The worker, how it sees the cluster, and its lane, if it had one.
    pub(crate) fn into_parts(self) -> (Worker, Seeing<J>, Option<EndedLane<J>>)
        ensures worker { result.0 ≡ self.worker }
        ensures seat { seat_of result.1 ≡ self.seat }
        ensures ended { result.2 ≡ self.ended }
        ensures works { Works J.opening J.limit self.first self.worker self.seat self.ended }
    {
        let Scheduled {
            first: _,
            worker,
            seeing,
            ended,
        } = self;
        (worker, seeing, ended)
    }
}

/// A worker at its turns. Copies are made into its arena.
#[derive(Drop)]
struct Turning<J: LaneNaming> {
    alloc: Global,
    arena: Bump,
    worker: Worker,
    seeing: Seeing<J>,
}

impl<J: LaneNaming> Turning<J> {
    /// Takes turns as it is to, and then what was entered until then.
    fn take<R: Wait + Clock, G: Gate, S: StopSignal>(
        &mut self,
        rt: &R,
        shared: &Shared<J>,
        direction: &Direction<'_, J, S, G>,
        lane: Option<Lane<J>>,
    ) -> Option<EndedLane<J>>
        requires { ForSome lane (λ l. l.worker ≡ self.old.worker.number) }
        ensures { Schedules J.opening J.limit self.old.worker (seat_of self.old.seeing)
            self.new.worker (seat_of self.new.seeing) result }
    {
        let ended = match lane {
            Some(lane) => Some(self.schedule_by_lane(rt, shared, direction, lane)),
            None => {
                self.schedule(rt, shared, direction);
                None
            }
        };
        let _caught_up = self.seeing.catch_up(rt, shared);
        ended
    }

    /// Takes turns, and commits what each chooses, until the journal is full or the signal is raised.
    fn schedule<R: Wait + Clock, G: Gate, S: StopSignal>(
        &mut self,
        rt: &R,
        shared: &Shared<J>,
        direction: &Direction<'_, J, S, G>,
    )
        ensures { Turns J.opening J.limit self.old.worker (seat_of self.old.seeing)
            self.new.worker (seat_of self.new.seeing) }
    {
        let mut rest = Rest::of(self.worker.number);
        for _ in rt.forever() {
            if direction.signal.is_raised(rt) {
                return;
            }
            rest.begin_look(rt, shared);
            let next = Next::after_turn(self.turn(rt, shared, direction.gate));
            if !rest.goes_on(rt, shared, direction.signal, next) {
                return;
            }
        }
    }

    /// Takes a turn.
    fn turn<R: Wait, G: Gate>(&mut self, rt: &R, shared: &Shared<J>, gate: &G) -> TurnEnd
        ensures start { self.new.worker ≡ next_turn self.old.worker }
        ensures turn { IsFollowingTurn J.opening J.limit self.old.worker.start
            (seat_of self.old.seeing) (seat_of self.new.seeing) result }
    {
        match &mut self.seeing {
            Seeing::Following(follower) => self.worker.follow(rt, shared, follower, gate),
            Seeing::Copying(seat) => {
                let Turn { end, reset } = self.worker.turn(rt, shared, seat, &mut self.arena, gate);
                self.renew_arena(reset);
                end
            }
        }
    }

    /// Takes another arena where the last could not be reset.
    fn renew_arena(&mut self, reset: bool)
        ensures worker { self.new.worker ≡ self.old.worker }
        ensures seeing { self.new.seeing ≡ self.old.seeing }
    {
        if !reset {
            self.arena = Bump::new(self.alloc);
        }
    }

    /// Takes turns, and puts what each chooses into its lane, until the journal is full or the signal is raised; then it puts its end into the lane.
    /// After each proposal it waits until that is answered.
    fn schedule_by_lane<R: Wait + Clock, G: Gate, S: StopSignal>(
        &mut self,
        rt: &R,
        shared: &Shared<J>,
        direction: &Direction<'_, J, S, G>,
        lane: Lane<J>,
    ) -> EndedLane<J>
        ensures own { result.worker ≡ lane.worker }
        ensures offers { Offers J.opening self.old.worker (seat_of self.old.seeing)
            (emptied result) self.new.worker (seat_of self.new.seeing) result }
    {
        let mut putter = lane.into_putter();
        self.offer_all(rt, shared, direction, &mut putter);
        let ended = EndedLane::of(rt, putter);
        direction.coordinator.has_finished();
        ended
    }

    /// Makes one offer after the other, until the journal is full or the signal is raised.
    fn offer_all<R: Wait + Clock, G: Gate, S: StopSignal>(
        &mut self,
        rt: &R,
        shared: &Shared<J>,
        direction: &Direction<'_, J, S, G>,
        putter: &mut Putter,
    )
        ensures { Offers J.opening self.old.worker (seat_of self.old.seeing) putter.old
            self.new.worker (seat_of self.new.seeing) putter.new }
    {
        let mut rest = Rest::of(self.worker.number);
        for _ in rt.forever() {
            if direction.signal.is_raised(rt) {
                return;
            }
            rest.begin_look(rt, shared);
            let end = self.offer(rt, shared, direction.gate, putter);
            let next = after_offer(rt, shared, direction, putter.worker(), &end);
            if !rest.goes_on(rt, shared, direction.signal, next) {
                return;
            }
        }
    }

    /// Makes an offer.
    fn offer<R: Wait, G: Gate>(
        &mut self,
        rt: &R,
        shared: &Shared<J>,
        gate: &G,
        putter: &mut Putter,
    ) -> OfferEnd
        ensures start { self.new.worker ≡ next_turn self.old.worker }
        ensures offer { IsFollowingOffer J.opening self.old.worker.start
            (seat_of self.old.seeing) (seat_of self.new.seeing) putter.old putter.new result }
    {
        match &mut self.seeing {
            Seeing::Following(follower) => {
                self.worker
                    .follow_to_lane(rt, shared, follower, putter, gate)
            }
            Seeing::Copying(seat) => {
                let Offer { end, reset } = self
                    .worker
                    .offer(rt, shared, seat, putter, &mut self.arena, gate);
                self.renew_arena(reset);
                end
            }
        }
    }
}

/// What a worker does after an offer. Where something was put, what waits in the lanes is committed first, and the answer awaited.
fn after_offer<J: LaneNaming, R: Wait, G: Gate, S>(
    rt: &R,
    shared: &Shared<J>,
    direction: &Direction<'_, J, S, G>,
    worker: u32,
    end: &OfferEnd,
) -> Next {
    let Direction {
        coordinator,
        gate,
        ..
    } = direction;
    match end {
        OfferEnd::Nothing => Next::Rest,
        OfferEnd::Refused(_) | OfferEnd::NoMemory => Next::Retry,
        OfferEnd::Put => {
            if let Some(outcomes) = commit_lanes(rt, shared, *coordinator) {
                coordinator.notify(*gate, &outcomes);
            }
            Next::after_answer(coordinator.await_answer(rt, worker))
        }
    }
}

/// When a worker rests, and until when.
#[derive(Clone, Copy)]
struct Rest {
    pause: Pause,
    /// How many entries the journal had when the worker began to look at it last.
    seen: usize,
    /// Whether it rests where its proposal was rejected.
    gives_way: bool,
}

impl Rest {
    /// The rest of the worker of this number. All but worker 0 give way.
    fn of(worker: u32) -> Rest {
        Rest {
            pause: Pause::first(),
            seen: 0,
            gives_way: worker != 0,
        }
    }

    /// The worker looks at what the journal has, or at more.
    fn begin_look<J: LaneNaming, R: Clock>(&mut self, rt: &R, shared: &Shared<J>) {
        self.seen = shared.entries();
        self.pause.begin_look(rt);
    }

    /// Rests as is due next. Whether another turn is to be taken.
    fn goes_on<J: LaneNaming, R: Wait + Clock, S: StopSignal>(
        &mut self,
        rt: &R,
        shared: &Shared<J>,
        signal: &S,
        next: Next,
    ) -> bool {
        match next {
            Next::GiveWay if self.gives_way => {
                self.pause.end_look(rt);
                self.pause.wait(rt, signal);
            }
            Next::Propose | Next::GiveWay => {
                self.pause.begin_anew();
                return true;
            }
            Next::Rest => {
                self.pause.end_look(rt);
                self.wait_for_more(rt, shared, signal);
            }
            Next::Retry => self.pause.wait(rt, signal),
            Next::Leave => return false,
        }
        !shared.is_full()
    }

    /// Rests until the journal has grown since the worker looked, or is full, or the signal is raised.
    fn wait_for_more<J: LaneNaming, R: Wait + Clock, S: StopSignal>(
        &mut self,
        rt: &R,
        shared: &Shared<J>,
        signal: &S,
    ) {
        for _ in rt.forever() {
            self.pause.wait(rt, signal);
            if shared.is_full() || shared.entries() != self.seen || signal.is_raised(rt) {
                return;
            }
        }
    }
}
