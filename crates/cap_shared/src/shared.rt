//! The cluster that threads share, with its seats (`Shared`), and what one thread does under one lock (`Hold`).
ghost use Rattle.std.specs.Prelude.{◌≡◌, ℕ, ◌<◌, ◌≤◌, [], length, map, vec_capacity, IfOk, OnOk, OnErr, MatchResult};
ghost use Rattle.cap_base.specs.Limits.{resources};
ghost use Rattle.cap_copy.specs.Snapshot.{sight_in};
ghost use Rattle.cap_copy.specs.Sources.{sight_of_copy};
ghost use Rattle.cap_shared.specs.Following.{Follows, IsNews};
ghost use Rattle.cap_shared.specs.Calls.{CallsOk, IsCalled, CallsBack, CallMisses, CommitAnswers, CommitsBack, CopyIs};
ghost use Rattle.cap_shared.specs.Journal.{Replays, TagsBelow, AllHonest};
ghost use Rattle.cap_shared.specs.Parts.{report_of};
ghost use Rattle.cap_shared.specs.WordRule.{first_view, fresh, keeper, AllFit, times};

use crate::blank::Blank;
use crate::closed::{Closed, SeatReport};
use crate::desk::Desk;
use crate::entry::Entry;
use crate::faults::{CallFault, CommitFault, Fault};
use crate::history::{Mark, View};
use crate::news::Piece;
use crate::passes::{Pass, Word};
use crate::replica::Replica;
use crate::seat::{Naming, Seat};
use crate::tally::Tally;
use crate::turnstile::{Place, Turnstile};
use crate::word_rule::{Compares, Handover, JournalRule};
use atomic_table::Table;
use bumpalo::Bump;
use cap_base::RESOURCES;
use cap_commit::Cluster;
use cap_copy::{ClusterCopy, Snapshot};
use cap_messages::ReadyRequest;
use cap_model::{NoMemory, OwnedReply, Proposal, Request, Verdict};
use std::alloc::Global;
use std::marker::PhantomData;
use std::sync::{Mutex, MutexGuard, Wait};

/// A cluster under a lock, its journal, and the word that ties both to the seats. Threads share it by reference, each with a seat.
pub struct Shared<J: Naming> {
    alloc: Global,
    table: Table<Mark, View, u64, JournalRule, Global>,
    turnstile: Turnstile,
    tally: Tally,
    desk: Mutex<Desk<J>>,
    room: Vec<SeatReport>,
    ghost named: { table.shared.table_id ≡ J.table },
    ghost word: { 0 < table.shared.table_id.words },
    ghost empty: { room.items ≡ [] },
    ghost roomy: { J.seats ≤ vec_capacity room },
}

impl<J: Naming> Drop for Shared<J> {
    fn drop(self) {
        let Shared {
            alloc: _,
            table: _,
            turnstile: _,
            tally: _,
            desk: _,
            room: _,
        } = self;
    }
}

/// A cluster that one thread holds for some calls, commits and copies. All others wait until it is dropped.
pub struct Hold<'a, J: Naming> {
    alloc: Global,
    word: &'a Word,
    tally: &'a Tally,
    desk: MutexGuard<'a, Desk<J>>,
    /// Of one that calls, its place before the lock.
    place: Option<MutexGuard<'a, Place>>,
    ghost named: { word.now.table_id ≡ J.table },
    ghost some: { 0 < word.now.table_id.words },
}

impl<'a, J: Naming> Drop for Hold<'a, J> {
    fn drop(self) {
        let Hold {
            alloc: _,
            word: _,
            tally,
            desk,
            place,
        } = self;
        tally.keep(desk.entries());
        drop(desk);
        drop(place);
    }
}

impl<'a, J: Naming> Hold<'a, J> {
    /// Makes a call that is ready, as `Shared::call`; its reply is in the last receipt of the seat. The entry and the receipt share the
    /// lists of the request.
    pub fn call(&mut self, seat: &mut Seat<J>, ready: &ReadyRequest<'_>) -> Result<(), Fault>
        ensures answer { MatchResult result (λ _. IsCalled ready.now seat.old seat.new)
            (CallMisses ready.now J.limit seat.old seat.new) }
    {
        self.desk.call(self.alloc, self.word, seat, ready)
    }

    /// The same call with its reply in memory of its own.
    fn call_for_reply(
        &mut self,
        seat: &mut Seat<J>,
        ready: &ReadyRequest<'_>,
    ) -> Result<OwnedReply<RESOURCES>, Fault>
        ensures answer { MatchResult result (CallsOk ready.now seat.old seat.new)
            (CallMisses ready.now J.limit seat.old seat.new) }
    {
        self.desk.call_for_reply(self.alloc, self.word, seat, ready)
    }

    /// Makes a proposal if it is admissible, as `Shared::commit`.
    pub fn commit(
        &mut self,
        seat: &mut Seat<J>,
        proposal: Proposal<RESOURCES>,
    ) -> Result<Verdict<RESOURCES>, CommitFault>
        ensures { MatchResult result (CommitAnswers proposal seat.old seat.new)
            (CommitsBack proposal J.limit seat.old seat.new) }
    {
        self.desk.commit(self.word, seat, proposal)
    }

    /// A copy of the cluster in an arena, of which `arrange` makes the snapshot once the cluster is given back. If an allocation fails
    /// nothing changes.
    pub fn copy<'b>(
        &mut self,
        arena: &'b Bump,
        seat: &mut Seat<J>,
    ) -> Result<ClusterCopy<RESOURCES, &'b Bump>, NoMemory>
        ensures { MatchResult result
            (λ copied. CopyIs J.opening seat.old seat.new (sight_of_copy resources copied))
            (λ _. seat.new ≡ seat.old) }
    {
        self.desk.copy(arena, self.word, seat)
    }

    /// What was entered since a replica of this thread looked last, `PIECE_MAX` entries at most, with a note of a copy. Once it has caught up
    /// with all, which takes no lock, the replica is the cluster as it was then; where they are not all, the next call gives more. The replica
    /// follows the journal of this seat. If an allocation fails nothing changes.
    pub fn news(&mut self, seat: &mut Seat<J>, replica: &Replica<J>) -> Result<Piece, NoMemory>
        requires { Follows replica.now.log seat.old.past }
        ensures { MatchResult result
            (λ piece. IsNews J.opening replica.now.log seat.old seat.new piece.news piece.are_all)
            (λ _. seat.new ≡ seat.old) }
    {
        self.desk.news(self.alloc, self.word, seat, replica)
    }

    /// Whether the journal is full.
    pub fn is_full(&self) -> bool {
        self.desk.is_full()
    }

    /// How many entries the journal has.
    pub fn entries(&self) -> usize {
        self.desk.entries()
    }
}

impl<J: Naming> Shared<J> {
    /// Makes a call. It is entered in the journal, whatever it is answered, and the seat has a receipt. If the journal is full, or if
    /// an allocation fails, the request comes back and nothing changes; `Refusal::NoMemory` is never a reply. A full journal is told first.
    /// The property lines of a Refresh are read before the cluster is held.
    pub fn call<R: Wait>(
        &self,
        rt: &R,
        seat: &mut Seat<J>,
        request: Request<RESOURCES>,
    ) -> Result<OwnedReply<RESOURCES>, CallFault>
        ensures { MatchResult result (CallsOk request seat.old seat.new)
            (CallsBack request J.limit seat.old seat.new) }
    {
        let ready = self.ready(&request);
        let answer = self.hold(rt).call_for_reply(seat, &ready);
        drop(ready);
        match answer {
            Ok(reply) => Ok(reply),
            Err(Fault::Sealed) => Err(CallFault::Sealed(request)),
            Err(Fault::NoMemory) => Err(CallFault::NoMemory(request)),
        }
    }

    /// Makes a request ready for `Hold::call`: the property lines of a Refresh are read here. It takes no lock.
    pub fn ready<'a>(&self, request: &'a Request<RESOURCES>) -> ReadyRequest<'a>
        ensures { result ≡ request.now }
    {
        ReadyRequest::of(self.alloc, request)
    }

    /// Holds the cluster for some calls, which then take the lock once.
    pub fn hold<R: Wait>(&self, rt: &R) -> Hold<'_, J> {
        let place = self.turnstile.line_up(rt);
        let desk = self.desk.lock(rt);
        self.turnstile.has_entered();
        self.held(desk, Some(place))
    }

    /// The same for a thread that schedules. It waits for a few calls of others at most, however many threads call.
    pub fn hold_to_schedule<R: Wait>(&self, rt: &R) -> Hold<'_, J> {
        let place = self.turnstile.go_first(rt);
        let desk = self.turnstile.lock_to_schedule(rt, &self.desk);
        self.turnstile.has_gone(place);
        self.held(desk, None)
    }

    /// The cluster, held.
    fn held<'a>(
        &'a self,
        desk: MutexGuard<'a, Desk<J>>,
        place: Option<MutexGuard<'a, Place>>,
    ) -> Hold<'a, J> {
        Hold {
            alloc: self.alloc,
            word: &self.table.shared,
            tally: &self.tally,
            desk,
            place,
        }
    }

    /// Makes a proposal if it is admissible now: it is entered in the journal, and the seat has a receipt. Else it is rejected for the
    /// first reason that holds, and nothing changes; that takes no memory. If the journal is full, or if the proposal is admissible
    /// and an allocation fails, it comes back and nothing changes. A full journal is told first.
    pub fn commit<R: Wait>(
        &self,
        rt: &R,
        seat: &mut Seat<J>,
        proposal: Proposal<RESOURCES>,
    ) -> Result<Verdict<RESOURCES>, CommitFault>
        ensures { MatchResult result (CommitAnswers proposal seat.old seat.new)
            (CommitsBack proposal J.limit seat.old seat.new) }
    {
        self.hold_to_schedule(rt).commit(seat, proposal)
    }

    /// A snapshot of the cluster in an arena, which is copied under the lock and arranged after it. If an allocation fails nothing
    /// changes.
    pub fn copy<'a, R: Wait>(
        &self,
        rt: &R,
        arena: &'a Bump,
        seat: &mut Seat<J>,
    ) -> Result<Snapshot<RESOURCES, &'a Bump>, NoMemory>
        ensures { MatchResult result
            (λ snapshot. CopyIs J.opening seat.old seat.new (sight_in resources snapshot))
            (λ _. seat.new ≡ seat.old) }
    {
        let copied = self.hold_to_schedule(rt).copy(arena, seat);
        match copied {
            Ok(copied) => Ok(copied.arrange()),
            Err(NoMemory) => Err(NoMemory),
        }
    }

    /// Whether the journal was full when a thread gave the cluster back last. Once it is full, it stays so. This takes no lock.
    pub fn is_full(&self) -> bool {
        self.tally.is_full()
    }

    /// How many entries the journal had when a thread gave the cluster back last. Another thread may have entered more. This takes no lock.
    pub fn entries(&self) -> usize {
        self.tally.entries()
    }

    /// Opens an epoch over a cluster, with a journal of at most so many entries, and seats that were answered nothing. The journal, room for
    /// the receipts of an even share of it in each seat, and all that `close` needs are allocated here. If an allocation fails the cluster
    /// is given up.
    pub fn open(
        alloc: Global,
        blank: Blank,
        cluster: Cluster<RESOURCES>,
        limit: usize,
    ) -> Result<(Shared<J>, Vec<Seat<J>>), NoMemory>
        requires named { blank.0 ≡ J.table }
        requires opening { cluster.flat ≡ J.opening }
        requires limit { limit ≡ J.limit }
        requires seats { blank.1 ≡ J.seats }
        requires some { (1 ≤ J.limit) × (J.limit ≤ 1000000) }
        requires few { (1 ≤ J.seats) × (J.seats ≤ 256) }
        ensures seats { IfOk result (λ r. r.1.items ≡ fresh 0 J.seats) }
        ensures count { IfOk result (λ r. length r.1.items ≡ J.seats) }
    {
        let Blank {
            table,
            mut pass,
            seats: count,
        } = blank;
        let made = rooms(alloc, &table.shared, &mut pass, limit, count);
        let Ok((journal, room, seats)) = made else {
            return Err(NoMemory);
        };
        let desk = Desk {
            cluster,
            journal,
            limit,
            pass,
            of: PhantomData,
        };
        Ok((
            Shared {
                alloc,
                table,
                turnstile: Turnstile::new(),
                tally: Tally::new(limit),
                desk: Mutex::new(desk),
                room,
            },
            seats,
        ))
    }

    /// Closes an epoch; all its seats come back. The journal leads from the opening cluster to the closing one, each of its entries is of a
    /// seat that `open` gave, and the receipts of each seat are exactly those for its entries. It takes no memory.
    pub fn close(self, seats: Vec<Seat<J>>) -> Closed
        requires { length seats.items ≡ J.seats }
        ensures run { Replays J.opening result.journal.items result.cluster.flat }
        ensures limit { length result.journal.items ≤ J.limit }
        ensures tags { TagsBelow J.seats result.journal.items }
        ensures apart { (x : ℕ) → times x seats.items ≤ 1 }
        ensures fit { AllFit result.journal.items seats.items }
        ensures honest { AllHonest J.opening J.limit seats.items }
        ensures reports { result.seats.items ≡ map report_of seats.items }
    {
        let Shared {
            alloc: _,
            table,
            turnstile: _,
            tally: _,
            desk,
            mut room,
        } = self;
        let Desk {
            cluster,
            journal,
            limit: _,
            mut pass,
            of: _,
        } = desk.into_inner();
        for seat in seats {
            let (number, receipts, own) = seat.into_parts();
            table.shared.join_seat::<Handover>(&mut pass, own);
            room.push_reserved(SeatReport::new(number, receipts));
        }
        table.shared.load::<Compares>(&mut pass, 0);
        Closed {
            cluster,
            journal,
            seats: room,
        }
    }
}

/// Room for a journal and for the reports of so many seats, and the seats, whose sittings the pass hands out. If an allocation fails there
/// are none.
fn rooms<J: Naming>(
    alloc: Global,
    word: &Word,
    pass: &mut Pass,
    limit: usize,
    count: u32,
) -> Result<(Vec<Entry>, Vec<SeatReport>, Vec<Seat<J>>), NoMemory>
    requires word { (word.now.table_id ≡ J.table) × (0 < word.now.table_id.words) }
    requires pass { (pass.old.table_id ≡ J.table) × (pass.old.me ≡ (first_view J.seats, [])) }
    requires count { count ≡ J.seats }
    requires some { (1 ≤ J.limit) × (J.limit ≤ 1000000) }
    requires few { (1 ≤ J.seats) × (J.seats ≤ 256) }
    requires limit { limit ≡ J.limit }
    ensures journal { IfOk result (λ r. (r.0.items ≡ []) × (limit ≤ vec_capacity r.0)) }
    ensures reports { IfOk result (λ r. (r.1.items ≡ []) × (J.seats ≤ vec_capacity r.1)) }
    ensures seats { IfOk result (λ r. r.2.items ≡ fresh 0 J.seats) }
    ensures pass { OnOk result (pass.new.table_id ≡ J.table) }
    ensures keeps { OnOk result (pass.new.me ≡ (keeper [], [])) }
{
    let Ok(journal) = Vec::with_capacity(alloc, limit) else {
        return Err(NoMemory);
    };
    let Ok(reports) = Vec::with_capacity(alloc, count as usize) else {
        return Err(NoMemory);
    };
    let Ok(mut seats) = Vec::with_capacity(alloc, count as usize) else {
        return Err(NoMemory);
    };
    let share = limit / count as usize;
    for number in 0..count {
        let Ok(receipts) = Vec::with_capacity(alloc, share) else {
            return Err(NoMemory);
        };
        let own = word.split_seat::<Handover>(pass);
        seats.push_reserved(Seat {
            number,
            receipts,
            pass: own,
            of: PhantomData,
        });
    }
    Ok((journal, reports, seats))
}
