//! What lies under the lock: the cluster, its journal, and the pass that knows the journal (`Desk`).
ghost use Rattle.std.specs.Prelude.{◌≡◌, ◌<◌, ◌≤◌, MatchResult, IfErr, OnErr, length, ◌↔◌, IsTrue, None};
ghost use Rattle.cap_model.specs.Sight.{sight_of};
ghost use Rattle.cap_base.specs.Limits.{resources};
ghost use Rattle.cap_copy.specs.Sources.{sight_of_copy};
ghost use Rattle.cap_model.specs.Admission.{reason_of};
ghost use Rattle.cap_commit.specs.Admission.{taken_back};
ghost use Rattle.cap_shared.specs.Calls.{CallsOk, IsCalledOn, CallMisses, CommitAnswers, CommitsBack, CopyIs, TellsFull, TellsFullFirst};
ghost use Rattle.cap_shared.specs.Following.{Follows, IsNews};

use crate::call_room::{CallRoom, is_no_memory, make_call, own_copies};
use crate::entry::{Entry, Receipt};
use crate::faults::{CommitFault, Fault};
use crate::making::make_proposed;
use crate::marks::{
    compare, enter, next_position, note_copied, note_no_memory, note_rejected, note_sealed_call,
    note_sealed_commit,
};
use crate::news::Piece;
use crate::passes::{Pass, Word};
use crate::replica::Replica;
use crate::seat::{Naming, Seat};
use bumpalo::Bump;
use cap_base::RESOURCES;
use cap_commit::Cluster;
use cap_copy::ClusterCopy;
use cap_messages::ReadyRequest;
use cap_model::{Event, NoMemory, OwnedReply, Proposal, Request, Verdict};
use cap_sights::copy_in;
use cap_vector::Resource;
use std::alloc::Global;
use std::marker::{Model, PhantomData};

/// The cluster and its journal, with the pass that knows the journal.
#[derive(Drop)]
pub struct Desk<J: Naming> {
    pub(crate) cluster: Cluster<RESOURCES>,
    pub(crate) journal: Vec<Entry>,
    pub(crate) limit: usize,
    pub(crate) pass: Pass,
    pub(crate) of: PhantomData<J>,
}

impl<J: Naming> Model for Desk<J> {
    ghost use Rattle.cap_shared.specs.Parts.{Content, IsDesk};
    ghost use Rattle.std.specs.Prelude.{vec_capacity};

    ghost Value = { Content };

    ghost view = { λ d. record { cluster = d.cluster.flat; log = d.journal.items } };

    ghost invariant = { λ d. IsDesk J.table J.opening J.limit J.seats d.cluster.flat
        d.journal.items d.pass.table_id d.pass.me d.limit (vec_capacity d.journal) };
}

impl<J: Naming> Desk<J> {
    /// Whether the journal is full.
    pub fn is_full(&self) -> bool
        ensures { IsTrue result ↔ (J.limit ≤ length self.now.log) }
    {
        self.journal.len() >= self.limit
    }

    /// How many entries the journal has.
    pub fn entries(&self) -> usize
        ensures { result ≡ length self.now.log }
    {
        self.journal.len()
    }

    /// Makes a call that is ready, with an entry and a receipt, which has its reply; both share the lists of the request. A full journal is told
    /// first, and noted; if an allocation fails nothing changes.
    pub fn call(
        &mut self,
        alloc: Global,
        word: &Word,
        seat: &mut Seat<J>,
        ready: &ReadyRequest<'_>,
    ) -> Result<(), Fault>
        requires word { (word.now.table_id ≡ J.table) × (0 < word.now.table_id.words) }
        ensures answer { MatchResult result
            (λ _. IsCalledOn self.old.cluster ready.now self.new.cluster seat.old seat.new)
            (CallMisses ready.now J.limit seat.old seat.new) }
        ensures full { IfErr result (TellsFull J.limit self.old.log) }
    {
        if self.journal.len() >= self.limit || self.answer(alloc, word, seat, ready).is_err() {
            return Err(self.miss(word, seat, ready.request()));
        }
        Ok(())
    }

    /// The same call with its reply in memory of its own, which is made first.
    pub fn call_for_reply(
        &mut self,
        alloc: Global,
        word: &Word,
        seat: &mut Seat<J>,
        ready: &ReadyRequest<'_>,
    ) -> Result<OwnedReply<RESOURCES>, Fault>
        requires word { (word.now.table_id ≡ J.table) × (0 < word.now.table_id.words) }
        ensures answer { MatchResult result (CallsOk ready.now seat.old seat.new)
            (CallMisses ready.now J.limit seat.old seat.new) }
        ensures full { IfErr result (TellsFull J.limit self.old.log) }
    {
        let Ok(room) = self.cluster.reply_room(alloc, ready.request()) else {
            return Err(self.miss(word, seat, ready.request()));
        };
        self.call(alloc, word, seat, ready)?;
        match seat.receipts().last() {
            Some(Receipt::Call { reply, .. }) => Ok(room.own(&reply.view())),
            Some(Receipt::Commit { .. }) => unreachable!(),
            None => unreachable!(),
        }
    }

    /// Why a call is not made: the journal is full, which is noted, or an allocation has failed.
    fn miss(&mut self, word: &Word, seat: &mut Seat<J>, request: &Request<RESOURCES>) -> Fault
        requires word { (word.now.table_id ≡ J.table) × (0 < word.now.table_id.words) }
        ensures answer { CallMisses request.now J.limit seat.old seat.new result }
        ensures full { TellsFull J.limit self.old.log result }
        ensures same { self.new.log ≡ self.old.log }
    {
        if self.journal.len() >= self.limit {
            note_sealed_call(word, &mut self.pass, &self.journal, &mut seat.pass, request);
            return Fault::Sealed;
        }
        compare(word, &mut self.pass, &self.journal, &mut seat.pass);
        Fault::NoMemory
    }

    /// Makes a call, with room in the journal.
    fn answer(
        &mut self,
        alloc: Global,
        word: &Word,
        seat: &mut Seat<J>,
        ready: &ReadyRequest<'_>,
    ) -> Result<(), NoMemory>
        requires word { (word.now.table_id ≡ J.table) × (0 < word.now.table_id.words) }
        requires room { length self.old.log < J.limit }
        ensures answer { MatchResult result
            (λ _. IsCalledOn self.old.cluster ready.now self.new.cluster seat.old seat.new)
            (λ _. seat.new ≡ seat.old) }
        ensures same { OnErr result (self.new.log ≡ self.old.log) }
    {
        let request = ready.request();
        let Ok(room) = CallRoom::of(alloc, &self.cluster, &mut seat.receipts, request) else {
            return Err(NoMemory);
        };
        let answer = make_call(&mut self.cluster, ready);
        if is_no_memory(&answer) {
            return Err(NoMemory);
        }
        let copies = own_copies(alloc, room.news, &self.cluster, &answer);
        let position = next_position(&self.journal);
        let by = seat.number;
        let event = Event::Call {
            by,
            request: room.entry,
            reply: copies.entry,
        };
        enter(
            word,
            &mut self.pass,
            &mut self.journal,
            &mut seat.pass,
            &mut seat.receipts,
            Entry { seat: by, event },
            Receipt::Call {
                position,
                request: room.receipt,
                reply: copies.receipt,
            },
        );
        Ok(())
    }

    /// Makes a proposal that is admissible now, with an entry and a receipt. A full journal is told first. A rejection, a full journal and
    /// a failed allocation are noted. A rejection takes no memory.
    pub fn commit(
        &mut self,
        word: &Word,
        seat: &mut Seat<J>,
        proposal: Proposal<RESOURCES>,
    ) -> Result<Verdict<RESOURCES>, CommitFault>
        requires word { (word.now.table_id ≡ J.table) × (0 < word.now.table_id.words) }
        ensures answer { MatchResult result (CommitAnswers proposal seat.old seat.new)
            (CommitsBack proposal J.limit seat.old seat.new) }
        ensures full { IfErr result (TellsFullFirst J.limit self.old.log) }
    {
        if self.journal.len() >= self.limit {
            note_sealed_commit(
                word,
                &mut self.pass,
                &self.journal,
                &mut seat.pass,
                &proposal,
            );
            return Err(CommitFault::Sealed(proposal));
        }
        match self.cluster.admit(&proposal) {
            Ok(old) => self.make(word, seat, proposal, &old),
            Err(reason) => {
                note_rejected(
                    word,
                    &mut self.pass,
                    &self.journal,
                    &mut seat.pass,
                    &proposal,
                    &reason,
                );
                Ok(Verdict::Rejected(reason))
            }
        }
    }

    /// Makes a proposal that was admitted, and takes this room back, with room in the journal.
    fn make(
        &mut self,
        word: &Word,
        seat: &mut Seat<J>,
        proposal: Proposal<RESOURCES>,
        old: &Resource<RESOURCES>,
    ) -> Result<Verdict<RESOURCES>, CommitFault>
        requires word { (word.now.table_id ≡ J.table) × (0 < word.now.table_id.words) }
        requires room { length self.old.log < J.limit }
        requires admitted { reason_of (sight_of self.old.cluster) proposal ≡ None }
        requires old { old.now ≡ taken_back (sight_of self.old.cluster) proposal }
        ensures answer { MatchResult result (CommitAnswers proposal seat.old seat.new)
            (CommitsBack proposal J.limit seat.old seat.new) }
        ensures full { IfErr result (TellsFullFirst J.limit self.old.log) }
    {
        let Ok(made) = make_proposed(&mut self.cluster, &mut seat.receipts, &proposal, old) else {
            note_no_memory(
                word,
                &mut self.pass,
                &self.journal,
                &mut seat.pass,
                &proposal,
            );
            return Err(CommitFault::NoMemory(proposal));
        };
        let at = next_position(&self.journal);
        let number = seat.number;
        enter(
            word,
            &mut self.pass,
            &mut self.journal,
            &mut seat.pass,
            &mut seat.receipts,
            Entry {
                seat: number,
                event: made.event(),
            },
            Receipt::Commit {
                position: at,
                event: made.event(),
            },
        );
        Ok(Verdict::Done(made.event()))
    }

    /// A copy of the cluster as it is, which is noted. If an allocation fails nothing changes.
    pub fn copy<'a>(
        &mut self,
        arena: &'a Bump,
        word: &Word,
        seat: &mut Seat<J>,
    ) -> Result<ClusterCopy<RESOURCES, &'a Bump>, NoMemory>
        requires word { (word.now.table_id ≡ J.table) × (0 < word.now.table_id.words) }
        ensures { MatchResult result
            (λ copied. CopyIs J.opening seat.old seat.new (sight_of_copy resources copied))
            (λ _. seat.new ≡ seat.old) }
    {
        let Ok(copied) = copy_in(arena, &self.cluster) else {
            return Err(NoMemory);
        };
        note_copied(word, &mut self.pass, &self.journal, &mut seat.pass);
        Ok(copied)
    }

    /// What was entered since a replica looked last, or the first piece of it, with a note of a copy: with all of it the replica is to be the
    /// cluster as it is now. If an allocation fails nothing changes.
    pub fn news(
        &mut self,
        alloc: Global,
        word: &Word,
        seat: &mut Seat<J>,
        replica: &Replica<J>,
    ) -> Result<Piece, NoMemory>
        requires word { (word.now.table_id ≡ J.table) × (0 < word.now.table_id.words) }
        requires follows { Follows replica.now.log seat.old.past }
        ensures { MatchResult result
            (λ piece. IsNews J.opening replica.now.log seat.old seat.new piece.news piece.are_all)
            (λ _. seat.new ≡ seat.old) }
    {
        let Ok(piece) = Piece::after(alloc, &self.journal, replica.followed()) else {
            return Err(NoMemory);
        };
        note_copied(word, &mut self.pass, &self.journal, &mut seat.pass);
        Ok(piece)
    }
}
