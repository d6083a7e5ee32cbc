//! A worker that follows the journal: a seat with a cluster of its own (`Follower`), and the turns that are taken on it.
ghost use Rattle.std.specs.Prelude.{◌≡◌, MatchResult};
ghost use Rattle.cap_shared.specs.Following.{Follows};
ghost use Rattle.cap_workers.specs.Following.{CatchesUp, ChoosesNow, IsFollowingOffer, IsFollowingTurn, Notes, TakesPiece};
ghost use Rattle.cap_workers.specs.Worker.{IsCommitted, next_turn};

use crate::gate::{Gate, Point};
use crate::worker::{OfferEnd, TurnEnd, Worker, put};
use cap_base::RESOURCES;
use cap_commit::Cluster;
use cap_lanes::Putter;
use cap_live::propose_live;
use cap_model::{NoMemory, Proposal};
use cap_shared::{Naming, Piece, Replica, Seat, Shared};
use std::alloc::Global;
use std::marker::Model;
use std::sync::Wait;

/// A seat, and a replica that has followed what the seat was noted. Contracts see what the seat was answered.
pub struct Follower<J: Naming> {
    seat: Seat<J>,
    replica: Replica<J>,
}

impl<J: Naming> Drop for Follower<J> {
    fn drop(self) {
        let Follower {
            seat: _,
            replica: _,
        } = self;
    }
}

impl<J: Naming> Model for Follower<J> {
    ghost use Rattle.cap_shared.specs.Following.{Follows};
    ghost use Rattle.cap_shared.specs.declared.history.Sitting.{Sitting};

    ghost Value = { Sitting };

    ghost view = { λ f. f.seat };

    ghost invariant = { λ f. Follows f.replica.log f.seat.past };
}

impl<J: Naming> Follower<J> {
    /// A seat, and a cluster of this thread's own that is the same as the opening of the epoch.
    pub fn open(alloc: Global, seat: Seat<J>, cluster: Cluster<RESOURCES>) -> Follower<J>
        requires { cluster.flat ≡ J.opening }
        ensures { result ≡ seat }
    {
        Follower {
            seat,
            replica: Replica::open(alloc, cluster),
        }
    }

    /// The seat, to be given back at the end of the epoch, and the replica, to open the next epoch with (`Replica::close`).
    pub fn into_parts(self) -> (Seat<J>, Replica<J>)
        ensures seat { result.0 ≡ self }
        ensures follows { Follows result.1.log result.0.past }
    {
        let Follower { seat, replica } = self;
        (seat, replica)
    }

    /// Takes what was entered since it looked last, with notes of copies, and makes that again. If an allocation fails it has made some of it again, or
    /// nothing, and goes on from there the next time.
    pub(crate) fn catch_up<R: Wait>(&mut self, rt: &R, shared: &Shared<J>) -> Result<(), NoMemory>
        ensures { Notes J.opening self.old self.new }
    {
        catch_up(rt, shared, &mut self.seat, &mut self.replica)
    }

    /// What is proposed in this turn on the replica, once it has caught up. If an allocation fails there is no proposal.
    fn choose<R: Wait, G: Gate>(
        &mut self,
        rt: &R,
        shared: &Shared<J>,
        gate: &G,
        turn: Worker,
    ) -> Result<Option<Proposal<RESOURCES>>, NoMemory>
        ensures { MatchResult result (ChoosesNow J.opening turn.start self.old self.new)
            (λ _. Notes J.opening self.old self.new) }
    {
        let Ok(()) = catch_up(rt, shared, &mut self.seat, &mut self.replica) else {
            return Err(NoMemory);
        };
        gate.at(turn.number, Point::Copied);
        let choice = propose_live(self.replica.cluster(), turn.start);
        gate.at(turn.number, Point::Proposed);
        Ok(choice)
    }

    /// Commits a worker's proposal, once.
    fn commit<R: Wait, G: Gate>(
        &mut self,
        rt: &R,
        shared: &Shared<J>,
        worker: &Worker,
        gate: &G,
        proposal: Proposal<RESOURCES>,
    ) -> TurnEnd
        ensures { IsCommitted proposal J.limit self.old self.new result }
    {
        worker.commit(rt, shared, &mut self.seat, gate, proposal)
    }
}

/// Takes what was entered since the replica looked last, piece by piece, each with a note of a copy, until it has followed all that the last note has.
/// If an allocation fails it has followed some of that, or nothing.
fn catch_up<J: Naming, R: Wait>(
    rt: &R,
    shared: &Shared<J>,
    seat: &mut Seat<J>,
    replica: &mut Replica<J>,
) -> Result<(), NoMemory>
    requires { Follows replica.old.log seat.old.past }
    ensures caught { MatchResult result (λ _. CatchesUp J.opening replica.new seat.old seat.new)
        (λ _. Notes J.opening seat.old seat.new) }
    ensures follows { Follows replica.new.log seat.new.past }
{
    for _ in rt.forever() {
        match take_piece(rt, shared, seat, replica) {
            Ok(true) => return Ok(()),
            Ok(false) => {}
            Err(NoMemory) => return Err(NoMemory),
        }
    }
    unreachable!()
}

/// Takes a piece of what was entered since the replica looked last, with a note of a copy, and makes it again. Whether that was all. If an allocation
/// fails it has made some of it again, or nothing.
fn take_piece<J: Naming, R: Wait>(
    rt: &R,
    shared: &Shared<J>,
    seat: &mut Seat<J>,
    replica: &mut Replica<J>,
) -> Result<bool, NoMemory>
    requires { Follows replica.old.log seat.old.past }
    ensures taken { MatchResult result (TakesPiece J.opening replica.new seat.old seat.new)
        (λ _. Notes J.opening seat.old seat.new) }
    ensures follows { Follows replica.new.log seat.new.past }
{
    let Ok(piece) = shared.hold_to_schedule(rt).news(seat, replica) else {
        return Err(NoMemory);
    };
    let Piece { news, are_all } = piece;
    match replica.catch_up(news) {
        Ok(()) => Ok(are_all),
        Err(NoMemory) => Err(NoMemory),
    }
}

impl Worker {
    /// Takes a turn, as `turn`, on a replica: under the lock it takes what was entered since the last turn, and notes a copy. Outside of
    /// the lock the replica makes all of that again, and then is the cluster of the note, on which it proposes. A replica that lags far
    /// behind takes some pieces of that before, each with a note of its own, so that it holds nobody up. If an allocation fails nothing
    /// is committed, and the replica goes on from where it is in the next turn.
    pub fn follow<J: Naming, R: Wait, G: Gate>(
        &mut self,
        rt: &R,
        shared: &Shared<J>,
        follower: &mut Follower<J>,
        gate: &G,
    ) -> TurnEnd
        ensures start { self.new ≡ next_turn self.old }
        ensures turn { IsFollowingTurn J.opening J.limit self.old.start
            follower.old follower.new result }
    {
        let turn = self.next();
        match follower.choose(rt, shared, gate, turn) {
            Ok(Some(proposal)) => follower.commit(rt, shared, self, gate, proposal),
            Ok(None) => TurnEnd::Nothing,
            Err(NoMemory) => TurnEnd::NoMemory,
        }
    }

    /// The same as `follow`, but what it proposes is put into the worker's lane, for the committer, and waits there while the lane is full.
    /// If an allocation fails nothing is put.
    pub fn follow_to_lane<J: Naming, R: Wait, G: Gate>(
        &mut self,
        rt: &R,
        shared: &Shared<J>,
        follower: &mut Follower<J>,
        putter: &mut Putter,
        gate: &G,
    ) -> OfferEnd
        ensures start { self.new ≡ next_turn self.old }
        ensures offer { IsFollowingOffer J.opening self.old.start follower.old follower.new
            putter.old putter.new result }
    {
        let turn = self.next();
        match follower.choose(rt, shared, gate, turn) {
            Ok(Some(proposal)) => put(rt, putter, proposal),
            Ok(None) => OfferEnd::Nothing,
            Err(NoMemory) => OfferEnd::NoMemory,
        }
    }
}
