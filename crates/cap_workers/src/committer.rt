//! The committer's end of the lanes of an epoch, with the seat that it commits with (`LaneCommitter`), the same once all lanes have ended
//! (`FinishedLanes`), and how the lanes are closed.
ghost use Rattle.std.specs.Prelude.{◌≡◌, ◌+◌, ◌++◌, ◌↔◌, [], Some, All, IfOk, IsTrue, length};
ghost use Rattle.std.specs.Option.{option_to_list};
ghost use Rattle.cap_lanes.specs.Sides.{AllOver};
ghost use Rattle.cap_workers.specs.Committing.{CommitsTaken, held_in};
ghost use Rattle.cap_workers.specs.Lanes.{IsCommitting, IsLane, LanesEnd, StayIn};

use crate::committing::commit_waiting;
use crate::coordinator::Outcomes;
use crate::lane::{EndedLane, LaneNaming};
use crate::mailbox::{Mailboxes, Posted};
use cap_lanes::{Committer, Ended};
use cap_model::NoMemory;
use cap_shared::{Hold, Seat};
use std::alloc::Global;
use std::marker::Model;
use std::sync::Wait;

/// What is committed out of the lanes of an epoch, and the seat that it is committed with by whoever holds the cluster. Contracts see the
/// committer's end, what the seat was answered, and what was put into mailboxes: all that was taken out of the lanes was committed, in order, each once,
/// what came of each was put into the mailbox of its worker, and nothing else was done.
pub struct LaneCommitter<J: LaneNaming> {
    committer: Committer,
    seat: Seat<J>,
    /// The lanes that have ended without a worker.
    ended: Vec<EndedLane<J>>,
    posted: Posted,
}

impl<J: LaneNaming> Drop for LaneCommitter<J> {
    fn drop(self) {
        let LaneCommitter {
            committer: _,
            seat: _,
            ended: _,
            posted: _,
        } = self;
    }
}

impl<J: LaneNaming> Model for LaneCommitter<J> {
    ghost use Rattle.cap_workers.specs.Lanes.{Committing, IsCommitting};

    ghost Value = { Committing };

    ghost view = { λ l. record { side = l.committer; seat = l.seat; posted = l.posted } };

    ghost invariant = { λ l. IsCommitting J.lanes J.limit l.committer l.seat l.posted };
}

impl<J: LaneNaming> LaneCommitter<J> {
    /// Before anything was put, with a seat that was answered nothing yet. If an allocation fails there is none.
    pub(crate) fn new(
        alloc: Global,
        committer: Committer,
        seat: Seat<J>,
    ) -> Result<LaneCommitter<J>, NoMemory>
        requires lanes { Some committer.lanes ≡ J.lanes }
        requires taken { committer.taken ≡ [] }
        requires fresh { seat.past ≡ [] }
    {
        let Ok(ended) = Vec::with_capacity(alloc, 8) else {
            return Err(NoMemory);
        };
        Ok(LaneCommitter {
            committer,
            seat,
            ended,
            posted: Posted::new(),
        })
    }

    /// Keeps a lane that has ended without a worker until the lanes are closed. If an allocation fails it is given up.
    pub(crate) fn add_ended(&mut self, ended: EndedLane<J>) -> Result<(), NoMemory> {
        match self.ended.push(ended) {
            Ok(()) => Ok(()),
            Err(_) => Err(NoMemory),
        }
    }

    /// Whether the ends of all lanes were taken. Then nothing comes any more.
    pub(crate) fn is_over(&self) -> bool
        ensures over { IsTrue result ↔ AllOver self.now.side.over }
        ensures commits { IsCommitting J.lanes J.limit self.now.side self.now.seat
            self.now.posted }
    {
        self.committer.is_over()
    }

    /// Commits the proposals that wait in the lanes, in their order, and puts what came of each into the mailbox of its worker. What came of them.
    pub(crate) fn commit_waiting<R: Wait>(
        &mut self,
        rt: &R,
        held: &mut Hold<'_, J>,
        mailboxes: &Mailboxes,
    ) -> Outcomes
        ensures taken { CommitsTaken J.limit self.old.seat self.new.seat
            self.old.side self.new.side (held_in result) }
        ensures posted { self.new.posted ≡ self.old.posted ++ held_in result }
    {
        commit_waiting(
            rt,
            held,
            &mut self.seat,
            &mut self.committer,
            mailboxes,
            &mut self.posted,
        )
    }

    /// The committer's end, its seat, and the lanes that have ended without a worker.
    fn into_parts(self) -> (Committer, Seat<J>, Vec<EndedLane<J>>)
        ensures committer { result.0 ≡ self.side }
        ensures seat { result.1 ≡ self.seat }
        ensures is { IsCommitting J.lanes J.limit result.0 result.1 self.posted }
    {
        let LaneCommitter {
            committer,
            seat,
            ended,
            posted: _,
        } = self;
        (committer, seat, ended)
    }
}

/// What was committed out of the lanes of an epoch, once the ends of all of them were taken: nothing comes any more, and nothing is left. The lanes are
/// closed with it. Contracts see what they see of its `LaneCommitter`.
pub struct FinishedLanes<J: LaneNaming> {
    lanes: LaneCommitter<J>,
}

impl<J: LaneNaming> Drop for FinishedLanes<J> {
    fn drop(self) {
        let FinishedLanes { lanes: _ } = self;
    }
}

impl<J: LaneNaming> Model for FinishedLanes<J> {
    ghost use Rattle.cap_lanes.specs.Sides.{AllOver};
    ghost use Rattle.cap_workers.specs.Lanes.{Committing};

    ghost Value = { Committing };

    ghost view = { λ l. l.lanes };

    ghost invariant = { λ l. AllOver l.lanes.side.over };
}

impl<J: LaneNaming> FinishedLanes<J> {
    pub(crate) fn of(lanes: LaneCommitter<J>) -> FinishedLanes<J>
        requires { AllOver lanes.side.over }
        ensures { result ≡ lanes }
    {
        FinishedLanes { lanes }
    }

    /// The committer's end, its seat, and the lanes that have ended without a worker.
    fn into_parts(self) -> (Committer, Seat<J>, Vec<EndedLane<J>>)
        ensures committer { result.0 ≡ self.side }
        ensures seat { result.1 ≡ self.seat }
        ensures is { IsCommitting J.lanes J.limit result.0 result.1 self.posted }
        ensures over { AllOver result.0.over }
    {
        let FinishedLanes { lanes } = self;
        lanes.into_parts()
    }
}

/// Closes the lanes of an epoch, if it had any, with those that workers have ended; the committer's seat is put to the others. All that was put into
/// them was taken and committed. If an allocation fails, or a lane has not ended, all is given up.
pub(crate) fn close_lanes<J: LaneNaming, R: Wait>(
    rt: &R,
    alloc: Global,
    lanes: Option<FinishedLanes<J>>,
    seats: &mut Vec<Seat<J>>,
    ended: Vec<EndedLane<J>>,
) -> Result<(), NoMemory>
    ensures count { IfOk result (λ _. length seats.new.items
        ≡ length seats.old.items + length (option_to_list lanes)) }
    ensures kept { IfOk result (λ _. StayIn seats.old.items seats.new.items) }
    ensures end { IfOk result (λ _. LanesEnd J.limit seats.new.items ended.items) }
{
    let Some(lanes) = lanes else {
        if ended.is_empty() {
            return Ok(());
        }
        return Err(NoMemory);
    };
    let (committer, seat, mut others) = lanes.into_parts();
    let mut ended = ended;
    let Ok(()) = ended.append(&mut others) else {
        return Err(NoMemory);
    };
    let ends = eight_of(alloc, ended)?;
    let _nothing_left = committer.close(rt, ends);
    match seats.push(seat) {
        Ok(()) => Ok(()),
        Err(_) => Err(NoMemory),
    }
}

/// The ends of eight workers. An error means that there are not as many, or that an allocation failed.
fn eight_of<J: LaneNaming>(alloc: Global, ended: Vec<EndedLane<J>>) -> Result<[Ended; 8], NoMemory>
    ensures same { IfOk result (λ ends. ends ≡ ended.items) }
    ensures lanes { IfOk result (λ ends. All (IsLane J.lanes) ends) }
{
    let Ok(mut ends) = Vec::with_capacity(alloc, 8) else {
        return Err(NoMemory);
    };
    for lane in ended {
        let Ok(()) = ends.push(lane.into_ended()) else {
            return Err(NoMemory);
        };
    }
    match <[Ended; 8]>::try_from(ends) {
        Ok(ends) => Ok(ends),
        Err(_) => Err(NoMemory),
    }
}
