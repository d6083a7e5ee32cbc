//! The lanes of an epoch: before they have its name (`BlankLanes`), under it (`LaneNaming`), a worker's lane (`Lane`), and one that has ended.
ghost use Rattle.std.specs.Prelude.{◌≡◌, ◌<◌, ◌≤◌, [], Some, All};
ghost use Rattle.std.specs.Option.{ForSome};
ghost use Rattle.cap_lanes.specs.Sides.{eight_workers};
ghost use Rattle.cap_workers.specs.Lanes.{IsLane, IsNewLane};

use crate::committer::LaneCommitter;
use cap_lanes::{Committer, Ended, Putter, lanes};
use cap_model::NoMemory;
use cap_shared::{Naming, Seat};
use std::alloc::Global;
use std::marker::{Brand, Model, PhantomData};
use std::sync::Wait;

/// Names the lanes of an epoch, if it has any. Ends of one name are of the same lanes.
pub trait LaneNaming: Naming {
    ghost use Rattle.std.specs.Prelude.{Option};
    ghost use Rattle.cap_lanes.specs.Sides.{LanesId};

    ghost lanes: { Option LanesId };
}

impl LaneNaming for Brand {
    ghost use Rattle.std.specs.Prelude.{None};

    ghost lanes = { None };
}

/// Lanes into which nothing was put, before they have a name. Contracts see which lanes they are.
#[derive(Drop)]
pub struct BlankLanes {
    committer: Committer,
    putters: [Putter; 8],
}

impl Model for BlankLanes {
    ghost use Rattle.std.specs.Prelude.{◌≡◌, []};
    ghost use Rattle.cap_lanes.specs.Sides.{LanesId, eight_workers};

    ghost Value = { LanesId };

    ghost view = { λ b. b.committer.lanes };

    ghost invariant = { λ b.
        (b.committer.taken ≡ []) × (b.putters ≡ eight_workers b.committer.lanes) };
}

impl BlankLanes {
    /// Lanes of eight workers with room for so many proposals, 1 to 1,024. If an allocation fails there are none.
    pub fn new(alloc: Global, capacity: usize) -> Result<BlankLanes, NoMemory>
        requires { (0 < capacity) × (capacity ≤ 1024) }
    {
        let (committer, putters) = lanes(alloc, capacity)?;
        Ok(BlankLanes { committer, putters })
    }

    /// The committer's end, and those of the workers.
    fn into_parts(self) -> (Committer, [Putter; 8])
        ensures lanes { result.0.lanes ≡ self }
        ensures fresh { result.0.taken ≡ [] }
        ensures putters { result.1 ≡ eight_workers self }
    {
        let BlankLanes { committer, putters } = self;
        (committer, putters)
    }
}

/// A worker's lane, into which nothing was put. Contracts see what they see of its `Putter`.
pub struct Lane<J: LaneNaming> {
    putter: Putter,
    of: PhantomData<J>,
}

impl<J: LaneNaming> Drop for Lane<J> {
    fn drop(self) {
        let Lane { putter: _, of: _ } = self;
    }
}

impl<J: LaneNaming> Model for Lane<J> {
    ghost use Rattle.cap_lanes.specs.Sides.{WorkerSide};
    ghost use Rattle.cap_workers.specs.Lanes.{IsNewLane};

    ghost Value = { WorkerSide };

    ghost view = { λ l. l.putter };

    ghost invariant = { λ l. IsNewLane J.lanes l.putter };
}

impl<J: LaneNaming> Lane<J> {
    fn new(putter: Putter) -> Lane<J>
        requires { IsNewLane J.lanes putter }
        ensures { result ≡ putter }
    {
        Lane {
            putter,
            of: PhantomData,
        }
    }

    /// The number of the worker whose lane this is.
    pub fn worker(&self) -> u32
        ensures { result ≡ self.now.worker }
    {
        self.putter.worker()
    }

    /// What the worker puts its proposals with.
    pub fn into_putter(self) -> Putter
        ensures putter { result ≡ self }
        ensures fresh { IsNewLane J.lanes result }
    {
        let Lane { putter, of: _ } = self;
        putter
    }
}

/// A worker's lane that has ended: nothing is put into it any more. Contracts see what they see of its `Ended`.
pub struct EndedLane<J: LaneNaming> {
    ended: Ended,
    of: PhantomData<J>,
}

impl<J: LaneNaming> Drop for EndedLane<J> {
    fn drop(self) {
        let EndedLane { ended: _, of: _ } = self;
    }
}

impl<J: LaneNaming> Model for EndedLane<J> {
    ghost use Rattle.cap_lanes.specs.Sides.{WorkerSide};
    ghost use Rattle.cap_workers.specs.Lanes.{IsLane};

    ghost Value = { WorkerSide };

    ghost view = { λ e. e.ended };

    ghost invariant = { λ e. IsLane J.lanes e.ended };
}

impl<J: LaneNaming> EndedLane<J> {
    /// Ends a worker's lane.
    pub fn of<R: Wait>(rt: &R, putter: Putter) -> EndedLane<J>
        requires { IsLane J.lanes putter }
        ensures { result ≡ putter }
    {
        EndedLane {
            ended: putter.finish(rt),
            of: PhantomData,
        }
    }

    /// What the lanes are closed with.
    pub(crate) fn into_ended(self) -> Ended
        ensures ended { result ≡ self }
        ensures lane { IsLane J.lanes result }
    {
        let EndedLane { ended, of: _ } = self;
        ended
    }
}

/// The lanes of an epoch as it begins: the committer's end with its seat, and those of eight workers.
#[derive(Drop)]
pub(crate) struct EpochLanes<J: LaneNaming> {
    pub committer: LaneCommitter<J>,
    pub lanes: Vec<Lane<J>>,
}

impl<J: LaneNaming> EpochLanes<J> {
    /// Lanes under their name, with a seat of the committer's that was answered nothing yet. If an allocation fails there are none.
    pub(crate) fn open(
        alloc: Global,
        blank: BlankLanes,
        seat: Seat<J>,
    ) -> Result<EpochLanes<J>, NoMemory>
        requires lanes { Some blank ≡ J.lanes }
        requires fresh { seat.past ≡ [] }
    {
        let (committer, putters) = blank.into_parts();
        let lanes = lanes_of(alloc, putters)?;
        let committer = LaneCommitter::new(alloc, committer, seat)?;
        Ok(EpochLanes { committer, lanes })
    }

    /// Takes the lane of the worker of this number, if nobody has it.
    pub(crate) fn take(&mut self, number: u32) -> Option<Lane<J>>
        ensures { ForSome result (λ lane. lane.worker ≡ number) }
    {
        let place = self.lanes.iter().position(|it| it.worker() == number)?;
        Some(self.lanes.swap_remove(place))
    }

    /// Ends the lanes that nobody has. What is left is the committer's. If an allocation fails it is given up.
    pub(crate) fn end_rest<R: Wait>(self, rt: &R) -> Result<LaneCommitter<J>, NoMemory> {
        let EpochLanes {
            mut committer,
            lanes,
        } = self;
        for lane in lanes {
            committer.add_ended(EndedLane::of(rt, lane.into_putter()))?;
        }
        Ok(committer)
    }
}

/// These lanes under their name. If an allocation fails they are given up.
fn lanes_of<J: LaneNaming>(alloc: Global, putters: [Putter; 8]) -> Result<Vec<Lane<J>>, NoMemory>
    requires { All (IsNewLane J.lanes) putters }
{
    let Ok(mut lanes) = Vec::with_capacity(alloc, 8) else {
        return Err(NoMemory);
    };
    for putter in putters {
        let Ok(()) = lanes.push(Lane::new(putter)) else {
            return Err(NoMemory);
        };
    }
    Ok(lanes)
}
