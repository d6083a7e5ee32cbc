//! Gates that hold a worker until something else has happened.
use cap_testing::Mark;
use cap_workers::{Gate, Point, Tally};
use std::sync::atomic::{AtomicU64, Ordering};

/// The gate of a daemon.
#[derive(Clone, Copy)]
pub enum GateOf<'a> {
    Open,
    Counting(&'a Tally),
    Meeting(&'a Meeting),
    Committing(&'a Committing),
    OwnLanes(&'a OwnLanes),
    Holding(&'a Holding),
    HoldingOnce(&'a HoldingOnce),
}

impl Gate for GateOf<'_> {
    fn at(&self, worker: u32, point: Point) {
        match self {
            GateOf::Open => {}
            GateOf::Counting(gate) => gate.at(worker, point),
            GateOf::Meeting(gate) => gate.at(worker, point),
            GateOf::Committing(gate) => gate.at(worker, point),
            GateOf::OwnLanes(gate) => gate.at(worker, point),
            GateOf::Holding(gate) => gate.at(worker, point),
            GateOf::HoldingOnce(gate) => gate.at(worker, point),
        }
    }
}

/// Holds two workers where they propose until both do: worker 1 counts only after worker 0 has come, which stays until then.
#[derive(Drop)]
pub struct Meeting {
    pub first: Mark,
    pub second: Mark,
    /// Reached once both were there at the same time.
    pub both: Mark,
}

impl Gate for Meeting {
    fn at(&self, worker: u32, point: Point) {
        if point != Point::Proposed {
            return;
        }
        if worker == 0 {
            self.first.reach(1);
            if self.second.awaits(1) {
                self.both.reach(1);
            }
        } else if self.first.awaits(1) {
            self.second.reach(1);
        }
    }
}

/// What a worker has done at a gate.
#[derive(Drop)]
struct Turns {
    copied: AtomicU64,
    proposed: AtomicU64,
    committed: Mark,
}

impl Turns {
    fn new() -> Turns {
        Turns {
            copied: AtomicU64::new(0),
            proposed: AtomicU64::new(0),
            committed: Mark::new(),
        }
    }
}

/// Holds two workers where they first propose until something is asked for, with which the first journal is full: so each proposes it in its second
/// turn, which is its first in the second epoch. In its third turn each is held until what both proposed was committed.
#[derive(Drop)]
pub struct Committing {
    pub asked: Mark,
    workers: [Turns; 2],
    /// Reached once both were let go in their third turn.
    pub both: Mark,
    /// Reached where a worker was held for too long.
    pub missed: Mark,
}

impl Committing {
    pub fn new() -> Committing {
        Committing {
            asked: Mark::new(),
            workers: [Turns::new(), Turns::new()],
            both: Mark::new(),
            missed: Mark::new(),
        }
    }

    /// Waits until what both proposed was committed.
    fn await_both(&self) {
        if self.workers.iter().all(|it| it.committed.awaits(1)) {
            self.both.reach(1);
        } else {
            self.missed.reach(1);
        }
    }
}

impl Gate for Committing {
    fn at(&self, worker: u32, point: Point) {
        let Some(turns) = self.workers.get(worker as usize) else {
            return;
        };
        match point {
            Point::Copied => {
                if turns.copied.fetch_add(1, Ordering::SeqCst) == 2 {
                    self.await_both();
                }
            }
            Point::Proposed => {
                if turns.proposed.fetch_add(1, Ordering::SeqCst) == 0 && !self.asked.awaits(1) {
                    self.missed.reach(1);
                }
            }
            Point::Committed(_) => turns.committed.reach(1),
        }
    }
}

/// Holds worker 1 where it has first copied until the first journal is full, and where it copies next, in the second epoch, until what worker 0
/// proposes was committed for worker 0.
#[derive(Drop)]
pub struct OwnLanes {
    /// How often worker 1 has copied.
    pub copied: Mark,
    /// Reached once the first journal is full.
    pub filled: Mark,
    /// Reached once a commit was answered to worker 0.
    pub answered: Mark,
    /// Reached where one was answered to worker 1 before, which had proposed nothing, or where worker 1 was held for too long.
    pub missed: Mark,
}

impl OwnLanes {
    pub fn new() -> OwnLanes {
        OwnLanes {
            copied: Mark::new(),
            filled: Mark::new(),
            answered: Mark::new(),
            missed: Mark::new(),
        }
    }

    /// Holds worker 1, which has copied. False if that takes too long.
    fn hold(&self) -> bool {
        self.copied.add_one();
        if self.copied.count() == 1 {
            self.filled.awaits(1)
        } else {
            self.answered.awaits(1)
        }
    }
}

impl Gate for OwnLanes {
    fn at(&self, worker: u32, point: Point) {
        let is_answered = match (worker, point) {
            (0, Point::Committed(_)) => {
                self.answered.reach(1);
                true
            }
            (1, Point::Committed(_)) => self.answered.is_reached(1),
            (1, Point::Copied) => self.hold(),
            _ => true,
        };
        if !is_answered {
            self.missed.reach(1);
        }
    }
}

/// Holds worker 0 where it has first copied the cluster, and where it then proposes, until it is let go.
#[derive(Drop)]
pub struct Holding {
    /// 1 where it has copied, 2 where it proposes.
    pub held: Mark,
    pub let_go: Mark,
}

impl Gate for Holding {
    fn at(&self, _worker: u32, point: Point) {
        let step = match point {
            Point::Copied => 1,
            Point::Proposed => 2,
            Point::Committed(_) => return,
        };
        self.held.reach(step);
        let _in_time = self.let_go.awaits(step);
    }
}

/// Holds a worker where it has first copied the cluster until it is let go, and counts how often it proposes.
#[derive(Drop)]
pub struct HoldingOnce {
    pub copied: Mark,
    pub let_go: Mark,
    pub proposed: Mark,
}

impl Gate for HoldingOnce {
    fn at(&self, _worker: u32, point: Point) {
        match point {
            Point::Copied => {
                self.copied.reach(1);
                let _in_time = self.let_go.awaits(1);
            }
            Point::Proposed => self.proposed.add_one(),
            Point::Committed(_) => {}
        }
    }
}
