//! Where a worker can be held, and what can be counted there (`Gate`, `Tally`).
ghost use Rattle.std.specs.Prelude.{◌≡◌};
ghost use Rattle.cap_workers.specs.Worker.{outcome_by};

use cap_base::RESOURCES;
use cap_model::Verdict;
use cap_shared::CommitFault;
use std::sync::atomic::{AtomicU64, Ordering};

/// What came of a commit.
#[derive(Clone, Copy, Debug, PartialEq, Eq)]
pub enum CommitOutcome {
    /// The proposal was made.
    Made,
    /// The proposal was not admissible any more.
    Rejected,
    /// The journal was full, or an allocation failed.
    Unmade,
}

impl CommitOutcome {
    /// What came of a commit that was answered so.
    pub fn of(answer: &Result<Verdict<RESOURCES>, CommitFault>) -> CommitOutcome
        ensures { result ≡ outcome_by answer.now }
    {
        match answer {
            Ok(Verdict::Done(_)) => CommitOutcome::Made,
            Ok(Verdict::Rejected(_)) => CommitOutcome::Rejected,
            Err(_) => CommitOutcome::Unmade,
        }
    }
}

/// A point of a turn.
#[derive(Clone, Copy, Debug, PartialEq, Eq)]
pub enum Point {
    /// The cluster was copied.
    Copied,
    /// A proposal was made, or there is nothing to propose.
    Proposed,
    /// The commit was answered, to the worker itself or to who committed for it.
    Committed(CommitOutcome),
}

/// A hook that a worker calls at each point of its turn, and that may hold it there. The cluster is free then. Who commits what a worker
/// put into its lane, the committer or another worker, calls it for that worker.
pub trait Gate {
    fn at(&self, worker: u32, point: Point);
}

/// Holds no worker.
#[derive(Clone, Copy, Debug)]
pub struct OpenGate;

impl Gate for OpenGate {
    fn at(&self, _worker: u32, _point: Point) {}
}

/// Holds no worker, and counts what came of commits. Each count wraps after `u64::MAX`.
#[derive(Drop)]
pub struct Tally {
    made: AtomicU64,
    rejected: AtomicU64,
}

impl Tally {
    /// Before the first commit.
    pub fn new() -> Tally {
        Tally {
            made: AtomicU64::new(0),
            rejected: AtomicU64::new(0),
        }
    }

    /// How many proposals were made.
    pub fn made(&self) -> u64 {
        self.made.load(Ordering::SeqCst)
    }

    /// How many proposals were rejected.
    pub fn rejected(&self) -> u64 {
        self.rejected.load(Ordering::SeqCst)
    }
}

impl Gate for Tally {
    fn at(&self, _worker: u32, point: Point) {
        let count = match point {
            Point::Committed(CommitOutcome::Made) => &self.made,
            Point::Committed(CommitOutcome::Rejected) => &self.rejected,
            _ => return,
        };
        count.fetch_add(1, Ordering::SeqCst);
    }
}
