//! What the workers and the committer of an epoch share beside the cluster (`Coordinator`).
ghost use Rattle.std.specs.Prelude.{◌≡◌, IfSome};
ghost use Rattle.cap_lanes.specs.Sides.{AllOver};
ghost use Rattle.cap_workers.specs.Lanes.{IsCommitting};

use crate::committer::LaneCommitter;
use crate::gate::{CommitOutcome, Gate, Point};
use crate::lane::LaneNaming;
use crate::mailbox::{Answer, Mailboxes};
use std::sync::{Mutex, MutexGuard, Wait};
use std::thread::Parker;

/// How many proposals are committed at most while the cluster is held once.
pub(crate) const BATCH: usize = 8;

/// What came of proposals that were committed while the cluster was held once, each with its worker's number.
pub(crate) type Outcomes = [Option<(u32, CommitOutcome)>; BATCH];

/// What the workers and the committer of an epoch share beside the cluster.
#[derive(Drop)]
pub struct Coordinator<J: LaneNaming> {
    /// What is committed out of the lanes, while the committer's thread runs. Who holds the cluster uses it for a while.
    lanes: Mutex<Option<LaneCommitter<J>>>,
    /// Where the committer's thread waits.
    committer: Parker,
    /// Where the workers are answered.
    pub(crate) mailboxes: Mailboxes,
}

impl<J: LaneNaming> Coordinator<J> {
    /// Before the first turn of an epoch.
    pub fn new() -> Coordinator<J> {
        Coordinator {
            lanes: Mutex::new(None),
            committer: Parker::new(),
            mailboxes: Mailboxes::new(),
        }
    }

    /// The committer's thread begins.
    pub(crate) fn open_lanes<R: Wait>(&self, rt: &R, lanes: LaneCommitter<J>) {
        let mut open = self.lanes.lock(rt);
        *open = Some(lanes);
    }

    /// The committer's thread ends, once all workers have finished: what was committed out of the lanes. `None` if some have not.
    pub(crate) fn take_over<R: Wait>(&self, rt: &R) -> Option<LaneCommitter<J>>
        ensures over { IfSome result (λ lanes. AllOver lanes.side.over) }
        ensures commits { IfSome result (λ lanes.
            IsCommitting J.lanes J.limit lanes.side lanes.seat lanes.posted) }
    {
        let mut open = self.lanes.lock(rt);
        let lanes = open.take()?;
        if lanes.is_over() {
            return Some(lanes);
        }
        *open = Some(lanes);
        None
    }

    /// What is committed out of the lanes, if the committer's thread runs, for one that holds the cluster.
    pub(crate) fn lanes<R: Wait>(&self, rt: &R) -> MutexGuard<'_, Option<LaneCommitter<J>>> {
        self.lanes.lock(rt)
    }

    /// Waits until a worker has finished.
    pub(crate) fn await_finished<R: Wait>(&self, rt: &R) {
        self.committer.park(rt);
    }

    /// A worker has finished.
    pub(crate) fn has_finished(&self) {
        self.committer.unpark();
    }

    /// Notifies the gate what came of proposals, and wakes the workers, in whose mailboxes that lies.
    pub(crate) fn notify<G: Gate>(&self, gate: &G, outcomes: &Outcomes) {
        for (worker, outcome) in outcomes.iter().flatten() {
            gate.at(*worker, Point::Committed(*outcome));
            self.mailboxes.wake(*worker);
        }
    }

    /// Waits until the proposal is answered that the worker of this number has put, and takes the answer out of its mailbox. `None` if it has none.
    pub(crate) fn await_answer<R: Wait>(&self, rt: &R, worker: u32) -> Option<Answer>
        ensures { IfSome result (λ answer. answer.worker ≡ worker) }
    {
        self.mailboxes.await_answer(rt, worker)
    }
}
