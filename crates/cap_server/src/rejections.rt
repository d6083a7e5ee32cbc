//! How many proposals were rejected since the daemon began (`Rejections`).
use cap_workers::{CommitOutcome, Gate, Point};
use std::sync::atomic::{AtomicU64, Ordering};

/// Counts the proposals that were rejected, and passes on each point to another gate.
#[derive(Drop)]
pub(crate) struct Rejections<'a, G> {
    gate: &'a G,
    rejected: AtomicU64,
}

impl<'a, G> Rejections<'a, G> {
    /// None was rejected.
    pub(crate) fn new(gate: &'a G) -> Rejections<'a, G> {
        Rejections {
            gate,
            rejected: AtomicU64::new(0),
        }
    }

    /// How many were rejected.
    pub(crate) fn count(&self) -> u64 {
        self.rejected.load(Ordering::SeqCst)
    }
}

impl<G: Gate> Gate for Rejections<'_, G> {
    fn at(&self, worker: u32, point: Point) {
        if point == Point::Committed(CommitOutcome::Rejected) {
            self.rejected.fetch_add(1, Ordering::SeqCst);
        }
        self.gate.at(worker, point);
    }
}
