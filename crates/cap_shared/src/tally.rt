//! How many entries the journal has, as it is seen without the lock (`Tally`).
use std::sync::atomic::{AtomicU64, Ordering};

/// How many entries the journal had when a thread gave the cluster back last, and how many it may have. Nothing is promised of the first.
#[derive(Drop)]
pub(crate) struct Tally {
    entries: AtomicU64,
    limit: usize,
}

impl Tally {
    /// The tally of a journal without entries.
    pub(crate) fn new(limit: usize) -> Tally {
        Tally {
            entries: AtomicU64::new(0),
            limit,
        }
    }

    /// Keeps how many entries there are. The thread that holds the cluster does.
    pub(crate) fn keep(&self, entries: usize) {
        self.entries.store(entries as u64, Ordering::SeqCst);
    }

    /// How many entries there were.
    pub(crate) fn entries(&self) -> usize {
        self.entries.load(Ordering::SeqCst) as usize
    }

    /// Whether there were as many as there may be.
    pub(crate) fn is_full(&self) -> bool {
        self.entries() >= self.limit
    }
}
