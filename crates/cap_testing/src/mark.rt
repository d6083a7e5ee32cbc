//! A count that threads wait for (`Mark`).
use std::sync::atomic::{AtomicU64, Ordering};
use std::thread::yield_now;

/// How many times a thread that waits looks at most.
const LOOKS: u64 = 50_000_000;

/// A count that threads wait for.
#[derive(Drop)]
pub struct Mark {
    count: AtomicU64,
}

impl Mark {
    pub fn new() -> Mark {
        Mark {
            count: AtomicU64::new(0),
        }
    }

    pub fn reach(&self, count: u64) {
        self.count.store(count, Ordering::SeqCst);
    }

    pub fn add_one(&self) {
        let _before = self.count.fetch_add(1, Ordering::SeqCst);
    }

    pub fn count(&self) -> u64 {
        self.count.load(Ordering::SeqCst)
    }

    pub fn is_reached(&self, count: u64) -> bool {
        self.count() >= count
    }

    /// Waits until the count is reached. False if that takes too long.
    pub fn awaits(&self, count: u64) -> bool {
        for _ in 0..LOOKS {
            if self.is_reached(count) {
                return true;
            }
            yield_now();
        }
        false
    }
}
