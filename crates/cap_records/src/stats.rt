//! What a daemon has done since it began, told each so often (`Stats`).
use cap_model::Event;
use cap_shared::Entry;
use std::time::{Clock, Duration, Instant};

/// What the daemon has done in the epochs that were closed.
#[derive(Clone, Copy)]
struct Counts {
    calls: u64,
    grants: u64,
    reservations: u64,
    epochs: u64,
}

/// Tells standard error what was done since the daemon began, each so often. All counts but those of rejections and connections are of
/// epochs that were closed: where it is time an epoch ends early for it.
#[derive(Drop)]
pub struct Stats {
    every: Duration,
    /// When it was last told.
    told: Option<Instant>,
    counts: Counts,
}

impl Counts {
    /// With one more epoch, which had this journal.
    fn with_epoch(self, journal: &[Entry]) -> Counts {
        let mut counts = self;
        counts.epochs = counts.epochs.saturating_add(1);
        for entry in journal {
            let count = match &entry.event {
                Event::Call { .. } => &mut counts.calls,
                Event::Grant { .. } => &mut counts.grants,
                Event::Reserve { .. } => &mut counts.reservations,
            };
            *count = count.saturating_add(1);
        }
        counts
    }
}

impl Stats {
    /// Told each so many seconds, first so many after now, if they are to be told.
    pub fn each<H: Clock>(rt: &H, seconds: Option<u32>) -> Option<Stats> {
        let seconds = seconds?;
        Some(Stats {
            every: Duration::from_secs(u64::from(seconds)),
            told: Instant::now(rt).ok(),
            counts: Counts {
                calls: 0,
                grants: 0,
                reservations: 0,
                epochs: 0,
            },
        })
    }

    /// An epoch was closed that had this journal.
    pub fn count(&mut self, journal: &[Entry]) {
        self.counts = self.counts.with_epoch(journal);
    }

    /// Whether it is time to tell.
    pub fn is_due<H: Clock>(&mut self, rt: &H) -> bool {
        let Ok(now) = Instant::now(rt) else {
            return false;
        };
        let told = *self.told.get_or_insert(now);
        now.duration_since(told) >= self.every
    }

    /// Tells what was done, and that so many proposals were rejected and connections accepted.
    pub fn tell<H: Clock + Eprint>(&mut self, rt: &H, rejected: u64, connections: usize) {
        self.told = Instant::now(rt).ok();
        let Counts {
            calls,
            grants,
            reservations,
            epochs,
        } = self.counts;
        let entries = calls.saturating_add(grants).saturating_add(reservations);
        let _told = eprintln!(rt;
            "stats entries={entries} calls={calls} grants={grants} reservations={reservations} rejected={rejected} epochs={epochs} connections={connections}"
        );
    }
}
