//! What all threads of the daemon share, through all epochs (`SharedState`).
ghost use Rattle.std.specs.Prelude.{◌≡◌, ◌<◌, ◌≤◌, IfSome};
ghost use Rattle.std.specs.Option.{ForSome};
ghost use Rattle.cap_server.specs.Bounds.{IsAllowed};

use crate::rejections::Rejections;
use crate::serving::Sizes;
use crate::task::Records;
use cap_records::{AuditFile, AuditTrail, Stats};
use cap_shared::{Naming, Shared};
use cap_streams::EndSignal;
use mio::Waker;
use std::alloc::Global;
use std::fs::File;
use std::io;
use std::sync::atomic::{AtomicU64, Ordering};
use std::sync::{Mutex, Wait};
use std::time::Clock;

/// Which connections have not ended.
#[derive(Drop)]
struct Openness {
    /// How many of those that are served and those that are still to come. Where places are given on, those that are to come count as one.
    open: AtomicU64,
    /// Whether connections are not served on that have not ended.
    over: AtomicU64,
    /// Wakes the thread of the daemon where a connection has ended whose place is given on.
    waker: Option<Waker>,
}

/// How often one epoch followed another, and how long that took at most, in microseconds.
#[derive(Drop)]
struct Changes {
    count: AtomicU64,
    longest: AtomicU64,
}

/// What all threads share, through all epochs.
#[derive(Drop)]
pub(crate) struct SharedState<'a, G> {
    pub gate: Rejections<'a, G>,
    /// How many entries a journal has at most.
    pub limit: usize,
    /// How many proposals wait for the committer at most. `None` if each worker commits what it proposes.
    pub lanes: Option<usize>,
    /// Whether the epoch is ending.
    pub signal: EndSignal,
    /// How many seats an epoch has: one for each connection and each worker, and one for the committer.
    pub seats: u32,
    openness: Openness,
    changes: Changes,
    /// What is told each so often, if it is.
    stats: Mutex<Option<Stats>>,
    /// What is left of the last epoch that was closed.
    records: Mutex<Option<Records>>,
    /// Where it is written before it is dropped.
    audit: AuditTrail<File>,
    ghost is_limit: { (1 ≤ limit) × (limit ≤ 1000000) },
    ghost is_seats: { (1 ≤ seats) × (seats ≤ 256) },
    ghost is_capacity: { ForSome lanes (λ places. (8 ≤ places) × (places ≤ 1024)) },
}

impl<'a, G> SharedState<'a, G> {
    /// Before the first epoch.
    pub(crate) fn new(
        gate: &'a G,
        sizes: &Sizes,
        signal: EndSignal,
        waker: Option<Waker>,
        stats: Option<Stats>,
        audit: Option<AuditFile<File>>,
    ) -> SharedState<'a, G>
        requires { IsAllowed sizes.now }
        ensures { result.limit ≡ sizes.now.journal }
    {
        SharedState {
            gate: Rejections::new(gate),
            limit: sizes.journal,
            lanes: sizes.lanes,
            signal,
            seats: sizes.connections + sizes.workers + u32::from(sizes.lanes.is_some()),
            openness: Openness {
                open: AtomicU64::new(match sizes.drain {
                    Some(_) => 1,
                    None => u64::from(sizes.connections),
                }),
                over: AtomicU64::new(0),
                waker,
            },
            changes: Changes {
                count: AtomicU64::new(0),
                longest: AtomicU64::new(0),
            },
            stats: Mutex::new(stats),
            records: Mutex::new(None),
            audit: AuditTrail::new(audit),
        }
    }

    /// A connection was accepted. Where places are given on it is one more.
    pub(crate) fn add_connection(&self) {
        if self.openness.waker.is_some() {
            self.openness.open.fetch_add(1, Ordering::SeqCst);
        }
    }

    /// Wakes the thread of the daemon, so that the place of a connection that has ended is given on.
    pub(crate) fn wake(&self) {
        if let Some(waker) = &self.openness.waker {
            let _woken = waker.wake();
        }
    }

    /// No connection is served on: the epoch ends, and none follows.
    pub(crate) fn end_all<H: Wait + Clock>(&self, rt: &H) {
        self.openness.over.store(1, Ordering::SeqCst);
        self.signal.raise(rt);
    }

    /// So many connections have ended, or will not come. Once none is left the epoch ends.
    pub(crate) fn end_connections<H: Wait + Clock>(&self, rt: &H, count: u32) {
        let count = u64::from(count);
        if self.openness.open.fetch_sub(count, Ordering::SeqCst) == count {
            self.signal.raise(rt);
        }
    }

    /// Whether all connections have ended, or none is served on.
    pub(crate) fn is_over(&self) -> bool {
        self.openness.open.load(Ordering::SeqCst) == 0
            || self.openness.over.load(Ordering::SeqCst) == 1
    }

    /// An epoch has followed another: its threads have begun, so long after the end of the last one was noticed.
    pub(crate) fn note_change<H: Clock>(&self, rt: &H) {
        let taken = self.signal.elapsed(rt);
        self.changes.count.fetch_add(1, Ordering::SeqCst);
        let longest = self.changes.longest.load(Ordering::SeqCst);
        self.changes
            .longest
            .store(longest.max(taken), Ordering::SeqCst);
    }

    /// How often one epoch followed another, and how many microseconds that took at most.
    pub(crate) fn changes(&self) -> (u64, u64) {
        (
            self.changes.count.load(Ordering::SeqCst),
            self.changes.longest.load(Ordering::SeqCst),
        )
    }

    /// An epoch was closed that left this. What was done until now is told where it is time, with how many connections were accepted.
    pub(crate) fn leave<H: Wait + Clock + Eprint>(
        &self,
        rt: &H,
        records: Records,
        accepted: usize,
    ) {
        if let Some(stats) = &mut *self.stats.lock(rt) {
            stats.count(records.journal.as_slice());
            if stats.is_due(rt) {
                stats.tell(rt, self.gate.count(), accepted);
            }
        }
        *self.records.lock(rt) = Some(records);
    }

    /// Whether something is left of the last epoch.
    pub(crate) fn has_records<H: Wait>(&self, rt: &H) -> bool {
        self.records.lock(rt).is_some()
    }

    /// Drops what is left of the last epoch, once its journal is in the audit file, if there is one. Where it can't be written the daemon ends.
    pub(crate) fn clear<H: Wait + Clock>(&self, rt: &H, alloc: Global) {
        let records = self.records.lock(rt).take();
        if let Some(records) = records
            && !self.audit.write(rt, alloc, records.journal.as_slice())
        {
            self.end_all(rt);
        }
    }

    /// Why an epoch could not be written to the audit file. `None` if all could.
    pub(crate) fn audit_failure<H: Wait>(&self, rt: &H) -> Option<io::Error> {
        self.audit.failure(rt)
    }

    /// Where it is time to tell what was done: an epoch without entries goes on and it is told; another one ends, and it is told then.
    pub(crate) fn look_at_stats<J: Naming, H: Wait + Clock + Eprint>(
        &self,
        rt: &H,
        shared: &Shared<J>,
        accepted: usize,
    ) {
        if let Some(stats) = &mut *self.stats.lock(rt)
            && stats.is_due(rt)
        {
            if shared.entries() == 0 {
                stats.tell(rt, self.gate.count(), accepted);
            } else {
                self.signal.raise(rt);
            }
        }
    }
}
