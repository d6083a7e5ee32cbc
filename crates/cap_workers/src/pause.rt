//! How long a worker rests that has nothing to do, or no memory (`Pause`).
use crate::scheduler::StopSignal;
use std::sync::Wait;
use std::time::{Clock, Duration, Instant};

/// How long the first pause is, in microseconds.
const FIRST: u64 = 1000;

/// The longest pause, in microseconds, but for one after a look that took longer.
const LONGEST: u64 = 10_000;

/// How long a worker rests next, in microseconds: twice as long each time, and no shorter than what its last look took.
#[derive(Clone, Copy)]
pub(crate) struct Pause {
    next: u64,
    least: u64,
    /// When the look began that is under way, if the system has told the time.
    begun: Option<Instant>,
}

impl Pause {
    pub(crate) fn first() -> Pause {
        Pause {
            next: FIRST,
            least: 0,
            begun: None,
        }
    }

    /// The next pause is the first again.
    pub(crate) fn begin_anew(&mut self) {
        self.next = FIRST;
    }

    /// A look begins.
    pub(crate) fn begin_look<R: Clock>(&mut self, rt: &R) {
        self.begun = Instant::now(rt).ok();
    }

    /// The look has ended, and nothing was found.
    pub(crate) fn end_look<R: Clock>(&mut self, rt: &R) {
        let (Some(begun), Ok(now)) = (self.begun, Instant::now(rt)) else {
            return;
        };
        let taken = now.duration_since(begun).as_micros();
        self.least = u64::try_from(taken).unwrap_or(LONGEST);
    }

    /// Waits until the signal is raised, or for a while.
    pub(crate) fn wait<R: Wait + Clock, S: StopSignal>(&mut self, rt: &R, signal: &S) {
        signal.wait(rt, Duration::from_micros(self.next.max(self.least)));
        self.next = self.next.saturating_mul(2).min(LONGEST);
    }
}
