//! A worker that finds nothing to propose rests, and one that is to leave does.
use crate::epochs::{Play, THREE_ASKED, call_all, play_in};
use cap_shared::{Seat, Shared};
use cap_workers::{Coordinator, Direction, LaneNaming, OpenGate, Scheduler, StopSignal};
use std::alloc::Global;
use std::sync::atomic::{AtomicU64, Ordering};
use std::sync::{Mutex, Wait};
use std::test::*;
use std::time::{Clock, Duration};

/// How many pauses are seen before the epoch ends.
const PAUSES: usize = 6;

/// The pauses that were seen, in microseconds.
#[derive(Clone, Copy)]
struct Pauses {
    lengths: [u128; PAUSES],
    count: usize,
}

/// Keeps the pauses, which take no time, until so many are seen that the epoch ends.
#[derive(Drop)]
struct Rests {
    pauses: Mutex<Pauses>,
    over: AtomicU64,
}

impl Rests {
    fn new() -> Rests {
        Rests {
            pauses: Mutex::new(Pauses {
                lengths: [0; PAUSES],
                count: 0,
            }),
            over: AtomicU64::new(0),
        }
    }
}

impl StopSignal for Rests {
    fn is_raised<R: Wait>(&self, _rt: &R) -> bool {
        self.over.load(Ordering::SeqCst) == 1
    }

    fn wait<R: Wait + Clock>(&self, rt: &R, pause: Duration) {
        let mut pauses = self.pauses.lock(rt);
        let place = pauses.count;
        if place < PAUSES {
            pauses.lengths[place] = pause.as_micros();
            pauses.count = place + 1;
        }
        if place >= PAUSES - 1 {
            self.over.store(1, Ordering::SeqCst);
        }
    }
}

/// A worker schedules until six pauses were seen: what they were, and how many entries the journal has then.
#[derive(Drop)]
struct Schedule {
    asks: bool,
}

impl Play for Schedule {
    type Seen = ([u128; PAUSES], usize);

    fn play<J: LaneNaming, H: Wait + Clock>(
        &self,
        rt: &H,
        alloc: Global,
        shared: &Shared<J>,
        mut caller: Seat<J>,
        own: Scheduler<J>,
    ) -> Option<([u128; PAUSES], usize)> {
        if self.asks {
            call_all(rt, alloc, shared, &mut caller, &THREE_ASKED)?;
        }
        let (coordinator, rests) = (Coordinator::new(), Rests::new());
        let direction = Direction {
            coordinator: &coordinator,
            signal: &rests,
            gate: &OpenGate,
        };
        let _scheduled = own.schedule(rt, shared, &direction);
        let seen = *rests.pauses.lock(rt);
        let lengths = seen.lengths;
        Some((lengths, shared.entries()))
    }
}

/// How often the worker is let schedule at most until none of its looks takes longer than a pause.
const RUNS: usize = 20;

/// Whether no pause is shorter than it may be. A look that takes longer makes the pause after it longer.
fn are_no_shorter(pauses: &[u128; PAUSES]) -> bool {
    pauses
        .iter()
        .zip(&LENGTHS)
        .all(|(pause, least)| pause >= least)
}

/// Twice as long each time, up to 10 ms.
const LENGTHS: [u128; PAUSES] = [1000, 2000, 4000, 8000, 10_000, 10_000];

/// All that can be granted was granted before the first pause.
#[test]
fn a_worker_rests_once_there_is_nothing_to_propose(rt: HostRuntime) {
    for &(asks, entries) in &[(false, 0), (true, 8)] {
        let mut exact = false;
        for _ in 0..RUNS {
            let seen = play_in(&rt, rt.alloc(), &Schedule { asks });
            let (pauses, made) = seen.unwrap_or(([0; PAUSES], 0));
            assert!(rt; made == entries && are_no_shorter(&pauses), "{asks}");
            exact = exact || pauses == LENGTHS;
        }
        assert!(rt; exact, "{asks}");
    }
}
