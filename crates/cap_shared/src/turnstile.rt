//! Who takes the lock next: those that schedule wait for a few calls at most (`Turnstile`).
use std::sync::atomic::{AtomicU64, Ordering};
use std::sync::{Mutex, MutexGuard, Wait};
use std::thread::yield_now;

/// How often a thread that finds a place or the lock taken looks again before it sleeps until it is woken.
const LOOKS: u32 = 100;

/// Where so many calls wait, they are many: a thread that schedules sleeps at once.
const MANY_CALLS: u64 = 4;

/// How many calls take the lock at most while a thread that schedules waits for it.
const PASSED_MAX: u64 = 16;

/// What the one thread has that waits for the lock next.
#[derive(Drop)]
pub(crate) struct Place;

/// Of the threads that call, one at a time waits for the lock, and it lets those that schedule go first once some calls have passed them.
/// So a thread that schedules waits for a few calls at most, and for the others that schedule, however many threads call.
#[derive(Drop)]
pub(crate) struct Turnstile {
    callers: Mutex<Place>,
    schedulers: Mutex<Place>,
    /// How many calls wait.
    calls: AtomicU64,
    /// How many threads that schedule wait.
    waiting: AtomicU64,
    /// How many calls have passed them.
    passed: AtomicU64,
}

impl Turnstile {
    /// Nobody waits.
    pub(crate) fn new() -> Turnstile {
        Turnstile {
            callers: Mutex::new(Place),
            schedulers: Mutex::new(Place),
            calls: AtomicU64::new(0),
            waiting: AtomicU64::new(0),
            passed: AtomicU64::new(0),
        }
    }

    /// The place of a thread that calls, which takes the lock next and keeps its place until it has given the lock back.
    pub(crate) fn line_up<R: Wait>(&self, rt: &R) -> MutexGuard<'_, Place> {
        self.calls.fetch_add(1, Ordering::SeqCst);
        let place = self.caller(rt);
        if self.waiting.load(Ordering::SeqCst) > 0
            && self.passed.fetch_add(1, Ordering::SeqCst) >= PASSED_MAX
        {
            drop(self.schedulers.lock(rt));
        }
        place
    }

    /// Whether many calls wait.
    fn has_many_calls(&self) -> bool {
        self.calls.load(Ordering::SeqCst) >= MANY_CALLS
    }

    /// A thread that calls has taken the lock.
    pub(crate) fn has_entered(&self) {
        self.calls.fetch_sub(1, Ordering::SeqCst);
    }

    /// The place of a thread that calls. One that finds it taken first looks again a while, since the calls of others take less time than to
    /// sleep and to be woken.
    fn caller<R: Wait>(&self, rt: &R) -> MutexGuard<'_, Place> {
        for _ in 0..LOOKS {
            if let Some(place) = self.callers.try_lock() {
                return place;
            }
            yield_now();
        }
        self.callers.lock(rt)
    }

    /// The place of a thread that schedules, which takes the lock next.
    pub(crate) fn go_first<R: Wait>(&self, rt: &R) -> MutexGuard<'_, Place> {
        self.waiting.fetch_add(1, Ordering::SeqCst);
        self.lock_to_schedule(rt, &self.schedulers)
    }

    /// Takes a place or the lock for a thread that schedules. One that finds it taken first looks again a while, since to sleep and to be
    /// woken takes about as long as a copy, and nobody has the lock meanwhile. It lets others run twice in between, so that calls that wait are
    /// mostly made first; and where many do, it sleeps, and leaves them the processors.
    pub(crate) fn lock_to_schedule<'a, T, R: Wait>(
        &self,
        rt: &R,
        lock: &'a Mutex<T>,
    ) -> MutexGuard<'a, T> {
        for _ in 0..LOOKS {
            if let Some(guard) = lock.try_lock() {
                return guard;
            }
            if self.has_many_calls() {
                break;
            }
            yield_now();
            yield_now();
        }
        lock.lock(rt)
    }

    /// A thread that schedules has taken the lock.
    pub(crate) fn has_gone(&self, place: MutexGuard<'_, Place>) {
        self.waiting.fetch_sub(1, Ordering::SeqCst);
        self.passed.store(0, Ordering::SeqCst);
        drop(place);
    }
}
