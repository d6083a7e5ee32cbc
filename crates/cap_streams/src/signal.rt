//! The end of an epoch, which wakes all threads that wait (`EndSignal`).
use mio::unix::SourceFd;
use mio::{Interest, Poll, Registry, Token, Waker};
use std::io;
use std::net::Net;
use std::os::fd::AsRawFd;
use std::sync::atomic::{AtomicU64, Ordering};
use std::sync::{Condvar, CondvarTimeouts, Mutex, Wait};
use std::time::{Clock, Duration};

/// How many bytes connections bring in an epoch, before it ends: 16 MiB.
const BROUGHT_MAX: u64 = 16 * 1024 * 1024;

/// What threads look at that wait for nothing but the end of the epoch.
#[derive(Drop)]
struct Idle {
    is_over: bool,
}

/// Says that the epoch is ending: its threads leave it as soon as they can. Those that wait are woken: workers by the condition, and those that
/// wait for bytes or for a connection by a descriptor that each of them watches.
#[derive(Drop)]
pub struct EndSignal {
    raised: AtomicU64,
    /// How many bytes connections have brought since it was lowered.
    brought: AtomicU64,
    idle: Mutex<Idle>,
    woken: Condvar,
    /// The descriptor that all watch becomes readable with each wake.
    wakes: Poll,
    waker: Waker,
    /// When it was raised, in microseconds of the clock. 0 where the clock could not be read.
    raised_at: AtomicU64,
}

impl EndSignal {
    /// Not raised. An error means that the system has no descriptor for it.
    pub fn new<H: Net>(rt: &H) -> io::Result<EndSignal> {
        let wakes = Poll::new(rt)?;
        let waker = Waker::new(wakes.registry(), Token(0))?;
        Ok(EndSignal {
            raised: AtomicU64::new(0),
            brought: AtomicU64::new(0),
            idle: Mutex::new(Idle { is_over: false }),
            woken: Condvar::new(),
            wakes,
            waker,
            raised_at: AtomicU64::new(0),
        })
    }

    /// Has the registry report each wake under this token.
    pub fn register(&self, registry: &Registry, token: Token) -> io::Result<()> {
        let descriptor = self.wakes.as_raw_fd();
        registry.register(&mut SourceFd(&descriptor), token, Interest::READABLE)
    }

    /// An epoch begins.
    pub fn lower<H: Wait>(&self, rt: &H) {
        self.idle.lock(rt).is_over = false;
        self.brought.store(0, Ordering::SeqCst);
        self.raised.store(0, Ordering::SeqCst);
    }

    /// The epoch ends: all that wait are woken. Where it was raised before nothing happens.
    pub fn raise<H: Wait + Clock>(&self, rt: &H) {
        if self.raised.swap(1, Ordering::SeqCst) == 1 {
            return;
        }
        self.raised_at.store(now(rt), Ordering::SeqCst);
        self.idle.lock(rt).is_over = true;
        self.woken.notify_all();
        let _woken = self.waker.wake();
    }

    /// A connection has brought so many bytes. Once all have brought 16 MiB since it was lowered it is raised: what an epoch keeps of requests is
    /// bounded so, however many entries its journal may have.
    pub fn bring<H: Wait + Clock>(&self, rt: &H, count: usize) {
        let count = count as u64;
        let before = self.brought.fetch_add(count, Ordering::SeqCst);
        if before.saturating_add(count) >= BROUGHT_MAX {
            self.raise(rt);
        }
    }

    /// Whether the epoch is ending.
    pub fn is_over(&self) -> bool {
        self.raised.load(Ordering::SeqCst) == 1
    }

    /// How many microseconds have passed since it was last raised.
    pub fn elapsed<H: Clock>(&self, rt: &H) -> u64 {
        now(rt).saturating_sub(self.raised_at.load(Ordering::SeqCst))
    }

    /// Waits for so long, or until it is raised.
    pub fn wait<H: Wait + Clock>(&self, rt: &H, pause: Duration) {
        let idle = self.idle.lock(rt);
        let _waited = self
            .woken
            .wait_timeout_while(rt, idle, pause, |idle| !idle.is_over);
    }
}

/// Microseconds of the clock. 0 where it can't be read.
fn now<H: Clock>(rt: &H) -> u64 {
    match rt.monotonic() {
        Ok(time) => u64::try_from(time.as_micros()).unwrap_or(u64::MAX),
        Err(_) => 0,
    }
}
