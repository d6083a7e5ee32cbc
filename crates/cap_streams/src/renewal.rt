//! A daemon whose places are given on, until standard input ends (`Renewal`).
use mio::unix::SourceFd;
use mio::{Interest, Registry, Token};
use std::io::{self, ErrorKind, Input, Read};
use std::os::fd::RawFd;
use std::time::{Clock, Duration, Instant};

/// Standard input.
const DESCRIPTOR: RawFd = 0;

/// How often a file is read at most before other things are looked at.
const READS: u32 = 256;

/// The error of a descriptor that can't be watched, since no read of it waits: EPERM (epoll_ctl(2)).
const NEVER_WAITS: i32 = 1;

/// How standard input is read, so that no read of it waits.
#[derive(Clone, Copy)]
enum Reading {
    /// It was not looked at.
    Begins,
    /// The system reports when a read has an answer. Whether it has.
    Watched(bool),
    /// Every read has an answer at once.
    File,
    /// It has ended, or failed.
    Over,
}

/// Standard input, and what is done once it has ended.
#[derive(Drop)]
pub struct Renewal {
    reading: Reading,
    /// For how many seconds connections are served then.
    drain: u32,
    /// Since when.
    since: Option<Instant>,
}

/// What becomes of the daemon.
#[derive(Clone, Copy)]
pub enum Course {
    /// It goes on.
    On,
    /// Standard input has ended now: no more connections are accepted.
    Drains,
    /// The time has passed for which connections are served then.
    Over,
}

impl Renewal {
    /// Connections are served for so many seconds once standard input has ended.
    pub fn new(drain: u32) -> Renewal {
        Renewal {
            reading: Reading::Begins,
            drain,
            since: None,
        }
    }

    /// A read of standard input has an answer.
    pub fn note(&mut self) {
        if let Reading::Watched(_) = self.reading {
            self.reading = Reading::Watched(true);
        }
    }

    /// Looks at standard input and at the clock. What becomes of the daemon.
    pub fn look<H: Clock + Input>(&mut self, rt: &H, registry: &Registry, token: Token) -> Course {
        if !self.has_ended(rt, registry, token) {
            return Course::On;
        }
        let Ok(now) = Instant::now(rt) else {
            return Course::Over;
        };
        match self.since {
            None => {
                self.since = Some(now);
                Course::Drains
            }
            Some(since) => {
                let drain = Duration::from_secs(u64::from(self.drain));
                if now.duration_since(since) < drain {
                    Course::On
                } else {
                    Course::Over
                }
            }
        }
    }

    /// Reads what there is, and says whether standard input has ended.
    fn has_ended<H: Input>(&mut self, rt: &H, registry: &Registry, token: Token) -> bool {
        self.reading = match self.reading {
            Reading::Begins => watched(registry.register(
                &mut SourceFd(&DESCRIPTOR),
                token,
                Interest::READABLE,
            )),
            Reading::Watched(true) => match read_once(rt) {
                true => watched(registry.reregister(
                    &mut SourceFd(&DESCRIPTOR),
                    token,
                    Interest::READABLE,
                )),
                false => Reading::Over,
            },
            Reading::File => match read_file(rt) {
                true => Reading::File,
                false => Reading::Over,
            },
            reading => reading,
        };
        matches!(self.reading, Reading::Over)
    }
}

/// How standard input is read, after it was to be watched. One that can't be watched has failed, but for a file.
fn watched(answer: io::Result<()>) -> Reading {
    match answer {
        Ok(()) => Reading::Watched(false),
        Err(error) if error.raw_os_error() == Some(NEVER_WAITS) => Reading::File,
        Err(_) => Reading::Over,
    }
}

/// Reads what there is of a file. Whether more may come.
fn read_file<H: Input>(rt: &H) -> bool {
    for _ in 0..READS {
        if !read_once(rt) {
            return false;
        }
    }
    true
}

/// Reads once, and drops what came. Whether more may come.
fn read_once<H: Input>(rt: &H) -> bool {
    let mut buffer = [0u8; 4096];
    match rt.reader().read(&mut buffer) {
        Ok(count) => count > 0,
        Err(error) => matches!(error.kind(), ErrorKind::WouldBlock | ErrorKind::Interrupted),
    }
}
