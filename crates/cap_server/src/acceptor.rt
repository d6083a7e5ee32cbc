//! Where connections come in, and where those wait to which nothing comes (`Acceptor`).
use crate::serving::Sizes;
use cap_connections::ClientConnection;
use cap_streams::{Course, EndSignal, Renewal};
use mio::unix::SourceFd;
use mio::{Events, Interest, Poll, Token, Waker};
use std::alloc::Global;
use std::io::{self, ErrorKind, Input};
use std::net::{Net, TcpListener, TcpStream};
use std::os::fd::AsRawFd;
use std::time::{Clock, Duration, Instant};

/// How long it is tried again to accept a connection while the system has no descriptor or no memory for it, in seconds.
const TRIES_AGAIN: u64 = 5;

/// The errors of a system that has no descriptor or no memory for a connection now: ENOMEM, ENFILE, EMFILE and ENOBUFS (accept(2)).
const WANTS: [i32; 4] = [12, 23, 24, 105];

/// How many events are looked at after one wait.
const EVENTS: usize = 64;

const LISTENER: Token = Token(0);

const END: Token = Token(1);

/// Where a connection has ended whose place is given on.
const PLACE: Token = Token(2);

const INPUT: Token = Token(3);

/// The tokens of connections are their numbers, from this one on.
const FIRST: usize = 4;

/// How many connections were accepted, and how many more are.
#[derive(Clone, Copy)]
struct Intake {
    accepted: usize,
    /// How many are still to come; where places are given on, how many can be accepted now.
    left: u32,
    /// Since when the system has refused to accept one.
    since: Option<Instant>,
    has_failed: bool,
}

/// Accepts connections, and waits for those to which nothing comes.
#[derive(Drop)]
pub(crate) struct Acceptor {
    /// It is closed once no connection is to be accepted any more, so that the system refuses those that still come.
    listener: Option<TcpListener>,
    poll: Poll,
    events: Events,
    /// How many of the events of the last wait were looked at.
    seen: usize,
    intake: Intake,
    /// Until when the place of a connection that has ended is given on. `None` if it is not.
    renewal: Option<Renewal>,
}

/// What came of one look at the listener.
#[derive(Drop)]
pub(crate) enum Accept {
    /// A connection, and its number.
    Accepted(TcpStream, usize),
    /// None waits, or none can be accepted now.
    Nobody,
    /// One was given up before it was accepted.
    GivenUp,
    /// The system has no descriptor or no memory for one. It is tried again.
    Refused(io::Error),
    /// None can be accepted any more, and so many were still to come; where places are given on those count as one.
    Failed(io::Error, u32),
}

impl Acceptor {
    /// Before so many connections, at least one, as the sizes say. An error means that the system refuses, or that an allocation failed.
    pub(crate) fn new<H: Net>(
        rt: &H,
        alloc: Global,
        listener: TcpListener,
        sizes: &Sizes,
        signal: &EndSignal,
    ) -> io::Result<Acceptor> {
        let poll = Poll::new(rt)?;
        let Ok(events) = Events::with_capacity(alloc, EVENTS) else {
            return Err(io::Error::from(ErrorKind::OutOfMemory));
        };
        let descriptor = listener.as_raw_fd();
        poll.registry()
            .register(&mut SourceFd(&descriptor), LISTENER, Interest::READABLE)?;
        signal.register(poll.registry(), END)?;
        Ok(Acceptor {
            listener: Some(listener),
            poll,
            events,
            seen: 0,
            intake: Intake {
                accepted: 0,
                left: sizes.connections,
                since: None,
                has_failed: false,
            },
            renewal: sizes.drain.map(Renewal::new),
        })
    }

    /// What wakes the thread that waits here where a connection has ended, if its place is given on.
    pub(crate) fn waker(&self) -> io::Result<Option<Waker>> {
        match &self.renewal {
            Some(_) => Ok(Some(Waker::new(self.poll.registry(), PLACE)?)),
            None => Ok(None),
        }
    }

    /// Whether the place of a connection that has ended is given on.
    pub(crate) fn renews(&self) -> bool {
        self.renewal.is_some()
    }

    /// So many connections have ended. Where places are given on as many more can be accepted.
    pub(crate) fn give_on(&mut self, count: u32) {
        if self.renews() {
            self.intake.left = self.intake.left.saturating_add(count);
        }
    }

    /// Looks whether the daemon is to end, if that is told by standard input. Where it has ended the listener is closed.
    pub(crate) fn course<H: Clock + Input>(&mut self, rt: &H) -> Course {
        let Some(renewal) = &mut self.renewal else {
            return Course::On;
        };
        match renewal.look(rt, self.poll.registry(), INPUT) {
            Course::Drains if self.listener.is_none() => Course::On,
            Course::Drains => {
                self.close();
                Course::Drains
            }
            course => course,
        }
    }

    /// How many connections were accepted.
    pub(crate) fn accepted(&self) -> usize {
        self.intake.accepted
    }

    /// Whether a connection could not be accepted, and none is any more.
    pub(crate) fn has_failed(&self) -> bool {
        self.intake.has_failed
    }

    /// Accepts a connection, if one waits and is still to come. Where the system has no descriptor or no memory for it that is said once, and it is
    /// tried again for 5 seconds; where places are given on, until it has. With the last connection the listener is closed.
    pub(crate) fn accept<H: Clock>(&mut self, rt: &H) -> Accept {
        let Some(listener) = &self.listener else {
            return Accept::Nobody;
        };
        if self.intake.left == 0 {
            return Accept::Nobody;
        }
        match listener.accept() {
            Ok((stream, _)) => self.take_in(stream),
            Err(error) => match error.kind() {
                ErrorKind::WouldBlock => Accept::Nobody,
                ErrorKind::Interrupted | ErrorKind::ConnectionAborted => Accept::GivenUp,
                _ => self.refuse(rt, error),
            },
        }
    }

    /// A connection that was accepted, and its number. With the last one the listener is closed.
    fn take_in(&mut self, stream: TcpStream) -> Accept {
        let number = self.intake.accepted;
        self.intake.accepted = number.saturating_add(1);
        self.intake.left = self.intake.left.saturating_sub(1);
        self.intake.since = None;
        if self.intake.left == 0 && !self.renews() {
            self.close();
        }
        Accept::Accepted(stream, number)
    }

    /// Closes the listener: the system refuses those who come from now on, and those who wait to be accepted.
    fn close(&mut self) {
        if let Some(listener) = self.listener.take() {
            let descriptor = listener.as_raw_fd();
            let _unwatched = self.poll.registry().deregister(&mut SourceFd(&descriptor));
            drop(listener);
        }
    }

    /// What becomes of a connection that the system refuses to accept.
    fn refuse<H: Clock>(&mut self, rt: &H, error: io::Error) -> Accept {
        let may_pass = error
            .raw_os_error()
            .is_some_and(|code| WANTS.contains(&code));
        if let (true, Ok(now)) = (may_pass, Instant::now(rt)) {
            let Some(since) = self.intake.since else {
                self.intake.since = Some(now);
                return Accept::Refused(error);
            };
            if self.renews() || now.duration_since(since) < Duration::from_secs(TRIES_AGAIN) {
                return Accept::Nobody;
            }
        }
        let left = if self.renews() { 1 } else { self.intake.left };
        self.intake.left = 0;
        self.intake.has_failed = true;
        self.close();
        Accept::Failed(error, left)
    }

    /// Has the connection reported once something comes, and says whether it will be: the system may refuse.
    pub(crate) fn watch(&self, connection: &mut ClientConnection) -> bool {
        if !connection.is_watched {
            let token = Token(connection.number.saturating_add(FIRST));
            let descriptor = connection.descriptor();
            let answer = self
                .poll
                .registry()
                .register(&mut SourceFd(&descriptor), token, Interest::READABLE);
            connection.is_watched = answer.is_ok();
        }
        connection.is_watched
    }

    /// The connection is not reported any more.
    pub(crate) fn unwatch(&self, connection: &mut ClientConnection) {
        if connection.is_watched {
            let descriptor = connection.descriptor();
            let _unwatched = self.poll.registry().deregister(&mut SourceFd(&descriptor));
            connection.is_watched = false;
        }
    }

    /// Waits until something comes, the epoch ends, or nothing happened for so many milliseconds.
    pub(crate) fn wait(&mut self, milliseconds: u64) -> io::Result<()> {
        self.seen = 0;
        self.poll.poll(&mut self.events, Some(Duration::from_millis(milliseconds)))
    }

    /// The number of the next connection to which something came, of those that the last wait reported.
    pub(crate) fn next_ready(&mut self) -> Option<usize> {
        for event in self.events.iter().skip(self.seen) {
            self.seen = self.seen.saturating_add(1);
            let Token(token) = event.token();
            if event.token() == INPUT
                && let Some(renewal) = &mut self.renewal
            {
                renewal.note();
            }
            if let Some(number) = token.checked_sub(FIRST) {
                return Some(number);
            }
        }
        None
    }
}
