//! Waiting until a stream can be read or written, or the epoch ends (`Poller`).
use crate::signal::EndSignal;
use mio::unix::SourceFd;
use mio::{Events, Interest, Poll, Token};
use std::alloc::Global;
use std::io::{self, ErrorKind};
use std::net::{Net, TcpStream};
use std::os::fd::AsRawFd;
use std::time::Duration;

/// How long a wait lasts at most where nothing happens, in milliseconds.
const WAITS: u64 = 50;

const STREAM: Token = Token(0);

const END: Token = Token(1);

/// Waits until a stream can be read, or until it can be written. It waits for one of the two; a stream that is served has one of each.
#[derive(Drop)]
pub struct Poller {
    poll: Poll,
    events: Events,
    /// Whether the next call on the stream may have an answer. The system reports changes alone, so this stays until a call has had none.
    is_ready: bool,
    /// Whether the peer has closed its side, or the stream has failed. No further change may come then.
    is_closed: bool,
}

impl Poller {
    /// Waits for the stream, and for the end of the epoch. An error means that the system refuses, or that an allocation failed.
    pub fn new<H: Net>(
        rt: &H,
        alloc: Global,
        stream: &TcpStream,
        interest: Interest,
        signal: &EndSignal,
    ) -> io::Result<Poller> {
        let poll = Poll::new(rt)?;
        let Ok(events) = Events::with_capacity(alloc, 2) else {
            return Err(io::Error::from(ErrorKind::OutOfMemory));
        };
        let descriptor = stream.as_raw_fd();
        poll.registry()
            .register(&mut SourceFd(&descriptor), STREAM, interest)?;
        signal.register(poll.registry(), END)?;
        Ok(Poller {
            poll,
            events,
            is_ready: false,
            is_closed: false,
        })
    }

    /// Whether the next call on the stream may have an answer.
    pub fn is_ready(&self) -> bool {
        self.is_ready
    }

    /// Waits until the stream is ready, the epoch ends, or nothing happened for 50 milliseconds. Whether something happened.
    pub fn wait(&mut self) -> io::Result<bool> {
        let waits = Duration::from_millis(WAITS);
        self.poll.poll(&mut self.events, Some(waits))?;
        for event in &self.events {
            if event.token() == STREAM {
                self.is_ready = true;
                if event.is_read_closed() || event.is_write_closed() || event.is_error() {
                    self.is_closed = true;
                }
            }
        }
        Ok(!self.events.is_empty())
    }

    /// Notes what a call on the stream with so much room was answered: one that used less than its room, or that had no answer, is followed by
    /// a change that the system reports.
    pub fn note(&mut self, answer: &io::Result<usize>, room: usize) {
        match answer {
            Ok(count) => {
                if *count > 0 && *count < room && !self.is_closed {
                    self.is_ready = false;
                }
            }
            Err(error) => {
                if error.kind() == ErrorKind::WouldBlock {
                    self.is_ready = false;
                }
            }
        }
    }
}
