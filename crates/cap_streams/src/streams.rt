//! The reader and the writer over a connection's stream, which wait for no client once the epoch is ending.
ghost use Rattle.std.specs.Prelude.{◌≡◌, Some};
ghost use Rattle.std.specs.Io.{WritesAtMost};
ghost use Rattle.std.specs.Io.KnownBytes.{WriteAppends};
ghost use Rattle.cap_streams.specs.Sends.{IsLogged};
ghost use Rattle.cap_streams.specs.Backlogs.{sent_bytes, handed_bytes};

use crate::backlog::Backlog;
use crate::poller::Poller;
use crate::sender::Sender;
use crate::signal::EndSignal;
use crate::uninterrupted::Uninterrupted;
use std::io::{self, ErrorKind, Read, Write};
use std::net::TcpStream;
use std::sync::Wait;
use std::time::Clock;

/// Reads from a stream that does not block. It is quiet where nothing comes in 50 milliseconds, and as soon as the epoch is ending. What it reads
/// counts for the end of the epoch.
#[derive(Drop)]
pub struct Incoming<'a, H> {
    rt: &'a H,
    stream: Uninterrupted<&'a TcpStream>,
    poller: &'a mut Poller,
    signal: &'a EndSignal,
}

impl<'a, H: Wait + Clock> Incoming<'a, H> {
    pub fn new(
        rt: &'a H,
        stream: &'a TcpStream,
        poller: &'a mut Poller,
        signal: &'a EndSignal,
    ) -> Incoming<'a, H> {
        Incoming {
            rt,
            stream: Uninterrupted::new(stream),
            poller,
            signal,
        }
    }
}

impl<H: Wait + Clock> Read for Incoming<'_, H> {
    fn read(&mut self, buf: &mut [u8]) -> io::Result<usize> {
        if !self.signal.is_over() && !self.poller.is_ready() {
            self.poller.wait()?;
        }
        if self.signal.is_over() || !self.poller.is_ready() {
            return Err(io::Error::from(ErrorKind::WouldBlock));
        }
        let answer = self.stream.read(buf);
        self.poller.note(&answer, buf.len());
        if let Ok(count) = &answer {
            self.signal.bring(self.rt, *count);
        }
        answer
    }
}

/// Writes to a stream that does not block. It waits while the client takes nothing, for 5 seconds at most; once the epoch is ending it keeps what
/// the client does not take at once. What it takes it has sent, in order, but for the last bytes, which its backlog keeps.
#[derive(Drop)]
pub struct Outgoing<'a, S, H> {
    sender: Sender<'a, S, H>,
    backlog: Backlog,
}

impl<'a, S: Write + Drop, H: Clock> Outgoing<'a, S, H> {
    /// Writes by this sender, after what the backlog keeps.
    pub fn new(sender: Sender<'a, S, H>, backlog: Backlog) -> Outgoing<'a, S, H>
        ensures { result.backlog ≡ backlog }
    {
        Outgoing { sender, backlog }
    }

    /// What was handed over, and what of it is kept.
    pub fn into_backlog(self) -> Backlog
        ensures { result ≡ self.entry.backlog }
    {
        let Outgoing { sender: _, backlog } = self;
        backlog
    }
}

impl<S: Write, H: Clock> Write for Outgoing<'_, S, H> {
    ghost contents = { λ s. Some (handed_bytes s.backlog) };

    fn write(&mut self, buf: &[u8]) -> io::Result<usize>
        ensures bound { WritesAtMost result buf.now }
        ensures bytes { WriteAppends (Some (handed_bytes self.old.backlog))
            (Some (handed_bytes self.new.backlog)) result buf.now }
        ensures stream { IsLogged
            (S.contents self.old.sender.stream) (S.contents self.new.sender.stream)
            (sent_bytes self.old.backlog) (sent_bytes self.new.backlog) }
    {
        if !self.backlog.is_empty() {
            return self.backlog.keep(buf);
        }
        match self.backlog.send(&mut self.sender, buf)? {
            Some(count) => Ok(count),
            None => self.backlog.keep(buf),
        }
    }

    fn flush(&mut self) -> io::Result<()> {
        Ok(())
    }
}
