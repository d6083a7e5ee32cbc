//! The writing side of a connection's stream (`Sender`), and what was sent by it (`SentBytes`).
ghost use Rattle.std.specs.Prelude.{◌≡◌, ◌≤◌, [], Some, length, IfOk, IfSome};
ghost use Rattle.cap_session.specs.Counted.{bytes_in};
ghost use Rattle.cap_streams.specs.Sends.{Sends};

use crate::poller::Poller;
use crate::signal::EndSignal;
use cap_session::log_bytes;
use http_server::Log;
use std::io::{self, ErrorKind, Write};
use std::time::{Clock, Duration, Instant};

/// How long a client may take no byte, in seconds.
const TAKES_NOTHING: u64 = 5;

/// The writing side of a stream that does not block, and how it is waited for.
#[derive(Drop)]
pub struct Sender<'a, S, H> {
    rt: &'a H,
    stream: S,
    poller: &'a mut Poller,
    signal: &'a EndSignal,
}

impl<'a, S: Write, H: Clock> Sender<'a, S, H> {
    pub fn new(
        rt: &'a H,
        stream: S,
        poller: &'a mut Poller,
        signal: &'a EndSignal,
    ) -> Sender<'a, S, H>
        ensures { result.stream ≡ stream }
    {
        Sender {
            rt,
            stream,
            poller,
            signal,
        }
    }

    /// Writes once, and waits while the client takes nothing, from `since` on for 5 seconds. Says how many first bytes the stream took. `None` where
    /// the epoch is ending meanwhile; then, and after an error, it has taken none.
    fn send(&mut self, since: &mut Option<Instant>, bytes: &[u8]) -> io::Result<Option<usize>>
        ensures count { IfOk result (λ sent. IfSome sent (λ count. count ≤ length bytes.now)) }
        ensures stream { Sends (S.contents self.old.stream) (S.contents self.new.stream)
            result bytes.now }
    {
        for _ in 0..u64::MAX {
            let answer = self.stream.write(bytes);
            self.poller.note(&answer, bytes.len());
            match answer {
                Ok(count) => {
                    *since = None;
                    return Ok(Some(count));
                }
                Err(error) => {
                    if error.kind() != ErrorKind::WouldBlock {
                        return Err(error);
                    }
                }
            }
            if self.signal.is_over() {
                return Ok(None);
            }
            self.wait(since)?;
        }
        Ok(None)
    }

    /// Waits until the client takes something again, or for 50 milliseconds. Fails where it has taken nothing for 5 seconds.
    fn wait(&mut self, since: &mut Option<Instant>) -> io::Result<()>
        ensures { self.new.stream ≡ self.old.stream }
    {
        let now = Instant::now(self.rt)?;
        let begun = *since.get_or_insert(now);
        if now.duration_since(begun) >= Duration::from_secs(TAKES_NOTHING) {
            return Err(io::Error::from(ErrorKind::TimedOut));
        }
        self.poller.wait()?;
        Ok(())
    }
}

/// The bytes that a client's stream has taken, which contracts alone see, and since when it has taken none.
#[derive(Drop)]
pub struct SentBytes {
    log: Log<u8, ()>,
    since: Option<Instant>,
}

impl SentBytes {
    /// None was sent.
    pub fn new() -> SentBytes
        ensures { bytes_in result.log.items ≡ [] }
    {
        SentBytes {
            log: Log::new(),
            since: None,
        }
    }

    /// Writes once, as `Sender::send` does. The bytes that the stream took are noted.
    pub fn send<S: Write, H: Clock>(
        &mut self,
        sender: &mut Sender<'_, S, H>,
        bytes: &[u8],
    ) -> io::Result<Option<usize>>
        ensures count { IfOk result (λ sent. IfSome sent (λ count. count ≤ length bytes.now)) }
        ensures stream { Sends (S.contents sender.old.stream) (S.contents sender.new.stream)
            result bytes.now }
        ensures log { Sends
            (Some (bytes_in self.old.log.items)) (Some (bytes_in self.new.log.items))
            result bytes.now }
    {
        let sent = sender.send(&mut self.since, bytes);
        if let Ok(Some(count)) = &sent {
            log_bytes(&mut self.log, &bytes[..*count]);
        }
        sent
    }
}
