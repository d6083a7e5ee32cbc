//! A connection, served from epoch to epoch (`ClientConnection`).
ghost use Rattle.std.specs.Prelude.{◌≡◌, [], None, IfSome};
ghost use Rattle.cap_session.specs.Session.{new_session};
ghost use Rattle.std.specs.Option.{option_to_list};
ghost use Rattle.cap_session.specs.Session.{open_requests};
ghost use Rattle.cap_serving.specs.Sessions.{IsServed};
ghost use Rattle.cap_streams.specs.Backlogs.{handed_bytes};

use cap_base::RESOURCES;
use cap_model::Request;
use cap_serving::{EndCause, SessionEnd, serve_session};
use cap_session::{Counted, Session};
use cap_shared::{Naming, Seat, Shared};
use cap_streams::{Backlog, EndSignal, Incoming, Outgoing, Poller, Sender, Uninterrupted};
use mio::Interest;
use std::alloc::Global;
use std::io::{self, ErrorKind, Read, Write};
use std::net::{Net, Shutdown, TcpStream};
use std::os::fd::{AsRawFd, RawFd};
use std::sync::Wait;
use std::time::{Clock, Duration, Instant};

/// How many reads are made at most of what a client sends that is not looked at any more.
const DRAIN_READS: u32 = 64;

/// For how many seconds it is tried again to make a connection's thread.
const TRIES_AGAIN: u64 = 5;

/// The socket of a connection.
#[derive(Drop)]
struct ClientSocket {
    stream: TcpStream,
    /// Waits until the client sends something.
    poller: Poller,
    /// Waits until the client takes something.
    taking: Poller,
}

/// A session that has not ended, and its open request, if it has one. All bytes that it has written out, in order, are those that the socket has taken
/// and then those that the backlog keeps.
#[derive(Drop)]
struct OpenSession {
    session: Session,
    pending: Option<Request<RESOURCES>>,
    backlog: Backlog,
    ghost goes_on: { session.ended ≡ None },
    ghost open: { open_requests session.opens ≡ option_to_list pending },
    ghost handed_on: { session.sent ≡ handed_bytes backlog },
}

impl OpenSession {
    /// Its session, the open request, and the backlog.
    fn into_parts(self) -> (Session, Option<Request<RESOURCES>>, Backlog)
        ensures session { result.0 ≡ self.session }
        ensures goes_on { result.0.ended ≡ None }
        ensures open { open_requests result.0.opens ≡ option_to_list result.1 }
        ensures handed_on { result.0.sent ≡ handed_bytes result.2 }
    {
        let OpenSession {
            session,
            pending,
            backlog,
        } = self;
        (session, pending, backlog)
    }

    /// Writes what the backlog keeps.
    fn write_kept<S: Write, H: Clock>(&mut self, sender: &mut Sender<'_, S, H>) -> io::Result<()> {
        self.backlog.write_out(sender)
    }
}

/// What is done with a connection.
#[derive(Drop)]
enum Phase {
    /// Its requests are answered.
    Serving(OpenSession),
    /// It was answered for the last time. What it still sends is read, in so many reads at most.
    Closing(Backlog, u32),
}

impl Phase {
    /// Whether the client has not taken all yet.
    fn is_behind(&self) -> bool {
        match self {
            Phase::Serving(open_session) => !open_session.backlog.is_empty(),
            Phase::Closing(backlog, _) => !backlog.is_empty(),
        }
    }

    /// Writes what the client has not taken yet, until it has taken all or the epoch is ending.
    fn write_kept<S: Write, H: Clock>(&mut self, sender: &mut Sender<'_, S, H>) -> io::Result<()> {
        match self {
            Phase::Serving(open_session) => open_session.write_kept(sender),
            Phase::Closing(backlog, _) => backlog.write_out(sender),
        }
    }
}

/// A connection from epoch to epoch.
#[derive(Drop)]
pub struct ClientConnection {
    /// Connections are numbered from 0, in the order in which they were accepted.
    pub number: usize,
    /// Whether it is reported to the thread of the daemon once something comes.
    pub is_watched: bool,
    /// Since when no thread could be made for it.
    refused: Option<Instant>,
    socket: ClientSocket,
    phase: Phase,
}

/// What becomes of a connection for which no thread could be made.
#[derive(Clone, Copy)]
pub enum Refused {
    /// It was the first time. It is tried again.
    First,
    /// It is tried again.
    Again,
    /// None could be made for 5 seconds: it is closed.
    GivenUp,
}

/// How a connection goes on.
#[derive(Clone, Copy)]
enum Course {
    /// It is served on.
    On,
    /// It is served on once something comes.
    Rests,
    /// The journal is full.
    Sealed,
    /// It is served on in the next epoch.
    Later,
}

impl ClientConnection {
    /// A connection that was accepted. An error means that its stream can't be set up, or that an allocation failed.
    pub fn new<H: Net>(
        rt: &H,
        alloc: Global,
        stream: TcpStream,
        number: usize,
        signal: &EndSignal,
    ) -> io::Result<ClientConnection> {
        stream.set_nodelay(true)?;
        stream.set_nonblocking(true)?;
        let poller = Poller::new(rt, alloc, &stream, Interest::READABLE, signal)?;
        let taking = Poller::new(rt, alloc, &stream, Interest::WRITABLE, signal)?;
        let Some(open_session) = new_open_session(alloc) else {
            return Err(io::Error::from(ErrorKind::OutOfMemory));
        };
        Ok(ClientConnection {
            number,
            is_watched: false,
            refused: None,
            socket: ClientSocket {
                stream,
                poller,
                taking,
            },
            phase: Phase::Serving(open_session),
        })
    }

    /// Its socket's descriptor.
    pub fn descriptor(&self) -> RawFd {
        self.socket.stream.as_raw_fd()
    }

    /// Whether there is something to do for it, although nothing more comes.
    pub fn is_busy(&self) -> bool {
        let is_open = match &self.phase {
            Phase::Serving(open_session) => open_session.pending.is_some(),
            Phase::Closing(_, _) => true,
        };
        is_open || self.socket.poller.is_ready() || self.phase.is_behind()
    }

    /// No thread could be made for it. Whether it is tried again, and whether that is to be said.
    pub fn refuse<H: Clock>(&mut self, rt: &H) -> Refused {
        let Ok(now) = Instant::now(rt) else {
            return Refused::GivenUp;
        };
        match self.refused {
            None => {
                self.refused = Some(now);
                Refused::First
            }
            Some(since) if now.duration_since(since) < Duration::from_secs(TRIES_AGAIN) => {
                Refused::Again
            }
            Some(_) => Refused::GivenUp,
        }
    }

    /// Serves the connection until it ends or the epoch does. Where the journal is full the epoch ends. The connection comes back if it is to be
    /// served in the next.
    pub fn serve<J: Naming, H: Wait + Clock>(
        self,
        rt: &H,
        shared: &Shared<J>,
        seat: &mut Seat<J>,
        signal: &EndSignal,
    ) -> Option<ClientConnection> {
        let ClientConnection {
            number,
            is_watched,
            refused: _,
            mut socket,
            phase,
        } = self;
        let phase = socket.serve_phases(rt, shared, seat, phase, signal)?;
        Some(ClientConnection {
            number,
            is_watched,
            refused: None,
            socket,
            phase,
        })
    }
}

impl ClientSocket {
    /// Goes on with the connection until it ends or the epoch does. What is done with it in the next, if it has not ended.
    fn serve_phases<J: Naming, H: Wait + Clock>(
        &mut self,
        rt: &H,
        shared: &Shared<J>,
        seat: &mut Seat<J>,
        phase: Phase,
        signal: &EndSignal,
    ) -> Option<Phase> {
        let mut phase = phase;
        for _ in rt.forever() {
            if self.write_kept(rt, &mut phase, signal).is_err() {
                return None;
            }
            if phase.is_behind() {
                return Some(phase);
            }
            let (next, course) = self.serve_once(rt, shared, seat, phase, signal)?;
            phase = next;
            match course {
                Course::On => {}
                Course::Rests => {
                    if self.rest(rt, shared, signal).ok()? {
                        return Some(phase);
                    }
                }
                Course::Sealed => {
                    signal.raise(rt);
                    return Some(phase);
                }
                Course::Later => return Some(phase),
            }
        }
        unreachable!()
    }

    /// Writes what the client has not taken yet, until it has taken all or the epoch is ending.
    fn write_kept<'x, H: Clock>(
        &'x mut self,
        rt: &'x H,
        phase: &mut Phase,
        signal: &'x EndSignal,
    ) -> io::Result<()> {
        if !phase.is_behind() {
            return Ok(());
        }
        let stream = Uninterrupted::new(&self.stream);
        phase.write_kept(&mut Sender::new(rt, stream, &mut self.taking, signal))
    }

    /// Serves the session once, or takes what a client still sends. `None` where the connection has ended.
    fn serve_once<J: Naming, H: Wait + Clock>(
        &mut self,
        rt: &H,
        shared: &Shared<J>,
        seat: &mut Seat<J>,
        phase: Phase,
        signal: &EndSignal,
    ) -> Option<(Phase, Course)> {
        match phase {
            Phase::Serving(open_session) => self.serve(rt, shared, seat, open_session, signal),
            Phase::Closing(backlog, reads) => {
                let left = self.drain(rt, reads, signal)?;
                Some((Phase::Closing(backlog, left), Course::Later))
            }
        }
    }

    /// Serves a session until it ends, nothing comes in time, the journal is full or the epoch is ending. `None` where the connection has ended with it.
    fn serve<J: Naming, H: Wait + Clock>(
        &mut self,
        rt: &H,
        shared: &Shared<J>,
        seat: &mut Seat<J>,
        open_session: OpenSession,
        signal: &EndSignal,
    ) -> Option<(Phase, Course)> {
        let (end, backlog) = serve_stream(
            rt,
            shared,
            seat,
            open_session,
            &self.stream,
            &mut self.poller,
            &mut self.taking,
            signal,
        );
        let SessionEnd {
            session,
            sent: _,
            unsent: _,
            cause,
        } = end;
        match cause {
            EndCause::Quiet => {
                let open_session = OpenSession {
                    session,
                    pending: None,
                    backlog,
                };
                Some((Phase::Serving(open_session), Course::Rests))
            }
            EndCause::Sealed(request) => {
                let open_session = OpenSession {
                    session,
                    pending: Some(request),
                    backlog,
                };
                Some((Phase::Serving(open_session), Course::Sealed))
            }
            EndCause::Faulted | EndCause::NoMemory => {
                Some((Phase::Closing(backlog, DRAIN_READS), Course::On))
            }
            EndCause::InputEnded | EndCause::ReadFault | EndCause::WriteFault => None,
        }
    }

    /// Waits until something comes, or until the epoch ends, which it does where the journal is full. Whether it ends.
    fn rest<J: Naming, H: Wait + Clock>(
        &mut self,
        rt: &H,
        shared: &Shared<J>,
        signal: &EndSignal,
    ) -> io::Result<bool> {
        for _ in rt.forever() {
            if shared.is_full() {
                signal.raise(rt);
            }
            if signal.is_over() {
                return Ok(true);
            }
            if self.poller.is_ready() {
                return Ok(false);
            }
            self.poller.wait()?;
        }
        unreachable!()
    }

    /// Takes what a client still sends, after its connection was answered for the last time, until nothing comes in time or the epoch is ending: what
    /// is left unread when a connection is closed can make the system take back what was sent last. How many reads are still to be made; `None` if
    /// the connection can be closed.
    fn drain<H: Wait + Clock>(&mut self, rt: &H, reads: u32, signal: &EndSignal) -> Option<u32> {
        let _shut = self.stream.shutdown(Shutdown::Write);
        for left in (0..reads).rev() {
            if signal.is_over() {
                return Some(left);
            }
            if !self.poller.is_ready() && !self.poller.wait().ok()? {
                return None;
            }
            if !self.goes_on(rt, signal) {
                return None;
            }
        }
        None
    }

    /// Reads once, and drops what came. Whether more may come.
    fn goes_on<'x, H: Wait + Clock>(&'x mut self, rt: &'x H, signal: &'x EndSignal) -> bool {
        let mut buffer = [0u8; 1024];
        let ClientSocket { stream, poller, .. } = self;
        match Incoming::new(rt, stream, poller, signal).read(&mut buffer) {
            Ok(count) => count > 0,
            Err(error) => error.kind() == ErrorKind::WouldBlock,
        }
    }
}

/// Serves a session over a stream, as `serve_session` does. What it writes out is handed over, after all that was before.
fn serve_stream<'x, J: Naming, H: Wait + Clock>(
    rt: &'x H,
    shared: &Shared<J>,
    seat: &mut Seat<J>,
    open_session: OpenSession,
    stream: &'x TcpStream,
    poller: &'x mut Poller,
    taking: &'x mut Poller,
    signal: &'x EndSignal,
) -> (SessionEnd, Backlog)
    ensures served { IsServed J.limit open_session.session result.0.session
        seat.old seat.new result.0.cause }
    ensures handed_on { result.0.session.sent ≡ handed_bytes result.1 }
{
    let (session, pending, backlog) = open_session.into_parts();
    let sender = Sender::new(rt, Uninterrupted::new(stream), taking, signal);
    let mut reader = Counted::new(Incoming::new(rt, stream, poller, signal));
    let mut writer = Counted::new(Outgoing::new(sender, backlog));
    let end = serve_session(rt, shared, seat, session, pending, &mut reader, &mut writer);
    (end, writer.into_inner().into_backlog())
}

/// A session of which nothing was read. `None` if an allocation fails.
fn new_open_session(alloc: Global) -> Option<OpenSession> {
    let session = new_session_in(alloc)?;
    Some(OpenSession {
        session,
        pending: None,
        backlog: Backlog::new(alloc),
    })
}

/// A session to which nothing was fed. `None` if an allocation fails.
fn new_session_in(alloc: Global) -> Option<Session>
    ensures { IfSome result (λ session. session ≡ new_session) }
{
    Session::open(alloc).ok()
}
