//! A session that is served until its input ends or something fails.
ghost use Rattle.std.specs.Prelude.{◌≡◌, IsTrue, None};
ghost use Rattle.cap_session.specs.Counted.{state_of, CanCount};
ghost use Rattle.std.specs.Option.{option_to_list};
ghost use Rattle.cap_session.specs.Session.{open_requests};

use cap_base::RESOURCES;
use cap_commit::Cluster;
use cap_model::Request;
use cap_serving::{EndCause, SessionEnd, serve_session};
use cap_session::{Counted, Session};
use cap_shared::{Naming, Seat, Shared};
use cap_testing::cluster;
use std::alloc::Global;
use std::io::{Read, Write};
use std::sync::Wait;

/// A cause without its request.
#[derive(Clone, Copy, PartialEq, Eq)]
pub enum Ending {
    InputEnded,
    Faulted,
    Sealed,
    Quiet,
    ReadFault,
    WriteFault,
    NoMemory,
}

/// A session that can be served, with its open request, if it has one.
#[derive(Drop)]
pub struct Waiting {
    session: Session,
    pending: Option<Request<RESOURCES>>,
    ghost goes_on: { session.ended ≡ None },
    ghost open: { open_requests session.opens ≡ option_to_list pending },
}

impl Waiting {
    /// A session that was fed nothing.
    pub fn new(alloc: Global) -> Option<Waiting> {
        let Ok(session) = Session::open(alloc) else {
            return None;
        };
        Some(Waiting {
            session,
            pending: None,
        })
    }
}

/// How a session ended each time that it was served: how often, how often of these because its reader was quiet, the first time, and the last.
#[derive(Clone, Copy, PartialEq, Eq)]
pub struct Endings {
    pub times: u64,
    pub quiets: u64,
    pub first: Option<Ending>,
    pub last: Option<Ending>,
}

/// A session through all that it was served: the cluster between its epochs, how it ended each time, how many bytes went out, how many of its
/// answers are still to be written, and how many entries the journal of the last epoch has.
#[derive(Drop)]
pub struct Line {
    pub waiting: Option<Waiting>,
    pub cluster: Option<Cluster<RESOURCES>>,
    pub endings: Endings,
    pub sent: u64,
    pub unsent: usize,
    pub entries: usize,
}

impl Line {
    /// A session that was fed nothing, over the cluster of these queues.
    pub fn new(alloc: Global, queues: &[u8]) -> Option<Line> {
        let waiting = Waiting::new(alloc)?;
        let cluster = cluster(alloc, queues)?;
        Some(Line {
            waiting: Some(waiting),
            cluster: Some(cluster),
            endings: Endings {
                times: 0,
                quiets: 0,
                first: None,
                last: None,
            },
            sent: 0,
            unsent: 0,
            entries: 0,
        })
    }

    /// Counts that it ended so.
    fn end(&mut self, ending: Ending) {
        if self.endings.times == 0 {
            self.endings.first = Some(ending);
        }
        self.endings.times = self.endings.times.saturating_add(1);
        if ending == Ending::Quiet {
            self.endings.quiets = self.endings.quiets.saturating_add(1);
        }
        self.endings.last = Some(ending);
    }
}

/// What came of serving a session once.
#[derive(Drop)]
struct Served {
    ending: Ending,
    sent: u64,
    unsent: usize,
    next: Option<Waiting>,
}

/// Whether each count may still rise.
fn can_count<T>(stream: &Counted<T>) -> bool
    ensures { IsTrue result → CanCount (state_of stream.now) }
{
    stream.failures() < u64::MAX && stream.quiets() < u64::MAX && stream.ends() < u64::MAX
}

/// Serves a session once.
fn serve_once<J: Naming, H: Wait, R: Read, W: Write>(
    rt: &H,
    shared: &Shared<J>,
    seat: &mut Seat<J>,
    waiting: Waiting,
    reader: &mut Counted<R>,
    writer: &mut Counted<W>,
) -> Option<Served> {
    if !can_count(reader) || !can_count(writer) {
        return None;
    }
    let Waiting { session, pending } = waiting;
    let SessionEnd {
        session,
        sent,
        unsent,
        cause,
    } = serve_session(rt, shared, seat, session, pending, reader, writer);
    let (ending, next) = match cause {
        EndCause::Quiet => {
            let next = Waiting {
                session,
                pending: None,
            };
            (Ending::Quiet, Some(next))
        }
        EndCause::Sealed(request) => {
            let next = Waiting {
                session,
                pending: Some(request),
            };
            (Ending::Sealed, Some(next))
        }
        EndCause::InputEnded => (Ending::InputEnded, None),
        EndCause::Faulted => (Ending::Faulted, None),
        EndCause::ReadFault => (Ending::ReadFault, None),
        EndCause::WriteFault => (Ending::WriteFault, None),
        EndCause::NoMemory => (Ending::NoMemory, None),
    };
    Some(Served {
        ending,
        sent,
        unsent,
        next,
    })
}

/// Serves a session in one epoch, again after each time that it was quiet, 64 times at most.
pub fn serve<J: Naming, H: Wait, R: Read, W: Write>(
    rt: &H,
    shared: &Shared<J>,
    seat: &mut Seat<J>,
    line: &mut Line,
    reader: &mut Counted<R>,
    writer: &mut Counted<W>,
) {
    for _ in 0..64 {
        let Some(waiting) = line.waiting.take() else {
            return;
        };
        let Some(served) = serve_once(rt, shared, seat, waiting, reader, writer) else {
            return;
        };
        line.sent = line.sent.saturating_add(served.sent);
        line.unsent = served.unsent;
        line.waiting = served.next;
        line.end(served.ending);
        if served.ending != Ending::Quiet {
            return;
        }
    }
}
