//! One connection that would hold up all others, if a change of epochs waited for it.
use crate::client::{BAD_LENGTH, connect, is_answered, is_taken, receive, send};
use crate::gates::GateOf;
use crate::side::{ONE_QUEUE, Outcome, closed_by, listen, served};
use cap_server::{Scheduling, Sizes};
use cap_testing::Mark;
use std::alloc::Global;
use std::io::{self, Input, StdinLock};
use std::net::{Net, TcpListener, TcpStream};
use std::sync::Wait;
use std::test::*;
use std::thread::{Threads, join, sleep};
use std::time::{Clock, Duration};

/// How many ClusterInfos the other connection makes: three epochs of four entries.
const CALLS: u32 = 12;

/// How often something is sent at most while the other connection is served.
const SENDS: u32 = 500;

/// A payload of one byte, which is no request, and the fault reply with status 41.
const MALFORMED: [u8; 5] = [0, 0, 0, 1, 9];

const BAD_MESSAGE: [u8; 11] = [0, 0, 0, 7, 1, 0, 0, 0, 0, 0, 41];

/// What the one connection does.
#[derive(Clone, Copy)]
enum Trouble {
    /// It sends a payload byte by byte, and never ends it.
    Drips,
    /// It sends payloads that are no requests.
    Floods,
    /// It reads none of its answers, and the sockets are full.
    ReadsNothing,
    /// It sends a length that no frame has, and goes on sending.
    BadLength,
    /// It comes once the other one has ended.
    ComesLate,
}

/// Sends bytes every 20 milliseconds until the other connection has ended. Whether they could be sent.
fn drip<H: Clock>(rt: &H, stream: &TcpStream, ended: &Mark) -> bool {
    for _ in 0..SENDS {
        if ended.is_reached(1) {
            break;
        }
        if send(stream, &[1]).is_err() {
            return false;
        }
        sleep(rt, Duration::from_millis(20));
    }
    true
}

/// Sends a payload that is no request, and reads its answer.
fn is_refused(stream: &TcpStream) -> io::Result<bool> {
    send(stream, &MALFORMED)?;
    let mut answer = [0u8; 11];
    receive(stream, &mut answer)?;
    Ok(answer == BAD_MESSAGE)
}

/// Sends payloads that are no requests until no more is taken within a while.
fn fill(alloc: Global, stream: &TcpStream) -> io::Result<()> {
    stream.set_write_timeout(Some(Duration::from_millis(500)))?;
    let frames = MALFORMED.repeat(alloc, 10_000)?;
    if is_taken(stream, frames.as_slice(), SENDS) {
        return Err(io::Error::from(io::ErrorKind::Other));
    }
    Ok(())
}

/// Begins a payload, and goes on with it byte by byte.
fn drips<H: Clock>(rt: &H, stream: &TcpStream, begun: &Mark, ended: &Mark) -> io::Result<bool> {
    send(stream, &[0, 1, 0, 0])?;
    begun.reach(1);
    Ok(drip(rt, stream, ended))
}

/// Sends payloads that are no requests, and reads their answers.
fn floods(stream: &TcpStream, begun: &Mark, ended: &Mark) -> io::Result<bool> {
    for _ in 0..u64::MAX {
        if ended.is_reached(1) {
            break;
        }
        let is_right = is_refused(stream)?;
        begun.reach(1);
        if !is_right {
            return Ok(false);
        }
    }
    Ok(true)
}

/// Sends a length that no frame has, and goes on after its answer.
fn goes_on<H: Clock>(rt: &H, stream: &TcpStream, begun: &Mark, ended: &Mark) -> io::Result<bool> {
    send(stream, &[0; 4])?;
    let mut answer = [0u8; 11];
    receive(stream, &mut answer)?;
    begun.reach(1);
    let _sent = drip(rt, stream, ended);
    Ok(answer == BAD_LENGTH)
}

impl Trouble {
    /// Does it on this connection until the other one has ended. `begun` is reached once it has begun.
    fn make<H: Clock>(
        self,
        rt: &H,
        alloc: Global,
        stream: &TcpStream,
        begun: &Mark,
        ended: &Mark,
    ) -> io::Result<bool> {
        match self {
            Trouble::Drips => drips(rt, stream, begun, ended),
            Trouble::Floods => floods(stream, begun, ended),
            Trouble::ReadsNothing => {
                fill(alloc, stream)?;
                begun.reach(1);
                Ok(ended.awaits(1))
            }
            Trouble::BadLength => goes_on(rt, stream, begun, ended),
            Trouble::ComesLate => is_answered(stream),
        }
    }
}

/// Opens a connection and makes the trouble on it, once the other one has ended if it comes late.
fn make_trouble<H: Net<Listener = TcpListener, Stream = TcpStream> + Clock>(
    rt: &H,
    alloc: Global,
    port: u16,
    trouble: Trouble,
    begun: &Mark,
    ended: &Mark,
) -> io::Result<bool> {
    if let Trouble::ComesLate = trouble {
        begun.reach(1);
        if !ended.awaits(1) {
            return Ok(false);
        }
    }
    let stream = connect(rt, port)?;
    trouble.make(rt, alloc, &stream, begun, ended)
}

/// Makes the calls of the other connection, each of which is to be answered within 2 seconds.
fn make_calls(stream: &TcpStream) -> io::Result<bool> {
    stream.set_read_timeout(Some(Duration::from_secs(2)))?;
    for _ in 0..CALLS {
        if !is_answered(stream)? {
            return Ok(false);
        }
    }
    Ok(true)
}

/// Opens the other connection, and makes its calls.
fn are_calls_answered<H: Net<Listener = TcpListener, Stream = TcpStream>>(
    rt: &H,
    port: u16,
) -> io::Result<bool> {
    let stream = connect(rt, port)?;
    make_calls(&stream)
}

/// Makes the calls once the trouble has begun, and says when it has ended.
fn answered_beside<H: Net<Listener = TcpListener, Stream = TcpStream>>(
    rt: &H,
    port: u16,
    begun: &Mark,
    ended: &Mark,
) -> bool {
    let is_answered = begun.awaits(1) && are_calls_answered(rt, port).unwrap_or(false);
    ended.reach(1);
    is_answered
}

/// Makes the trouble and the calls at the same time. Whether both were answered as they have to be.
fn make_both<
    H: Net<Listener = TcpListener, Stream = TcpStream> + Threads + Wait + Clock + Eprint + Sync,
>(rt: &H, alloc: Global, port: u16, trouble: Trouble) -> bool {
    let (begun, ended) = (Mark::new(), Mark::new());
    let (made, answered) = join(
        rt,
        || { make_trouble(rt, alloc, port, trouble, &begun, &ended).unwrap_or(false) },
        || answered_beside(rt, port, &begun, &ended),
    );
    made && answered
}

/// What came of a daemon of some epochs of four entries, with both connections beside it.
fn beside_both<
    H: Net<Listener = TcpListener, Stream = TcpStream>
        + Threads
        + Wait
        + Clock
        + Eprint
        + Input<Reader = StdinLock<'static>>
        + Sync,
>(rt: &H, alloc: Global, trouble: Trouble) -> Option<Outcome> {
    let sizes = Sizes {
        workers: 1,
        scheduling: Scheduling::Follow,
        connections: 2,
        journal: 4,
        lanes: Some(64),
        drain: None,
        stats: None,
    };
    let (listener, port) = listen(rt)?;
    let ((status, printed), answered) = join(
        rt,
        || served(rt, alloc, ONE_QUEUE, listener, &sizes, GateOf::Open),
        || make_both(rt, alloc, port, trouble),
    );
    Some(Outcome {
        status,
        printed,
        answered,
    })
}

/// How many entries a daemon has in all, in epochs of four, if it answers a connection over these while another one makes trouble.
fn entries_beside<
    H: Net<Listener = TcpListener, Stream = TcpStream>
        + Threads
        + Wait
        + Clock
        + Eprint
        + Input<Reader = StdinLock<'static>>
        + Sync,
>(rt: &H, alloc: Global, trouble: Trouble) -> Option<u64> {
    let (_epochs, entries) = closed_by(&beside_both(rt, alloc, trouble)?)?;
    Some(entries)
}

#[test]
fn one_connection_holds_nobody_up(rt: HostRuntime) {
    for &(name, trouble, entries) in &[
        ("a drip", Trouble::Drips, 12),
        ("a flood", Trouble::Floods, 12),
        ("one that reads nothing", Trouble::ReadsNothing, 12),
        ("bytes after a bad length", Trouble::BadLength, 12),
        ("one that comes late", Trouble::ComesLate, 13),
    ] {
        assert!(rt;
            entries_beside(&rt, rt.alloc(), trouble) == Some(entries),
            "{name}"
        );
    }
}
