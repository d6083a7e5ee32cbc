//! A daemon, and a client beside it.
use crate::gates::GateOf;
use cap_config::read_config;
use cap_server::{Opened, Sizes, serve_on};
use cap_session::Counted;
use std::alloc::Global;
use std::io::{self, Input, StdinLock};
use std::net::{Net, TcpListener, TcpStream};
use std::sync::Wait;
use std::thread::{Threads, join};
use std::time::Clock;

/// One leaf queue.
pub const ONE_QUEUE: &[u8] = b"yarn.scheduler.capacity.root.queues=default";

/// What is done at the other end of the daemon's connections.
pub trait Client {
    /// Opens the connections, and says whether all was answered as it has to be. An error means that a socket failed.
    fn talk<
        H: Net<Listener = TcpListener, Stream = TcpStream> + Threads + Wait + Clock + Eprint + Sync,
    >(&self, rt: &H, alloc: Global, port: u16) -> io::Result<bool>;
}

/// What came of a daemon: its exit status, what it printed, and what the client said.
#[derive(Drop)]
pub struct Outcome {
    pub status: u8,
    pub printed: Vec<u8>,
    pub answered: bool,
}

/// A listener on a port of the loopback, and the port. `None` if the system has none.
pub fn listen<H: Net<Listener = TcpListener, Stream = TcpStream>>(
    rt: &H,
) -> Option<(TcpListener, u16)> {
    let listener = TcpListener::bind(rt, "127.0.0.1:0").ok()?;
    let port = listener.local_addr().ok()?.port();
    Some((listener, port))
}

/// Runs a daemon with the queues of these property lines on a port of the loopback, in a thread of its own, and the client beside it.
/// `None` if the lines have a fault, or the system has no port.
fn beside_daemon<
    H: Net<Listener = TcpListener, Stream = TcpStream>
        + Threads
        + Wait
        + Clock
        + Eprint
        + Input<Reader = StdinLock<'static>>
        + Sync,
    C: Client + Sync,
>(
    rt: &H,
    alloc: Global,
    lines: &[u8],
    sizes: &Sizes,
    gate: GateOf<'_>,
    client: &C,
) -> Option<Outcome> {
    let (listener, port) = listen(rt)?;
    let ((status, printed), answered) = join(
        rt,
        || served(rt, alloc, lines, listener, sizes, gate),
        || client.talk(rt, alloc, port).unwrap_or(false),
    );
    Some(Outcome {
        status,
        printed,
        answered,
    })
}

/// How many bytes a daemon prints at most, for which there is room from the start.
const PRINTED_MAX: usize = 200;

/// The daemon's exit status, and what it printed. The status is 2 if the lines have a fault, or if a size is out of its bounds.
pub fn served<H: Net + Threads + Wait + Clock + Eprint + Input + Sync>(
    rt: &H,
    alloc: Global,
    lines: &[u8],
    listener: TcpListener,
    sizes: &Sizes,
    gate: GateOf<'_>,
) -> (u8, Vec<u8>) {
    let Ok(mut printed) = Vec::with_capacity(alloc, PRINTED_MAX) else {
        return (3, Vec::new(alloc));
    };
    let Ok(config) = read_config(alloc, lines) else {
        return (2, printed);
    };
    if !sizes.is_allowed() {
        return (2, printed);
    }
    let mut writer = Counted::new(&mut printed);
    let opened = Opened {
        listener,
        audit: None,
    };
    let status = serve_on(rt, alloc, opened, sizes, &config, &gate, &mut writer);
    (status, printed)
}

/// The exit status, what the client said, and the last line that was printed.
fn said(outcome: &Outcome) -> Option<(u8, bool, &str)> {
    let printed = str::from_utf8(outcome.printed.as_slice()).ok()?;
    let lines = printed.strip_suffix('\n').unwrap_or(printed);
    let last = match lines.rsplit_once('\n') {
        Some((_, last)) => last,
        None => lines,
    };
    Some((outcome.status, outcome.answered, last))
}

/// The numbers of a daemon's last line, as (3, 9) in `closed epochs=3 entries=9`.
fn numbers_in(line: &str) -> Option<(u64, u64)> {
    let (epochs, entries) = line
        .strip_prefix("closed epochs=")?
        .split_once(" entries=")?;
    Some((epochs.parse().ok()?, entries.parse().ok()?))
}

/// How many epochs a daemon has closed, with how many entries in all. `None` if it didn't end as it should, or its client says that something was
/// not answered as it has to be.
pub fn closed_by(outcome: &Outcome) -> Option<(u64, u64)> {
    match said(outcome) {
        Some((0, true, line)) => numbers_in(line),
        _ => None,
    }
}

/// Whether a daemon ends with this status and last line, and its client says that all was answered as it has to be.
pub fn ends<
    H: Net<Listener = TcpListener, Stream = TcpStream>
        + Threads
        + Wait
        + Clock
        + Eprint
        + Input<Reader = StdinLock<'static>>
        + Sync,
    C: Client + Sync,
>(
    rt: &H,
    alloc: Global,
    sizes: &Sizes,
    gate: GateOf<'_>,
    client: &C,
    (status, line): (u8, &str),
) -> bool {
    let Some(outcome) = beside_daemon(rt, alloc, ONE_QUEUE, sizes, gate, client) else {
        return false;
    };
    said(&outcome) == Some((status, true, line))
}

/// How many epochs a daemon with these queues closes beside this client, with how many entries in all, as `closed_by`.
pub fn closed<
    H: Net<Listener = TcpListener, Stream = TcpStream>
        + Threads
        + Wait
        + Clock
        + Eprint
        + Input<Reader = StdinLock<'static>>
        + Sync,
    C: Client + Sync,
>(
    rt: &H,
    alloc: Global,
    lines: &[u8],
    sizes: &Sizes,
    gate: GateOf<'_>,
    client: &C,
) -> Option<(u64, u64)> {
    closed_by(&beside_daemon(rt, alloc, lines, sizes, gate, client)?)
}
