//! The daemon through the words of the program, on real sockets.
use crate::client::{ASK, are_answered, connect, send};
use crate::side::listen;
use cap_daemon::{Counted, run};
use std::alloc::Global;
use std::fs::{self, File};
use std::io::{self, Input, Read};
use std::net::{Net, TcpListener, TcpStream};
use std::rt::Files;
use std::sync::Wait;
use std::test::*;
use std::thread::{Threads, join, sleep};
use std::time::{Clock, Duration};

/// What came of the program: its exit status, whether it printed what it was to print, and whether what it left in words begins as it was to.
type Ran = (u8, bool, bool);

/// Runs the program on these words. It is to print exactly this, and to leave words that begin like this.
fn run_words<
    H: Net<Listener = TcpListener, Stream = TcpStream>
        + Threads
        + Wait
        + Clock
        + Eprint
        + Input
        + Files<File = File>
        + AllocGlobal
        + Sync,
>(rt: &H, words: &[&str], wanted: &str, said: &str) -> Ran {
    let alloc = rt.alloc();
    let mut printed = Vec::new(alloc);
    let mut complaint = String::new(alloc);
    let mut input: &[u8] = &[];
    let status = run(
        rt,
        words,
        &mut Counted::new(&mut input),
        &mut Counted::new(&mut printed),
        &mut complaint,
    );
    let is_printed = printed.as_slice() == wanted.as_bytes();
    (status, is_printed, complaint.as_str().starts_with(said))
}

/// Where no settings file is.
const MISSING: &str = "/nowhere/settings";

/// An empty settings file, in which `root` has no queues.
const EMPTY: &str = "/dev/null";

/// Where the values stand in the words of a daemon.
const PORT: usize = 3;

const WORKERS: usize = 5;

const CONFIG: usize = 7;

const CONNECTIONS: usize = 9;

const JOURNAL: usize = 11;

const LANES: usize = 13;

const DRAIN: usize = 15;

const SCHEDULING: usize = 17;

/// The words of a daemon without a settings file. No port is bound before that file is read.
const WORDS: [&str; 18] = [
    "capsched",
    "serve",
    "--port",
    "1",
    "--workers",
    "1",
    "--config",
    MISSING,
    "--connections",
    "1",
    "--journal",
    "4",
    "--lanes",
    "64",
    "--drain",
    "10",
    "--scheduling",
    "follow",
];

/// The same with another value in one place.
fn with_value<'a>(words: &[&'a str; 18], place: usize, value: &'a str) -> [&'a str; 18] {
    let mut words = *words;
    if let Some(word) = words.get_mut(place) {
        *word = value;
    }
    words
}

/// Each option at its bounds and past them, and whether that is taken.
static OPTIONS: [(usize, &str, bool); 28] = [
    (SCHEDULING, "follow", true),
    (SCHEDULING, "copy", true),
    (SCHEDULING, "both", false),
    (PORT, "0", false),
    (PORT, "1", true),
    (PORT, "65535", true),
    (PORT, "65536", false),
    (WORKERS, "0", false),
    (WORKERS, "1", true),
    (WORKERS, "8", true),
    (WORKERS, "9", false),
    (CONNECTIONS, "0", false),
    (CONNECTIONS, "1", true),
    (CONNECTIONS, "128", true),
    (CONNECTIONS, "129", false),
    (JOURNAL, "0", false),
    (JOURNAL, "1", true),
    (JOURNAL, "1000000", true),
    (JOURNAL, "1000001", false),
    (LANES, "0", true),
    (LANES, "1", false),
    (LANES, "7", false),
    (LANES, "8", true),
    (LANES, "1024", true),
    (LANES, "1025", false),
    (DRAIN, "0", true),
    (DRAIN, "3600", true),
    (DRAIN, "3601", false),
];

/// Whether the words with this value are taken. `None` if the program says neither.
fn takes<
    H: Net<Listener = TcpListener, Stream = TcpStream>
        + Threads
        + Wait
        + Clock
        + Eprint
        + Input
        + Files<File = File>
        + AllocGlobal
        + Sync,
>(rt: &H, place: usize, value: &str) -> Option<bool> {
    let words = with_value(&WORDS, place, value);
    match run_words(rt, words.as_slice(), "", "settings file: ") {
        (1, true, true) => Some(true),
        (2, true, false) => Some(false),
        _ => None,
    }
}

// Words are looked at before the settings file, which is not there: bad ones are status 2, and good ones lead to the file that is missing.
#[test]
fn options_have_bounds(rt: HostRuntime) {
    for &(place, value, is_taken) in &OPTIONS {
        assert!(rt;
            takes(&rt, place, value) == Some(is_taken),
            "{place} {value}"
        );
    }
}

/// Property lines without a fault, which a test writes into a file that is named by its port, so that two runs disturb each other no more than
/// on one port.
const QUEUES: &[u8] = b"yarn.scheduler.capacity.root.queues=default\n";

/// Stands for such a file.
const OWN: &str = "own";

/// Another value in the words of a daemon on a port that is taken and with a settings file that is missing; the exit status, what is printed, and what is said
/// of the first fault.
static FAULTS: [(usize, &str, u8, &str, &str); 4] = [
    (WORKERS, "none", 2, "", "error: "),
    (CONFIG, MISSING, 1, "", "settings file: "),
    (CONFIG, EMPTY, 2, "config 0 10\n", ""),
    (CONFIG, OWN, 1, "", "listener: "),
];

/// Whether the first fault is told on this port, which is taken, with this settings file of the test's own.
fn is_told<
    H: Net<Listener = TcpListener, Stream = TcpStream>
        + Threads
        + Wait
        + Clock
        + Eprint
        + Input
        + Files<File = File>
        + AllocGlobal
        + Sync,
>(rt: &H, port: &str, settings: &str, fault: (usize, &str, u8, &str, &str)) -> bool {
    let (place, value, status, printed, said) = fault;
    let value = if value == OWN { settings } else { value };
    let words = with_value(&WORDS, PORT, port);
    let words = with_value(&words, place, value);
    run_words(rt, words.as_slice(), printed, said) == (status, true, true)
}

#[test]
fn faults_have_an_order(rt: HostRuntime) -> Result<(), Fail> {
    let Some((_taken, port)) = listen(&rt) else {
        assert!(rt; false, "no port");
        return Ok(());
    };
    let port = format!(in rt.alloc(); "{port}")?;
    let settings = format!(in rt.alloc(); "/tmp/capsched_{port}.settings")?;
    let (port, settings) = (port.as_str(), settings.as_str());
    fs::write(&rt, settings, QUEUES)?;
    for &fault in &FAULTS {
        assert!(rt; is_told(&rt, port, settings, fault), "{}", fault.1);
    }
    fs::remove_file(&rt, settings)?;
    Ok(())
}

/// A connection to the daemon, once it listens. A read fails after 10 seconds.
fn connect_late<H: Net<Listener = TcpListener, Stream = TcpStream> + Clock>(
    rt: &H,
    port: u16,
) -> io::Result<TcpStream> {
    for _ in 0..500 {
        if let Ok(stream) = connect(rt, port) {
            return Ok(stream);
        }
        sleep(rt, Duration::from_millis(10));
    }
    connect(rt, port)
}

/// Whether a ClusterInfo of the first connection is answered, and not one of the second: once the first was accepted, the system may refuse the
/// second, or end it before or after it has sent anything.
fn is_first_answered(
    alloc: Global,
    first: &TcpStream,
    second: &io::Result<TcpStream>,
) -> io::Result<bool> {
    let Ok(second) = second else {
        return are_answered(alloc, first, 1);
    };
    let mut second = second;
    let is_sent = send(second, &ASK).is_ok();
    let is_first = are_answered(alloc, first, 1)?;
    let mut byte = [0u8; 1];
    Ok(is_first && !(is_sent && matches!(second.read(&mut byte), Ok(1))))
}

/// What a client of the daemon does.
#[derive(Clone, Copy)]
enum Visit {
    /// It sends so many ClusterInfos at once, and reads their answers.
    Asks(usize),
    /// It finds that the daemon listens on 127.0.0.1 alone, and that it answers one connection and not the one after it.
    Second,
}

impl Visit {
    /// Whether all was answered as it has to be. An error means that a socket failed.
    fn make<H: Net<Listener = TcpListener, Stream = TcpStream> + Clock>(
        self,
        rt: &H,
        alloc: Global,
        port: u16,
    ) -> io::Result<bool> {
        let first = connect_late(rt, port)?;
        match self {
            Visit::Asks(count) => are_answered(alloc, &first, count),
            Visit::Second => {
                let second = connect(rt, port);
                let is_elsewhere = TcpStream::connect(rt, ("127.0.0.2", port)).is_ok();
                Ok(is_first_answered(alloc, &first, &second)? && !is_elsewhere)
            }
        }
    }
}

/// What came of the program on these words, which serves on this port and is to print this, and whether the visit went as it has to.
fn beside_program<
    H: Net<Listener = TcpListener, Stream = TcpStream>
        + Threads
        + Wait
        + Clock
        + Eprint
        + Input
        + Files<File = File>
        + AllocGlobal
        + Sync,
>(rt: &H, port: u16, words: &[&str], wanted: &str, visit: Visit) -> (bool, Ran) {
    let alloc = rt.alloc();
    join(
        rt,
        || visit.make(rt, alloc, port).unwrap_or(false),
        || run_words(rt, words, wanted, ""),
    )
}

/// Whether a daemon on this port with journals of this length ends with status 0, has printed the port and then this line, and went through the
/// visit.
fn visited_on<
    H: Net<Listener = TcpListener, Stream = TcpStream>
        + Threads
        + Wait
        + Clock
        + Eprint
        + Input
        + Files<File = File>
        + AllocGlobal
        + Sync,
>(
    rt: &H,
    port: u16,
    settings: &str,
    (journal, visit, line): (&str, Visit, &str),
) -> io::Result<bool> {
    let number = format!(in rt.alloc(); "{port}")?;
    let wanted = format!(in rt.alloc(); "listening {port}\n{line}\n")?;
    let words = with_value(&WORDS, PORT, number.as_str());
    let words = with_value(&words, CONFIG, settings);
    let words = with_value(&words, JOURNAL, journal);
    let came = beside_program(rt, port, words.as_slice(), wanted.as_str(), visit);
    Ok(came == (true, (0, true, true)))
}

/// The same on a port that is free, with a settings file that this makes and is named by it.
fn visited<
    H: Net<Listener = TcpListener, Stream = TcpStream>
        + Threads
        + Wait
        + Clock
        + Eprint
        + Input
        + Files<File = File>
        + AllocGlobal
        + Sync,
>(rt: &H, daemon: (&str, Visit, &str)) -> io::Result<bool> {
    let Some((listener, port)) = listen(rt) else {
        return Ok(false);
    };
    drop(listener);
    let settings = format!(in rt.alloc(); "/tmp/capsched_{port}.settings")?;
    fs::write(rt, settings.as_str(), QUEUES)?;
    let is_right = visited_on(rt, port, settings.as_str(), daemon)?;
    fs::remove_file(rt, settings.as_str())?;
    Ok(is_right)
}

/// Journals have a limit, and one connection is accepted and no more.
#[test]
fn a_daemon_serves_as_its_words_say(rt: HostRuntime) -> Result<(), Fail> {
    for &(journal, visit, line) in &[
        ("4", Visit::Asks(6), "closed epochs=2 entries=6"),
        ("7", Visit::Asks(6), "closed epochs=1 entries=6"),
        ("4096", Visit::Asks(5000), "closed epochs=2 entries=5000"),
        ("4", Visit::Second, "closed epochs=1 entries=1"),
    ] {
        assert!(rt; visited(&rt, (journal, visit, line))?, "{journal} {line}");
    }
    Ok(())
}
