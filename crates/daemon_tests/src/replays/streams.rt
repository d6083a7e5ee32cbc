//! Tests of the program's words and streams: exit statuses, readers and writers that fail, refused memory.

use cap_daemon::{Counted, run};
use refusal_cases::{count_lines, line_of, play_into};
use std::alloc::{AllocError, Global};
use std::cell::Cell;
use std::fs::File;
use std::io::{self, Input, Read, Write};
use std::net::{Net, TcpListener, TcpStream};
use std::rt::Files;
use std::sync::Wait;
use std::thread::Threads;
use std::time::Clock;

/// Gives its pieces one a read, then the end or a failure. It notes how much was written before each read.
#[derive(Drop)]
struct Pieces<'a> {
    pieces: &'a [&'a [u8]],
    next: usize,
    fails: bool,
    written: &'a Cell<usize>,
    before_last: usize,
}

impl Read for Pieces<'_> {
    fn read(&mut self, buf: &mut [u8]) -> io::Result<usize> {
        self.before_last = self.written.get();
        let pieces = self.pieces;
        let Some(piece) = pieces.get(self.next) else {
            return if self.fails {
                Err(io::Error::from(io::ErrorKind::Other))
            } else {
                Ok(0)
            };
        };
        self.next = self.next.saturating_add(1);
        let n = piece.len().min(buf.len());
        for (to, from) in buf.iter_mut().zip(*piece) {
            *to = *from;
        }
        Ok(n)
    }
}

/// Keeps what is written, up to a limit past which writing fails. Only what was flushed counts as written.
#[derive(Drop)]
struct Paper<'a> {
    kept: Vec<u8>,
    limit: usize,
    written: &'a Cell<usize>,
}

impl Write for Paper<'_> {
    fn write(&mut self, buf: &[u8]) -> io::Result<usize> {
        if self.kept.len() >= self.limit {
            return Err(io::Error::from(io::ErrorKind::Other));
        }
        self.kept.extend_from_slice(buf)?;
        Ok(buf.len())
    }

    fn flush(&mut self) -> io::Result<()> {
        self.written.set(self.kept.len());
        Ok(())
    }
}

/// A script with a line of a million bytes.
fn script_of_long_line(alloc: Global) -> Result<Vec<u8>, AllocError> {
    let comment = b"fifty bytes of a comment that goes on and on so on".repeat(alloc, 20_000)?;
    let mut script = Vec::from_slice(alloc, b"open 1\n#")?;
    script.extend_from_slice(&comment)?;
    script.extend_from_slice(b"\nend 1\n")?;
    Ok(script)
}

#[test]
fn a_long_line_is_one_line(rt: HostRuntime) {
    let Ok(script) = script_of_long_line(rt.alloc()) else {
        return assert!(rt; false, "no memory");
    };
    let mut room = [0u8; 99];
    let (status, printed) = play_into(rt.alloc(), &script, &mut room);
    assert_eq!(rt; status, 0);
    assert!(rt; printed == b"opened 1\nclosed 1\n".as_slice());
}

/// What is to come of a script.
enum Wanted {
    /// The exit status. It is 0 where the program has nothing to say of it, and help is printed where it is.
    Status(u8),
    /// Status 1, and what the program has to say.
    Failure(&'static str),
    /// The exit status, and what was written and flushed.
    Printed(u8, &'static [u8]),
    /// The same, and how many calls on the reader failed, and how many on the writer.
    Failed(u8, &'static [u8], (u64, u64)),
    /// The exit status, and how much was written and flushed before the last read.
    BeforeLast(u8, usize),
}

/// Words, an input in pieces, whether it then fails, how much is written before that fails, and what is to come of it.
type Row = (
    &'static [&'static str],
    &'static [&'static [u8]],
    bool,
    usize,
    Wanted,
);

/// What came of a script.
#[derive(Clone, Copy)]
struct Played<'a> {
    status: u8,
    /// How many calls on the reader failed, and how many on the writer.
    failures: (u64, u64),
    /// What was written and flushed, and what the program has to say.
    printed: &'a [u8],
    complaint: &'a str,
    /// How much was written before the last read.
    before_last: usize,
}

fn is_explained(words: &[&str], played: &Played<'_>) -> bool {
    let is_well = played.status == 0;
    let is_help = matches!(words, [_, "--help" | "--version"]);
    played.complaint.is_empty() == is_well && (!is_help || played.printed.is_empty() != is_well)
}

fn is_as_wanted(words: &[&str], wanted: &Wanted, played: &Played<'_>) -> bool {
    match wanted {
        Wanted::Status(status) => played.status == *status && is_explained(words, played),
        Wanted::Failure(said) => played.status == 1 && played.complaint == *said,
        Wanted::Printed(status, printed) => {
            played.status == *status && played.printed == *printed
        }
        Wanted::Failed(status, printed, failures) => {
            played.status == *status && played.printed == *printed && played.failures == *failures
        }
        Wanted::BeforeLast(status, before) => {
            played.status == *status && played.before_last == *before
        }
    }
}

/// Whether the program ends as the row says.
fn plays<
    H: Net<Listener = TcpListener, Stream = TcpStream>
        + Threads
        + Wait
        + Clock
        + Eprint
        + Input
        + Files<File = File>
        + AllocGlobal
        + Sync,
>(rt: &H, row: &Row) -> bool {
    let (words, pieces, fails, limit, wanted) = row;
    let written = Cell::new(0);
    let mut reader = Pieces {
        pieces,
        next: 0,
        fails: *fails,
        written: &written,
        before_last: 0,
    };
    let mut writer = Paper {
        kept: Vec::new(rt.alloc()),
        limit: *limit,
        written: &written,
    };
    let mut input = Counted::new(&mut reader);
    let mut output = Counted::new(&mut writer);
    let mut complaint = String::new(rt.alloc());
    let status = run(rt, words, &mut input, &mut output, &mut complaint);
    let failures = (input.failures(), output.failures());
    let played = Played {
        status,
        failures,
        printed: writer.kept.get(..written.get()).unwrap_or(&[]),
        complaint: complaint.as_str(),
        before_last: reader.before_last,
    };
    is_as_wanted(words, wanted, &played)
}

/// The first of these rows of which something else comes.
fn unlike<
    H: Net<Listener = TcpListener, Stream = TcpStream>
        + Threads
        + Wait
        + Clock
        + Eprint
        + Input
        + Files<File = File>
        + AllocGlobal
        + Sync,
>(rt: &H, rows: &[Row]) -> Option<usize> {
    for (i, row) in rows.iter().enumerate() {
        if !plays(rt, row) {
            return Some(i);
        }
    }
    None
}

/// Property lines without a fault.
const QUEUES: &[u8] = b"yarn.scheduler.capacity.root.queues=a\n";

static ROWS: [Row; 33] = [
    // Bad words and a bad script are 2, a failed read or write is 1, whatever the words were; each has words for the error stream.
    (&["capsched", "replay"], &[b""], false, 0, Wanted::Status(0)),
    (
        &["capsched", "replay"],
        &[b"open 1\n"],
        false,
        9,
        Wanted::Status(0),
    ),
    (
        &["capsched", "replay"],
        &[b"open 1\n"],
        true,
        9,
        Wanted::Status(1),
    ),
    (
        &["capsched", "replay"],
        &[b"open 1\n"],
        false,
        0,
        Wanted::Status(1),
    ),
    (
        &["capsched", "replay"],
        &[b"opne 1\n"],
        false,
        11,
        Wanted::Status(2),
    ),
    (
        &["capsched", "replay"],
        &[b"opne 1\n"],
        false,
        0,
        Wanted::Status(1),
    ),
    (
        &["capsched", "replay"],
        &[b"conf yarn.scheduler.capacity.root.queues=.\n"],
        false,
        99,
        Wanted::Status(2),
    ),
    (
        &["capsched", "replay", "twice"],
        &[b"open 1\n"],
        false,
        99,
        Wanted::Status(2),
    ),
    (
        &["capsched", "play"],
        &[b"open 1\n"],
        false,
        99,
        Wanted::Status(2),
    ),
    (
        &["capsched", "--replay"],
        &[b"open 1\n"],
        false,
        99,
        Wanted::Status(2),
    ),
    (&["capsched"], &[b"open 1\n"], false, 99, Wanted::Status(2)),
    (
        &["capsched", "--help"],
        &[b"open 1\n"],
        false,
        9999,
        Wanted::Status(0),
    ),
    (
        &["capsched", "--version"],
        &[b"open 1\n"],
        false,
        99,
        Wanted::Status(0),
    ),
    (
        &["capsched", "--version"],
        &[b"open 1\n"],
        false,
        0,
        Wanted::Status(1),
    ),
    (
        &["capsched", "check"],
        &[b""],
        false,
        9999,
        Wanted::Status(2),
    ),
    (
        &["capsched", "check"],
        &[QUEUES],
        false,
        9999,
        Wanted::Status(0),
    ),
    (
        &["capsched", "check"],
        &[QUEUES],
        true,
        9999,
        Wanted::Status(1),
    ),
    (
        &["capsched", "check"],
        &[QUEUES],
        false,
        0,
        Wanted::Status(1),
    ),
    (
        &["capsched", "explain"],
        &[b""],
        false,
        0,
        Wanted::Status(0),
    ),
    (
        &["capsched", "explain"],
        &[b"open 1\n"],
        false,
        9,
        Wanted::Status(0),
    ),
    (
        &["capsched", "explain"],
        &[b"open 1\n"],
        true,
        9,
        Wanted::Status(1),
    ),
    (
        &["capsched", "explain"],
        &[b"open 1\n"],
        false,
        0,
        Wanted::Status(1),
    ),
    // Which stream failed, and the system's error.
    (
        &["capsched", "replay"],
        &[b"open 1\n"],
        true,
        99,
        Wanted::Failure("standard input: other error\n"),
    ),
    (
        &["capsched", "replay"],
        &[b"open 1\n"],
        false,
        0,
        Wanted::Failure("standard output: other error\n"),
    ),
    (
        &["capsched", "replay"],
        &[b"open 1\n"],
        true,
        0,
        Wanted::Failure("standard output: other error\n"),
    ),
    (
        &["capsched", "explain"],
        &[b"open 1\n"],
        true,
        99,
        Wanted::Failure("standard input: other error\n"),
    ),
    (
        &["capsched", "--help"],
        &[b"open 1\n"],
        false,
        0,
        Wanted::Failure("standard output: other error\n"),
    ),
    // A request in two pieces of the script, and two reads of the script.
    (
        &["capsched", "explain"],
        &[
            b"open 1\nbytes 1 00000006010a\nbyt",
            b"es 1 00000001\nout 1 0000000700000000000029\n",
        ],
        false,
        9999,
        Wanted::Printed(
            0,
            b"open 1\nbytes 1 00000006010a\nbytes 1 00000001\n# 1 -> ClusterInfo 1\nout 1 0000000700000000000029\n",
        ),
    ),
    // A failed read loses nothing that was printed.
    (
        &["capsched", "replay"],
        &[b"open 1\nope", b"n 2\nend 1"],
        true,
        1000,
        Wanted::Failed(1, b"opened 1\nopened 2\n", (1, 0)),
    ),
    (
        &["capsched", "replay"],
        &[b"open 1\nope", b"n 2\nend 1"],
        true,
        1000,
        Wanted::BeforeLast(1, 18),
    ),
    // Settings are not read after a failed read.
    (
        &["capsched", "replay"],
        &[b"conf x=1\nop"],
        true,
        1000,
        Wanted::Printed(1, b""),
    ),
    // Replies are written before the next read.
    (
        &["capsched", "replay"],
        &[b"open 1\n"],
        false,
        1000,
        Wanted::BeforeLast(0, 9),
    ),
    // A closed output ends the program.
    (
        &["capsched", "replay"],
        &[b"open 1\n", b"open 2\n", b"open 3\n"],
        false,
        1,
        Wanted::Failed(1, b"opened 1\n", (0, 1)),
    ),
];

#[test]
fn the_program_ends_as_it_should(rt: HostRuntime) {
    assert_eq!(rt; unlike(&rt, &ROWS), None);
}
