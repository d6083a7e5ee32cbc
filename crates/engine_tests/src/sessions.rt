//! Tests of sessions: streams cut anywhere, bad messages and lengths, what follows the end.
ghost use Rattle.std.specs.Prelude.{◌≡◌, []};

use cap_model::{Refusal, ReplyWith};
use cap_session::{Counted, Fed, Got, Next, Sent, Session, SessionCause};
use std::alloc::Global;
use std::io::{self, ErrorKind, Read, Write};

/// ClusterInfo with call id 1 and then with call id 2, framed.
const TWO: &[u8] = &[0, 0, 0, 6, 1, 10, 0, 0, 0, 1, 0, 0, 0, 6, 1, 10, 0, 0, 0, 2];

/// Replies to them, each with status 1.
const TWO_REFUSED: &[u8] = &[
    0, 0, 0, 7, 1, 10, 0, 0, 0, 1, 1, 0, 0, 0, 7, 1, 10, 0, 0, 0, 2, 1,
];

/// A payload of one byte, and then a ClusterInfo with call id 1.
const BAD_MESSAGE: &[u8] = &[0, 0, 0, 1, 9, 0, 0, 0, 6, 1, 10, 0, 0, 0, 1];

/// The fault reply with status 41, and then a reply with status 1.
const BAD_MESSAGE_ANSWERED: &[u8] = &[
    0, 0, 0, 7, 1, 0, 0, 0, 0, 0, 41, 0, 0, 0, 7, 1, 10, 0, 0, 0, 1, 1,
];

/// The fault reply with status 40.
const BAD_LENGTH_ANSWERED: &[u8] = &[0, 0, 0, 7, 1, 0, 0, 0, 0, 0, 40];

/// Refuses up to eight requests with status 1, and says why the session has ended, if it has.
fn refuse_all(session: &mut Session) -> Option<SessionCause>
    requires { session.old.opens ≡ [] }
    ensures { session.new.opens ≡ [] }
{
    for _ in 0..8 {
        match session.next_request() {
            Next::Request(_) => session.answer(&ReplyWith::Refused(Refusal::UnknownQueue)),
            Next::Need => return None,
            Next::Ended(cause) => return Some(cause),
        }
    }
    None
}

/// Feeds two pieces, refuses the requests that each completes, and says whether it answers these bytes, and why the session has ended.
fn answers(
    alloc: Global,
    pieces: [&[u8]; 2],
    output: &[u8],
) -> Option<(bool, Option<SessionCause>)> {
    let mut session = Session::open(alloc).ok()?;
    let [first, second] = pieces;
    session.feed(first);
    refuse_all(&mut session);
    session.feed(second);
    let ended = refuse_all(&mut session);
    Some((session.unsent() == output, ended))
}

/// Whether two requests are answered where the stream is cut after so many bytes, and why the session has ended.
fn answers_cut_at(alloc: Global, at: usize) -> Option<(bool, Option<SessionCause>)> {
    let (first, second) = TWO.split_at_checked(at)?;
    answers(alloc, [first, second], TWO_REFUSED)
}

#[test]
fn a_stream_is_answered_wherever_it_is_cut(rt: HostRuntime) {
    for at in 0..21 {
        assert!(rt;
            answers_cut_at(rt.alloc(), at) == Some((true, None)),
            "after {at} bytes"
        );
    }
}

#[test]
fn bad_messages_are_answered_and_bad_lengths_end_it(rt: HostRuntime) {
    let zero: &[u8] = &[0, 0, 0, 0];
    let over: &[u8] = &[0, 1, 0, 1];
    let none: &[u8] = &[];
    for &(first, second, output, ended) in &[
        (none, BAD_MESSAGE, BAD_MESSAGE_ANSWERED, None),
        (
            zero,
            TWO,
            BAD_LENGTH_ANSWERED,
            Some(SessionCause::BadLength),
        ),
        (
            over,
            TWO,
            BAD_LENGTH_ANSWERED,
            Some(SessionCause::BadLength),
        ),
    ] {
        assert!(rt; answers(rt.alloc(), [first, second], output) == Some((true, ended)));
    }
}

/// After a length that no frame has: what two more pieces are answered, what comes next twice, and whether the fault reply is all that is
/// unsent.
fn after_the_end(alloc: Global) -> Option<([Fed; 2], [Option<SessionCause>; 2], bool)> {
    let mut session = Session::open(alloc).ok()?;
    session.feed(&[0, 0, 0, 0]);
    refuse_all(&mut session);
    let fed = [session.feed(TWO), session.feed(TWO)];
    let next = [refuse_all(&mut session), refuse_all(&mut session)];
    Some((fed, next, session.unsent() == BAD_LENGTH_ANSWERED))
}

#[test]
fn nothing_is_taken_after_the_end(rt: HostRuntime) {
    let fed = Fed::Ended(SessionCause::BadLength);
    let next = Some(SessionCause::BadLength);
    assert!(rt; after_the_end(rt.alloc()) == Some(([fed, fed], [next, next], true)));
}

/// Takes so many bytes a write, and fails after a limit.
#[derive(Drop)]
struct Narrow {
    kept: Vec<u8>,
    step: usize,
    limit: usize,
}

impl Write for Narrow {
    fn write(&mut self, buf: &[u8]) -> io::Result<usize> {
        let left = self.limit.saturating_sub(self.kept.len());
        if left == 0 {
            return Err(io::Error::from(ErrorKind::Interrupted));
        }
        let n = buf.len().min(self.step).min(left);
        self.kept.extend_from_slice(&buf[..n])?;
        Ok(n)
    }

    fn flush(&mut self) -> io::Result<()> {
        Ok(())
    }
}

/// What writing 22 bytes out gives, how many are unsent then, how often the writer failed, and why the session has ended; if what the
/// writer holds are their first bytes.
fn written(
    alloc: Global,
    step: usize,
    limit: usize,
) -> Option<(Sent, usize, u64, Option<SessionCause>)> {
    let mut session = Session::open(alloc).ok()?;
    session.feed(TWO);
    refuse_all(&mut session);
    let mut narrow = Narrow {
        kept: Vec::new(alloc),
        step,
        limit,
    };
    let mut writer = Counted::new(&mut narrow);
    let sent = session.write_out(&mut writer);
    let failures = writer.failures();
    let left = session.unsent().len();
    let ended = refuse_all(&mut session);
    if TWO_REFUSED.starts_with(&narrow.kept) {
        Some((sent, left, failures, ended))
    } else {
        None
    }
}

#[test]
fn narrow_and_failing_writers(rt: HostRuntime) {
    let ended = Some(SessionCause::WriteFault);
    for &(step, limit, want) in &[
        (1, 100, (Sent::All(22), 0, 0, None)),
        (5, 22, (Sent::All(22), 0, 0, None)),
        (1, 0, (Sent::Fault { sent: 0 }, 22, 1, ended)),
        (1, 11, (Sent::Fault { sent: 11 }, 11, 1, ended)),
        (9, 21, (Sent::Fault { sent: 21 }, 1, 1, ended)),
        (0, 100, (Sent::Fault { sent: 0 }, 22, 1, ended)),
    ] {
        assert!(rt; written(rt.alloc(), step, limit) == Some(want));
    }
}

/// Gives one answer to each read.
#[derive(Drop)]
struct Same {
    answer: Result<usize, ErrorKind>,
}

impl Read for Same {
    fn read(&mut self, buf: &mut [u8]) -> io::Result<usize> {
        match self.answer {
            Ok(n) => Ok(n.min(buf.len())),
            Err(kind) => Err(io::Error::from(kind)),
        }
    }
}

/// What a read gives, how many failures, quiet reads and ends are counted then, and whether an error is kept.
fn read_once(answer: Result<usize, ErrorKind>) -> (Got, [u64; 3], bool) {
    let mut reader = Counted::new(Same { answer });
    let mut buf = [0; 4];
    let got = reader.read(&mut buf);
    let counts = [reader.failures(), reader.quiets(), reader.ends()];
    (got, counts, reader.error().is_some())
}

#[test]
fn what_is_counted_of_reads(rt: HostRuntime) {
    for &(answer, want) in &[
        (Ok(3), (Got::Bytes(3), [0, 0, 0], false)),
        (Ok(9), (Got::Bytes(4), [0, 0, 0], false)),
        (Ok(0), (Got::End, [0, 0, 1], false)),
        (Err(ErrorKind::WouldBlock), (Got::Quiet, [0, 1, 0], false)),
        (Err(ErrorKind::TimedOut), (Got::Quiet, [0, 1, 0], false)),
        (Err(ErrorKind::Interrupted), (Got::Fault, [1, 0, 0], true)),
        (Err(ErrorKind::Other), (Got::Fault, [1, 0, 0], true)),
    ] {
        assert!(rt; read_once(answer) == want);
    }
}
