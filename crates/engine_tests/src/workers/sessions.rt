//! Tests of sessions over a shared cluster: streams cut anywhere, readers and writers that fail, two epochs.

use crate::workers::epochs::serve_epoch;
use crate::workers::serving::{Ending, Endings, Line};
use crate::workers::streams::{Quiet, Sink, Source};
use cap_session::Counted;
use std::alloc::Global;
use std::io::ErrorKind;
use std::sync::Wait;
use std::test::*;

/// One leaf queue.
pub const ONE_QUEUE: &[u8] = b"yarn.scheduler.capacity.root.queues=default";

/// RegisterNode of `n1` in `/r1` with (8192, 8), call id 2, and then ClusterInfo, call id 3.
const STREAM: &[u8] = &[
    0, 0, 0, 29, 1, 5, 0, 0, 0, 2, 2, b'n', b'1', 3, b'/', b'r', b'1', //
    0, 0, 0, 0, 0, 0, 32, 0, 0, 0, 0, 0, 0, 0, 0, 8, //
    0, 0, 0, 6, 1, 10, 0, 0, 0, 3,
];

/// Node 1, and then one node with this total, and nothing else.
const ANSWERS: &[u8] = &[
    0, 0, 0, 15, 1, 5, 0, 0, 0, 2, 0, 0, 0, 0, 0, 0, 0, 0, 1, //
    0, 0, 0, 51, 1, 10, 0, 0, 0, 3, 0, 0, 0, 0, 1, 0, 0, 0, 0, 0, 0, 0, 0, //
    0, 0, 0, 0, 0, 0, 32, 0, 0, 0, 0, 0, 0, 0, 0, 8, //
    0, 0, 0, 0, 0, 0, 0, 0, 0, 0, 0, 0, 0, 0, 0, 0,
];

/// The fault reply with status 40.
const BAD_LENGTH: &[u8] = &[0, 0, 0, 7, 1, 0, 0, 0, 0, 0, 40];

/// What came of a session: how it ended, how many bytes went out, how many are still to be written, how many entries the journal has, and how
/// many reads and writes failed.
#[derive(Clone, Copy, PartialEq, Eq)]
pub struct Outcome {
    pub endings: Endings,
    pub sent: u64,
    pub unsent: usize,
    pub entries: usize,
    pub failures: u64,
}

/// A session that ended like this after its reader was quiet so often, so that so many bytes went out and no more are to be written, with so
/// many entries in the journal.
pub fn ended(quiets: u64, ending: Ending, sent: u64, entries: usize) -> Outcome {
    let first = if quiets == 0 { ending } else { Ending::Quiet };
    Outcome {
        endings: Endings {
            times: quiets.saturating_add(1),
            quiets,
            first: Some(first),
            last: Some(ending),
        },
        sent,
        unsent: 0,
        entries,
        failures: 0,
    }
}

/// Gives nothing.
pub const PLAIN: Source<'_> = Source {
    first: &[],
    second: None,
    step: 4096,
    quiet: Quiet::Never,
    was_quiet: false,
    failure: None,
};

/// Serves a session in an epoch of at most so many entries: what came of it until then.
fn serve_once<H: Wait>(
    rt: &H,
    alloc: Global,
    limit: usize,
    line: &mut Line,
    reader: &mut Counted<Source<'_>>,
    writer: &mut Counted<&mut Sink>,
) -> Option<Outcome> {
    if !serve_epoch(rt, alloc, limit, line, reader, writer) {
        return None;
    }
    Some(Outcome {
        endings: line.endings,
        sent: line.sent,
        unsent: line.unsent,
        entries: line.entries,
        failures: reader.failures().wrapping_add(writer.failures()),
    })
}

/// Serves a session in two epochs of at most so many entries each, or in one if the second is to have none: what came of it until the end
/// of each.
pub fn served<H: Wait>(
    rt: &H,
    alloc: Global,
    limits: (usize, usize),
    source: Source<'_>,
    sink: &mut Sink,
) -> (Option<Outcome>, Option<Outcome>) {
    let Some(mut line) = Line::new(alloc, ONE_QUEUE) else {
        return (None, None);
    };
    let mut reader = Counted::new(source);
    let mut writer = Counted::new(sink);
    let first = serve_once(rt, alloc, limits.0, &mut line, &mut reader, &mut writer);
    let second = serve_once(rt, alloc, limits.1, &mut line, &mut reader, &mut writer);
    (first, second)
}

/// Whether this comes of a session in an epoch of at most 100 entries whose writer takes so many bytes a write and fails after a limit, and
/// these bytes go out.
pub fn is_served<H: Wait>(
    rt: &H,
    alloc: Global,
    source: Source<'_>,
    (step, limit): (usize, usize),
    want: Outcome,
    answers: &[u8],
) -> bool {
    let mut sink = Sink {
        kept: Vec::new(alloc),
        step,
        limit,
    };
    let (outcome, _none) = served(rt, alloc, (100, 0), source, &mut sink);
    outcome == Some(want) && sink.kept.as_slice() == answers
}

/// A stream that is cut in two, and what comes of it.
#[derive(Clone, Copy)]
struct Cut<'a> {
    stream: &'a [u8],
    quiet: Quiet,
    want: Outcome,
    answers: &'a [u8],
}

/// The first place, from one up to another, at which the stream can't be cut so that this comes of it.
fn wrong_cut<H: Wait>(
    rt: &H,
    alloc: Global,
    cut: &Cut<'_>,
    (start, end): (usize, usize),
) -> Option<usize> {
    for at in start..end {
        let Some((first, second)) = cut.stream.split_at_checked(at) else {
            return Some(at);
        };
        let source = Source {
            first,
            second: Some(second),
            quiet: cut.quiet,
            ..PLAIN
        };
        if !is_served(rt, alloc, source, (4096, 4096), cut.want, cut.answers) {
            return Some(at);
        }
    }
    None
}

/// A stream is answered wherever it is cut, a quiet reader goes on wherever it was, and a length that no frame has ends the session.
#[test]
fn a_stream_may_be_cut_anywhere(rt: HostRuntime) {
    let zero: &[u8] = &[0, 0, 0, 0, 1, 2];
    let over: &[u8] = &[0, 1, 0, 1];
    let faulted = ended(0, Ending::Faulted, 11, 0);
    for &(stream, quiet, want, answers, places) in &[
        (
            STREAM,
            Quiet::Never,
            ended(0, Ending::InputEnded, 74, 2),
            ANSWERS,
            (0, 44),
        ),
        (
            STREAM,
            Quiet::Between,
            ended(1, Ending::InputEnded, 74, 2),
            ANSWERS,
            (0, 44),
        ),
        (zero, Quiet::Never, faulted, BAD_LENGTH, (4, 5)),
        (zero, Quiet::Between, faulted, BAD_LENGTH, (4, 5)),
        (over, Quiet::Never, faulted, BAD_LENGTH, (4, 5)),
        (over, Quiet::Between, faulted, BAD_LENGTH, (4, 5)),
    ] {
        let cut = Cut {
            stream,
            quiet,
            want,
            answers,
        };
        let wrong = wrong_cut(&rt, rt.alloc(), &cut, places);
        assert!(rt; wrong.is_none(), "cut at {wrong:?}, {} bytes", stream.len());
    }
}

/// The stream byte by byte.
#[test]
fn a_reader_may_be_quiet_before_each_byte(rt: HostRuntime) {
    let source = Source {
        first: STREAM,
        step: 1,
        quiet: Quiet::Before,
        ..PLAIN
    };
    let want = ended(43, Ending::InputEnded, 74, 2);
    assert!(rt; is_served(&rt, rt.alloc(), source, (4096, 4096), want, ANSWERS));
}

/// How many bytes answer the first so many of the stream, and by how many entries.
fn answered(count: usize) -> (usize, usize) {
    match count {
        0..33 => (0, 0),
        33..43 => (19, 1),
        _ => (74, 2),
    }
}

/// Whether the first so many bytes of the stream, so many a read, are answered before the reader fails or ends.
fn is_answered_until<H: Wait>(
    rt: &H,
    alloc: Global,
    count: usize,
    step: usize,
    failure: Option<ErrorKind>,
) -> bool {
    let (length, entries) = answered(count);
    let (Some(first), Some(answers)) = (STREAM.get(..count), ANSWERS.get(..length)) else {
        return false;
    };
    let (ending, failures) = match failure {
        Some(_) => (Ending::ReadFault, 1),
        None => (Ending::InputEnded, 0),
    };
    let source = Source {
        first,
        step,
        failure,
        ..PLAIN
    };
    let want = Outcome {
        failures,
        ..ended(0, ending, length as u64, entries)
    };
    is_served(rt, alloc, source, (4096, 4096), want, answers)
}

/// Whether it fails or ends.
#[test]
fn a_reader_leaves_what_it_gave_answered(rt: HostRuntime) {
    for count in 0..44 {
        let is_right = is_answered_until(&rt, rt.alloc(), count, 4096, Some(ErrorKind::BrokenPipe))
            && is_answered_until(&rt, rt.alloc(), count, 1, None);
        assert!(rt; is_right, "after {count}");
    }
}

/// Whether this comes of the stream where the writer takes so many bytes a write and fails after a limit, and so many of the answers go out.
fn is_written<H: Wait>(
    rt: &H,
    alloc: Global,
    sizes: (usize, usize),
    want: Outcome,
    length: usize,
) -> bool {
    let source = Source {
        first: STREAM,
        ..PLAIN
    };
    let Some(answers) = ANSWERS.get(..length) else {
        return false;
    };
    is_served(rt, alloc, source, sizes, want, answers)
}

/// A session whose writer failed after so many of the 74 bytes of answers.
fn stopped(count: usize) -> Outcome {
    Outcome {
        unsent: 74usize.saturating_sub(count),
        failures: 1,
        ..ended(0, Ending::WriteFault, count as u64, 2)
    }
}

#[test]
fn a_failing_writer_has_what_it_took(rt: HostRuntime) {
    for limit in 0..74 {
        let is_right = is_written(&rt, rt.alloc(), (7, limit), stopped(limit), limit);
        assert!(rt; is_right, "failure after {limit}");
    }
}

#[test]
fn a_writer_may_take_a_byte_at_a_time_and_fails_if_it_takes_none(rt: HostRuntime) {
    let whole = ended(0, Ending::InputEnded, 74, 2);
    for &(step, want, length) in &[(1, whole, 74), (0, stopped(0), 0)] {
        assert!(rt;
            is_written(&rt, rt.alloc(), (step, 100), want, length),
            "{step}"
        );
    }
}

/// ClusterInfo with the call ids 1 to 6.
const SIX: &[u8] = &[
    0, 0, 0, 6, 1, 10, 0, 0, 0, 1, 0, 0, 0, 6, 1, 10, 0, 0, 0, 2, //
    0, 0, 0, 6, 1, 10, 0, 0, 0, 3, 0, 0, 0, 6, 1, 10, 0, 0, 0, 4, //
    0, 0, 0, 6, 1, 10, 0, 0, 0, 5, 0, 0, 0, 6, 1, 10, 0, 0, 0, 6,
];

/// A reply to ClusterInfo of a cluster with nothing in it, but for its call id.
pub const NOTHING: [u8; 55] = [
    0, 0, 0, 51, 1, 10, 0, 0, 0, 0, 0, 0, 0, 0, 0, 0, 0, 0, 0, 0, 0, 0, 0, //
    0, 0, 0, 0, 0, 0, 0, 0, 0, 0, 0, 0, 0, 0, 0, 0, //
    0, 0, 0, 0, 0, 0, 0, 0, 0, 0, 0, 0, 0, 0, 0, 0,
];

/// Whether the bytes are six such replies, with the call ids 1 to 6.
fn are_six_replies(bytes: &[u8]) -> bool {
    let mut want = NOTHING;
    for reply in bytes.chunks(55) {
        want[9] = want[9].saturating_add(1);
        if reply != want.as_slice() {
            return false;
        }
    }
    want[9] == 6
}

/// What comes of the six requests in two epochs of at most four entries each, until the end of each.
fn of_six<H: Wait>(rt: &H, alloc: Global, sink: &mut Sink) -> (Option<Outcome>, Option<Outcome>) {
    let source = Source {
        first: SIX,
        ..PLAIN
    };
    served(rt, alloc, (4, 4), source, sink)
}

/// The four answers of the first epoch are written out before it ends.
#[test]
fn a_pending_request_goes_on_in_the_next_epoch(rt: HostRuntime) {
    let mut sink = Sink {
        kept: Vec::new(rt.alloc()),
        step: 4096,
        limit: 4096,
    };
    let (first, second) = of_six(&rt, rt.alloc(), &mut sink);
    let after = Outcome {
        endings: Endings {
            times: 2,
            quiets: 0,
            first: Some(Ending::Sealed),
            last: Some(Ending::InputEnded),
        },
        sent: 330,
        unsent: 0,
        entries: 2,
        failures: 0,
    };
    assert!(rt; first == Some(ended(0, Ending::Sealed, 220, 4)));
    assert!(rt; second == Some(after));
    assert!(rt; are_six_replies(&sink.kept));
}

#[test]
fn a_writer_can_fail_at_a_full_journal(rt: HostRuntime) {
    let mut sink = Sink {
        kept: Vec::new(rt.alloc()),
        step: 4096,
        limit: 100,
    };
    let (first, _second) = of_six(&rt, rt.alloc(), &mut sink);
    let want = Outcome {
        unsent: 120,
        failures: 1,
        ..ended(0, Ending::WriteFault, 100, 4)
    };
    assert!(rt; first == Some(want));
}
