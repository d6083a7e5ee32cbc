//! A Refresh among the requests of a session: what each is answered, wherever it stands and whatever its property lines read as.

use crate::workers::serving::{Ending, Endings};
use crate::workers::sessions::{NOTHING, ONE_QUEUE, Outcome, PLAIN, ended, is_served, served};
use crate::workers::streams::{Sink, Source};
use cap_testing::{Call, frame};
use std::alloc::Global;
use std::sync::Wait;
use std::test::*;

/// Other settings of the one queue: its capacity is (1024, 1).
const LARGER: &[u8] = b"yarn.scheduler.capacity.root.queues=default
yarn.scheduler.capacity.root.default.capacity=[memory=1024,vcores=1]";

/// Lines of which the second is none.
const NO_LINE: &[u8] = b"yarn.scheduler.capacity.root.queues=default
x";

/// Settings of another queue.
const OTHER_QUEUE: &[u8] = b"yarn.scheduler.capacity.root.queues=other";

const SHOW: Call<'static> = Call::QueueInfo(b"root.default");

/// Replies, but for their call ids: a Refresh that is done, and one that is refused with status 17, line 2 and BadLine, or with status 18.
const DONE: &[u8] = &[0, 0, 0, 7, 1, 11, 0, 0, 0, 0, 0];

const BAD_LINE: &[u8] = &[0, 0, 0, 12, 1, 11, 0, 0, 0, 0, 17, 0, 0, 0, 2, 1];

const NOT_ITS_QUEUES: &[u8] = &[0, 0, 0, 7, 1, 11, 0, 0, 0, 0, 18];

/// What is seen of the queue at first: a leaf that is RUNNING, with no capacity, not bounded, and with no use and no application.
const SEEN: &[u8] = &[
    0, 0, 0, 62, 1, 8, 0, 0, 0, 0, 0, 1, 1, //
    0, 0, 0, 0, 0, 0, 0, 0, 0, 0, 0, 0, 0, 0, 0, 0, //
    0, 0, 0, 0, 0, 0, 0, 0, 0, 0, 0, 0, 0, 0, 0, 0, 0, //
    0, 0, 0, 0, 0, 0, 0, 0, 0, 0, 0, 0, 0, 0, 0, 0, //
    0, 0, 0, 0,
];

/// The same with the larger capacity.
const SEEN_LARGER: &[u8] = &[
    0, 0, 0, 62, 1, 8, 0, 0, 0, 0, 0, 1, 1, //
    0, 0, 0, 0, 0, 0, 4, 0, 0, 0, 0, 0, 0, 0, 0, 1, //
    0, 0, 0, 0, 0, 0, 0, 0, 0, 0, 0, 0, 0, 0, 0, 0, 0, //
    0, 0, 0, 0, 0, 0, 0, 0, 0, 0, 0, 0, 0, 0, 0, 0, //
    0, 0, 0, 0,
];

/// Calls of one batch, each with its reply.
type Batch = &'static [(Call<'static>, &'static [u8])];

/// A Refresh in the middle of a batch.
const MIDDLE: Batch = &[
    (SHOW, SEEN),
    (Call::Refresh(LARGER), DONE),
    (SHOW, SEEN_LARGER),
];

/// A Refresh that is first, in the middle, last or alone; two of them, one after the other and apart; and those that are refused.
static BATCHES: [Batch; 8] = [
    &[
        (Call::Refresh(LARGER), DONE),
        (SHOW, SEEN_LARGER),
        (Call::ClusterInfo, &NOTHING),
    ],
    MIDDLE,
    &[
        (SHOW, SEEN),
        (Call::ClusterInfo, &NOTHING),
        (Call::Refresh(LARGER), DONE),
    ],
    &[(Call::Refresh(LARGER), DONE)],
    &[
        (Call::Refresh(LARGER), DONE),
        (Call::Refresh(ONE_QUEUE), DONE),
        (SHOW, SEEN),
    ],
    &[
        (Call::Refresh(LARGER), DONE),
        (SHOW, SEEN_LARGER),
        (Call::Refresh(ONE_QUEUE), DONE),
        (SHOW, SEEN),
    ],
    &[
        (Call::Refresh(LARGER), DONE),
        (Call::Refresh(NO_LINE), BAD_LINE),
        (SHOW, SEEN_LARGER),
    ],
    &[
        (SHOW, SEEN),
        (Call::Refresh(OTHER_QUEUE), NOT_ITS_QUEUES),
        (Call::Refresh(LARGER), DONE),
        (SHOW, SEEN_LARGER),
    ],
];

/// The frames of calls with the call ids from 1 on, and their replies with the same.
#[derive(Drop)]
struct Spelled {
    stream: Vec<u8>,
    answers: Vec<u8>,
}

impl Spelled {
    /// Those of a batch. `None` if an allocation fails.
    fn of(alloc: Global, batch: Batch) -> Option<Spelled> {
        let mut spelled = Spelled {
            stream: Vec::new(alloc),
            answers: Vec::new(alloc),
        };
        let mut id = 0u8;
        for (call, reply) in batch {
            id = id.saturating_add(1);
            spelled.put(alloc, id, call, reply)?;
        }
        Some(spelled)
    }

    /// Puts a call and its reply behind the others.
    fn put(&mut self, alloc: Global, id: u8, call: &Call<'_>, reply: &[u8]) -> Option<()> {
        let frame = frame(alloc, 1, id as u32, call).ok()?;
        self.stream.extend_from_slice(&frame).ok()?;
        let at = self.answers.len().saturating_add(9);
        self.answers.extend_from_slice(reply).ok()?;
        *self.answers.get_mut(at)? = id;
        Some(())
    }
}

/// Whether a batch is answered so, and each of its calls has an entry.
fn is_answered<H: Wait>(rt: &H, alloc: Global, batch: Batch) -> Option<bool> {
    let spelled = Spelled::of(alloc, batch)?;
    let source = Source {
        first: spelled.stream.as_slice(),
        ..PLAIN
    };
    let answers = spelled.answers.as_slice();
    let want = ended(0, Ending::InputEnded, answers.len() as u64, batch.len());
    Some(is_served(rt, alloc, source, (4096, 4096), want, answers))
}

#[test]
fn a_refresh_may_stand_anywhere_in_a_batch(rt: HostRuntime) {
    for (i, batch) in BATCHES.iter().enumerate() {
        assert!(rt;
            is_answered(&rt, rt.alloc(), batch) == Some(true),
            "batch {i}"
        );
    }
}

/// What comes of a Refresh in the middle in two epochs, of which the first is full before it, until the end of each, and whether all is
/// answered.
fn sealed<H: Wait>(rt: &H, alloc: Global) -> Option<(Option<Outcome>, Option<Outcome>, bool)> {
    let spelled = Spelled::of(alloc, MIDDLE)?;
    let source = Source {
        first: spelled.stream.as_slice(),
        ..PLAIN
    };
    let mut sink = Sink {
        kept: Vec::new(alloc),
        step: 4096,
        limit: 4096,
    };
    let (first, second) = served(rt, alloc, (1, 4), source, &mut sink);
    Some((
        first,
        second,
        sink.kept.as_slice() == spelled.answers.as_slice(),
    ))
}

/// The Refresh comes back from the full journal, and is made in the next epoch.
#[test]
fn a_refresh_goes_on_in_the_next_epoch(rt: HostRuntime) {
    let after = Outcome {
        endings: Endings {
            times: 2,
            quiets: 0,
            first: Some(Ending::Sealed),
            last: Some(Ending::InputEnded),
        },
        sent: 143,
        unsent: 0,
        entries: 2,
        failures: 0,
    };
    let want = (Some(ended(0, Ending::Sealed, 66, 1)), Some(after), true);
    assert!(rt; sealed(&rt, rt.alloc()) == Some(want));
}
