//! Tests of requests that a session reads ahead and hands out together.
ghost use Rattle.std.specs.Prelude.{◌≡◌, [], length};

use cap_model::{Refusal, ReplyWith};
use cap_session::{Fed, Next, Session};
use std::alloc::Global;

/// ClusterInfo with call ids 1 and 2, a payload of one byte, and a ClusterInfo with call id 3, framed.
const FOUR: &[u8] = &[
    0, 0, 0, 6, 1, 10, 0, 0, 0, 1, 0, 0, 0, 6, 1, 10, 0, 0, 0, 2, 0, 0, 0, 1, 9, 0, 0, 0, 6, 1, 10,
    0, 0, 0, 3,
];

/// Replies to the first two with status 1, the fault reply with status 41, and a reply to the last with status 1.
const FOUR_ANSWERED: &[u8] = &[
    0, 0, 0, 7, 1, 10, 0, 0, 0, 1, 1, 0, 0, 0, 7, 1, 10, 0, 0, 0, 2, 1, 0, 0, 0, 7, 1, 0, 0, 0, 0,
    0, 41, 0, 0, 0, 7, 1, 10, 0, 0, 0, 3, 1,
];

/// How many requests are read ahead at most.
const AHEAD_MAX: usize = 64;

/// How many bytes the reply to each takes, with its frame.
const REPLY_BYTES: usize = 11;

/// Opens requests that were read ahead, so many at most, and says how many there were.
fn open_ahead(session: &mut Session, most: usize) -> usize
    requires { session.old.opens ≡ [] }
    ensures { length session.new.opens ≡ result }
{
    let mut count = 0;
    while count < most {
        if session.next_ahead().is_none() {
            return count;
        }
        count += 1;
    }
    count
}

/// Refuses the open requests, of which there are so many, with status 1.
fn refuse_open(session: &mut Session, count: usize)
    requires { length session.old.opens ≡ count }
    ensures { session.new.opens ≡ [] }
{
    for _ in 0..count {
        session.answer(&ReplyWith::Refused(Refusal::UnknownQueue));
    }
}

/// Refuses up to eight requests that are left, one after the other, with status 1.
fn refuse_rest(session: &mut Session)
    requires { session.old.opens ≡ [] }
{
    for _ in 0..8 {
        let Next::Request(_) = session.next_request() else {
            return;
        };
        session.answer(&ReplyWith::Refused(Refusal::UnknownQueue));
    }
}

/// How many requests of the stream are opened before the first is answered, so many at most, and whether the stream is answered where the
/// others are answered one after the other. `None` if an allocation fails.
fn answers_after(alloc: Global, together: usize) -> Option<(usize, bool)> {
    let mut session = Session::open(alloc).ok()?;
    if session.feed(FOUR) != Fed::Taken {
        return None;
    }
    session.read_ahead();
    let opened = open_ahead(&mut session, together);
    refuse_open(&mut session, opened);
    refuse_rest(&mut session);
    Some((opened, session.unsent() == FOUR_ANSWERED))
}

#[test]
fn requests_are_open_together_up_to_a_payload_that_is_none(rt: HostRuntime) {
    for together in 0..4 {
        let opened = if together < 2 { together } else { 2 };
        assert!(rt; answers_after(rt.alloc(), together) == Some((opened, true)));
    }
}

/// How many of 70 requests are read ahead, and how many bytes answer them all. `None` if an allocation fails.
fn reads_ahead_many(alloc: Global) -> Option<(usize, usize)> {
    let mut session = Session::open(alloc).ok()?;
    let (one, _) = FOUR.split_at_checked(10)?;
    for _ in 0..70 {
        if session.feed(one) != Fed::Taken {
            return None;
        }
    }
    session.read_ahead();
    let opened = open_ahead(&mut session, 70);
    refuse_open(&mut session, opened);
    refuse_rest(&mut session);
    Some((opened, session.unsent().len()))
}

#[test]
fn at_most_64_requests_are_read_ahead(rt: HostRuntime) {
    assert!(rt; reads_ahead_many(rt.alloc()) == Some((AHEAD_MAX, 70 * REPLY_BYTES)));
}

/// Whether a session without a whole request has none to open. `None` if an allocation fails.
fn opens_nothing(alloc: Global) -> Option<bool> {
    let mut session = Session::open(alloc).ok()?;
    let (partial, _) = FOUR.split_at_checked(9)?;
    if session.feed(partial) != Fed::Taken {
        return None;
    }
    session.read_ahead();
    Some(session.next_ahead().is_none())
}

#[test]
fn a_session_without_a_whole_request_opens_none(rt: HostRuntime) {
    assert!(rt; opens_nothing(rt.alloc()) == Some(true));
}
