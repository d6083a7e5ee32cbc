//! Sessions of which each allocation is refused (`SESSIONS`), and what comes of one (`came`).
ghost use Rattle.std.specs.Prelude.{◌≡◌, [], ◌∷◌};
ghost use Rattle.cap_session.specs.Session.{open_requests};

use crate::cases::Case;
use crate::fixture::{came_of, cluster_after};
use crate::table::Before;
use cap_base::RESOURCES;
use cap_commit::Cluster;
use cap_messages::dispatch;
use cap_model::{Refusal, ReplyWith, Request};
use cap_session::{Fed, Next, Session, SessionCause};
use memory_testing::{Came, Hoard};
use std::alloc::Global;

/// ClusterInfo with call id 1, framed.
pub const INFO: &[u8] = &[0, 0, 0, 6, 1, 10, 0, 0, 0, 1];

/// What it is answered in a cluster with nothing in it.
pub const INFO_ANSWERED: &[u8] = &[
    0, 0, 0, 51, 1, 10, 0, 0, 0, 1, 0, 0, 0, 0, 0, 0, 0, 0, 0, 0, 0, 0, 0, 0, 0, 0, 0, 0, 0, 0, 0,
    0, 0, 0, 0, 0, 0, 0, 0, 0, 0, 0, 0, 0, 0, 0, 0, 0, 0, 0, 0, 0, 0, 0, 0,
];

/// RegisterNode of `n1` in `/r1` with (8192, 8) and call id 2, framed, and its answer, node 1.
const NODE: &[u8] = &[
    0, 0, 0, 29, 1, 5, 0, 0, 0, 2, 2, 110, 49, 3, 47, 114, 49, 0, 0, 0, 0, 0, 0, 32, 0, 0, 0, 0, 0,
    0, 0, 0, 8,
];

const NODE_ANSWERED: &[u8] = &[0, 0, 0, 15, 1, 5, 0, 0, 0, 2, 0, 0, 0, 0, 0, 0, 0, 0, 1];

/// An Allocate of application 1 with an ask and call id 5, framed, and its answer where it is refused with status 1.
const ASK: &[u8] = &[
    0, 0, 0, 56, 1, 3, 0, 0, 0, 5, 0, 0, 0, 0, 0, 0, 0, 1, 0, 0, 0, 0, 0, 1, 0, 0, 0, 1, 0, 0, 0,
    0, 0, 0, 0, 0, 0, 0, 0, 1, 0, 0, 0, 0, 0, 0, 4, 0, 0, 0, 0, 0, 0, 0, 0, 1, 1, 42, 0, 0,
];

const ASK_ANSWERED: &[u8] = &[0, 0, 0, 7, 1, 3, 0, 0, 0, 5, 1];

/// A payload that is no request, and its answer, status 41.
const NO_MESSAGE: &[u8] = &[0, 0, 0, 1, 9];

const NO_MESSAGE_ANSWERED: &[u8] = &[0, 0, 0, 7, 1, 0, 0, 0, 0, 0, 41];

/// A length that no frame has, and its answer, status 40.
const NO_LENGTH: &[u8] = &[0, 0, 0, 0];

const NO_LENGTH_ANSWERED: &[u8] = &[0, 0, 0, 7, 1, 0, 0, 0, 0, 0, 40];

/// What a session is fed where memory is short, what it is answered, and whether it ends there. Before that it was fed a ClusterInfo, or not.
#[derive(Clone, Copy)]
pub struct Row {
    is_second: bool,
    piece: &'static [u8],
    answered: &'static [u8],
    ends: bool,
}

/// A framer; a first request, and a second one whose piece comes while the first answer is unsent; a list; a payload that is no request; and a
/// length that no frame has.
pub static SESSIONS: [Case; 7] = [
    Case::Framer,
    Case::Session(Row {
        is_second: false,
        piece: INFO,
        answered: INFO_ANSWERED,
        ends: false,
    }),
    Case::Session(Row {
        is_second: true,
        piece: INFO,
        answered: INFO_ANSWERED,
        ends: false,
    }),
    Case::Session(Row {
        is_second: true,
        piece: NODE,
        answered: NODE_ANSWERED,
        ends: false,
    }),
    Case::Session(Row {
        is_second: true,
        piece: ASK,
        answered: ASK_ANSWERED,
        ends: false,
    }),
    Case::Session(Row {
        is_second: false,
        piece: NO_MESSAGE,
        answered: NO_MESSAGE_ANSWERED,
        ends: false,
    }),
    Case::Session(Row {
        is_second: false,
        piece: NO_LENGTH,
        answered: NO_LENGTH_ANSWERED,
        ends: true,
    }),
];

/// Feeds a session of which no request is open.
pub fn feed(session: &mut Session, piece: &[u8]) -> Fed
    requires { session.old.opens ≡ [] }
    ensures { session.new.opens ≡ [] }
{
    session.feed(piece)
}

/// Makes the call of the open request, and answers it; whether memory was there. An Allocate is refused with status 1.
pub fn answer(
    alloc: Global,
    cluster: &mut Cluster<RESOURCES>,
    session: &mut Session,
    request: &Request<RESOURCES>,
) -> bool
    requires { open_requests session.old.opens ≡ request.now ∷ [] }
    ensures { session.new.opens ≡ [] }
{
    match dispatch(alloc, cluster, request) {
        ReplyWith::ClusterInfo { report } => session.answer(&ReplyWith::ClusterInfo { report }),
        ReplyWith::RegisterNode { node } => session.answer(&ReplyWith::RegisterNode { node }),
        ReplyWith::Refused(Refusal::NoMemory) => {
            session.answer(&ReplyWith::Refused(Refusal::NoMemory));
            return false;
        }
        _ => session.answer(&ReplyWith::Refused(Refusal::UnknownQueue)),
    }
    true
}

/// Answers the next request, if there is one, and says whether the session goes on; none where it has ended for another cause than memory.
fn serve_next(
    alloc: Global,
    cluster: &mut Cluster<RESOURCES>,
    session: &mut Session,
) -> Option<bool>
    requires { session.old.opens ≡ [] }
    ensures { session.new.opens ≡ [] }
{
    match session.next_request() {
        Next::Request(request) => Some(answer(alloc, cluster, session, &request)),
        Next::Need => Some(true),
        Next::Ended(SessionCause::NoMemory) => Some(false),
        Next::Ended(_) => None,
    }
}

/// Whether a session that found no memory has ended for every later call, and has answered these bytes and no more.
fn has_ended(
    alloc: Global,
    cluster: &mut Cluster<RESOURCES>,
    session: &mut Session,
    output: &[u8],
) -> bool
    requires { session.old.opens ≡ [] }
{
    let ended = Fed::Ended(SessionCause::NoMemory);
    feed(session, INFO) == ended
        && serve_next(alloc, cluster, session) == Some(false)
        && feed(session, INFO) == ended
        && session.unsent() == output
}

/// Feeds a session the row's piece, in two parts, and takes its request, where so many bytes are left; whatever was answered before stays.
fn judged(
    alloc: Global,
    hoard: &mut Hoard,
    bytes: usize,
    cluster: &mut Cluster<RESOURCES>,
    session: &mut Session,
    row: Row,
) -> Option<Came>
    requires { session.old.opens ≡ [] }
{
    let before: &[u8] = if row.is_second { INFO_ANSWERED } else { &[] };
    let (front, rest) = row.piece.split_at_checked(3)?;
    hoard.leave(alloc, bytes);
    feed(session, front);
    feed(session, rest);
    let next = session.next_request();
    hoard.give();
    let is_whole = match next {
        Next::Request(request) => {
            if !answer(alloc, cluster, session, &request) {
                return Some(Came::Beside);
            }
            !row.ends
        }
        Next::Need => !row.ends,
        Next::Ended(SessionCause::BadLength) => row.ends,
        Next::Ended(SessionCause::NoMemory) => {
            return Some(came_of(true, has_ended(alloc, cluster, session, before)));
        }
        Next::Ended(_) => false,
    };
    let output = session.unsent();
    let is_so = is_whole && output.strip_prefix(before) == Some(row.answered);
    Some(came_of(false, is_so))
}

/// The same once a ClusterInfo was answered, where one is to be.
fn judged_after(
    alloc: Global,
    hoard: &mut Hoard,
    bytes: usize,
    cluster: &mut Cluster<RESOURCES>,
    session: &mut Session,
    row: Row,
) -> Option<Came>
    requires { session.old.opens ≡ [] }
{
    if row.is_second {
        feed(session, INFO);
        if serve_next(alloc, cluster, session) != Some(true) || session.unsent() != INFO_ANSWERED {
            return Some(Came::Beside);
        }
    }
    judged(alloc, hoard, bytes, cluster, session, row)
}

/// What comes of a session that is fed where so many bytes are left.
pub fn came(alloc: Global, hoard: &mut Hoard, bytes: usize, row: Row) -> Came {
    match (cluster_after(alloc, Before::Nothing), Session::open(alloc)) {
        (Some(mut cluster), Ok(mut session)) => {
            judged_after(alloc, hoard, bytes, &mut cluster, &mut session, row).unwrap_or(
                Came::Other,
            )
        }
        _ => Came::Beside,
    }
}
