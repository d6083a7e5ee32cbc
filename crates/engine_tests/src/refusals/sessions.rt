//! Sessions: what opening one, answering and writing out take.
ghost use Rattle.std.specs.Prelude.{◌≡◌, []};

use cap_base::RESOURCES;
use cap_commit::Cluster;
use cap_session::{Counted, Next, Sent, Session};
use memory_testing::Hoard;
use refusal_cases::sessions::{INFO, INFO_ANSWERED, answer, feed};
use refusal_cases::{Before, cluster_after};
use std::alloc::Global;

/// Whether a session opens where no bytes are left.
fn opens(alloc: Global, hoard: &mut Hoard) -> bool {
    hoard.leave(alloc, 0);
    let session = Session::open(alloc);
    hoard.give();
    session.is_ok() && hoard.is_short()
}

/// Answers a ClusterInfo and writes the answer into this room where no bytes are left, and says what went out.
fn sent(
    alloc: Global,
    hoard: &mut Hoard,
    cluster: &mut Cluster<RESOURCES>,
    session: &mut Session,
    room: &mut [u8],
) -> Option<Sent>
    requires { session.old.opens ≡ [] }
{
    feed(session, INFO);
    let Next::Request(request) = session.next_request() else {
        return None;
    };
    hoard.leave(alloc, 0);
    answer(alloc, cluster, session, &request);
    let mut output = room;
    let sent = session.write_out(&mut Counted::new(&mut output));
    hoard.give();
    if hoard.is_short() { Some(sent) } else { None }
}

/// The same of a session that opens where no bytes are left.
fn sent_first(alloc: Global, room: &mut [u8]) -> Option<Sent> {
    let mut hoard = Hoard::new(alloc)?;
    if !opens(alloc, &mut hoard) {
        return None;
    }
    match (cluster_after(alloc, Before::Nothing), Session::open(alloc)) {
        (Some(mut cluster), Ok(mut session)) => {
            sent(alloc, &mut hoard, &mut cluster, &mut session, room)
        }
        _ => None,
    }
}

#[test]
fn openings_and_answers_take_no_memory(rt: HostRuntime) {
    let mut room = [0u8; 55];
    let sent = sent_first(rt.alloc(), &mut room);
    assert_eq!(rt; sent, Some(Sent::All(55)));
    assert!(rt; room.as_slice() == INFO_ANSWERED);
}
