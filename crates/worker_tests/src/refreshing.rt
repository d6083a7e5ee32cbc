//! The property lines of a Refresh are read before the cluster is held: under the hold it takes no more memory than a call that has none.
use crate::epochs::{Play, call_all, play_in};
use cap_messages::read_request;
use cap_model::ReplyWith;
use cap_shared::{Fault, Receipt, Seat, Shared};
use cap_testing::{Call, TWO_QUEUES, frame};
use cap_workers::{LaneNaming, Scheduler};
use memory_testing::Hoard;
use std::alloc::Global;
use std::sync::Wait;
use std::test::*;
use std::time::Clock;

/// Calls at most that are refused for want of memory.
const TURNS: usize = 4096;

/// How many bytes more each call has than the one before.
const MORE: usize = 16;

/// How a call went.
#[derive(Clone, Copy, Debug, PartialEq, Eq)]
enum Came {
    Made,
    /// Memory was wanting.
    Refused,
    Other,
}

/// What came of a call. A Refresh that is answered anything but that it is done is another.
fn came_of<J: LaneNaming>(called: &Result<(), Fault>, seat: &Seat<J>, is_refresh: bool) -> Came {
    match called {
        Ok(()) => match seat.receipts().last() {
            Some(Receipt::Call { reply, .. }) => {
                if matches!(reply, ReplyWith::Refresh) == is_refresh {
                    Came::Made
                } else {
                    Came::Other
                }
            }
            _ => Came::Other,
        },
        Err(Fault::NoMemory) => Came::Refused,
        Err(Fault::Sealed) => Came::Other,
    }
}

/// How many bytes are left where a call is made ready, and where it is then made. `None`: all.
#[derive(Clone, Copy)]
struct Bytes {
    to_read: Option<usize>,
    to_call: Option<usize>,
}

/// Calls with memory that is refused.
#[derive(Drop)]
struct Caller<J: LaneNaming> {
    seat: Seat<J>,
    hoard: Hoard,
}

impl<J: LaneNaming> Caller<J> {
    /// A call is made ready and made while this thread holds the cluster all along.
    fn call<H: Wait>(
        &mut self,
        rt: &H,
        alloc: Global,
        shared: &Shared<J>,
        call: &Call<'_>,
        bytes: Bytes,
    ) -> Option<Came> {
        let frame = frame(alloc, 2, 1, call).ok()?;
        let (_, request) = read_request(alloc, frame.get(4..)?).ok()?;
        let mut held = shared.hold(rt);
        if let Some(bytes) = bytes.to_read {
            self.hoard.leave(alloc, bytes);
        }
        let ready = shared.ready(&request);
        self.hoard.give();
        if let Some(bytes) = bytes.to_call {
            self.hoard.leave(alloc, bytes);
        }
        let called = held.call(&mut self.seat, &ready);
        self.hoard.give();
        let is_refresh = matches!(call, Call::Refresh(_));
        Some(came_of(&called, &self.seat, is_refresh))
    }

    /// How often a call is refused that has all memory where it is made ready, and under the hold 16 bytes more each time, the first time none.
    fn count_refused<H: Wait>(
        &mut self,
        rt: &H,
        alloc: Global,
        shared: &Shared<J>,
        call: &Call<'_>,
    ) -> Option<usize> {
        for refused in 0..TURNS {
            let bytes = Bytes {
                to_read: None,
                to_call: Some(refused * MORE),
            };
            match self.call(rt, alloc, shared, call, bytes)? {
                Came::Refused if self.hoard.is_short() => {}
                Came::Made if self.hoard.is_short() => return Some(refused),
                _ => return None,
            }
        }
        None
    }
}

/// A call with little memory, after another, for which there is room for more receipts.
#[derive(Clone, Copy)]
struct Starved {
    call: Call<'static>,
}

/// How often the call was refused under the hold, and what comes of it where there is no memory as it is made ready.
#[derive(Clone, Copy, Debug, PartialEq, Eq)]
struct Seen {
    refused: usize,
    unread: Came,
}

impl Play for Starved {
    type Seen = Seen;

    fn play<J: LaneNaming, H: Wait + Clock>(
        &self,
        rt: &H,
        alloc: Global,
        shared: &Shared<J>,
        mut caller: Seat<J>,
        _own: Scheduler<J>,
    ) -> Option<Seen> {
        call_all(rt, alloc, shared, &mut caller, &[Call::ClusterInfo])?;
        let mut caller = Caller {
            seat: caller,
            hoard: Hoard::new(alloc)?,
        };
        let refused = caller.count_refused(rt, alloc, shared, &self.call)?;
        let bytes = Bytes {
            to_read: Some(0),
            to_call: None,
        };
        let unread = caller.call(rt, alloc, shared, &self.call, bytes)?;
        Some(Seen { refused, unread })
    }
}

/// Under the hold both are entered with their request and nothing else. To read the lines takes memory.
#[test]
fn the_lines_of_a_refresh_are_read_before_the_hold(rt: HostRuntime) {
    let show = Starved {
        call: Call::QueueInfo(b"root.a"),
    };
    let refresh = Starved {
        call: Call::Refresh(TWO_QUEUES),
    };
    let shown = play_in(&rt, rt.alloc(), &show);
    let refreshed = play_in(&rt, rt.alloc(), &refresh);
    assert!(rt; shown.is_some_and(|seen| seen.refused > 0 && seen.unread == Came::Made));
    let refused = shown.map(|seen| seen.refused);
    assert_eq!(rt; refreshed.map(|seen| seen.refused), refused);
    assert_eq!(rt; refreshed.map(|seen| seen.unread), Some(Came::Refused));
}
