//! Payloads that are read where memory is refused, in either version (`READINGS`).
use crate::cases::Case;
use crate::fixture::came_of;
use crate::table::ONE;
use cap_base::RESOURCES;
use cap_messages::{MessageFault, read_request};
use cap_model::Request;
use cap_testing::{Call, WantedContainers, frame};
use memory_testing::{Came, Hoard};
use std::alloc::Global;

/// A call in a version, and what is read of it: how many asks and releases an Allocate has, and how many GPUs its first ask; or
/// how many bytes the property lines of a Refresh have.
pub type Row = (u8, Call<'static>, [u64; 3]);

/// Two asks, and three releases.
const ALLOCATE: Call<'static> = Call::Allocate(
    1,
    0,
    &[
        WantedContainers {
            resource: [1024, 1, 4],
            ..ONE
        },
        ONE,
    ],
    &[7, 8, 9],
);

const REFRESH: Call<'static> = Call::Refresh(b"yarn.scheduler.capacity.root.queues=a,b");

/// Each of which takes memory for its lists.
pub static READINGS: [Case; 4] = [
    Case::Reading((1, ALLOCATE, [2, 3, 0])),
    Case::Reading((2, ALLOCATE, [2, 3, 4])),
    Case::Reading((1, REFRESH, [39, 0, 0])),
    Case::Reading((2, REFRESH, [39, 0, 0])),
];

fn shown(request: &Request<RESOURCES>) -> Option<[u64; 3]> {
    match request {
        Request::Allocate { asks, releases, .. } => {
            let (asks, releases) = (asks.as_slice(), releases.as_slice());
            let [_, _, gpus] = asks.first()?.resource().amounts();
            Some([asks.len() as u64, releases.len() as u64, gpus])
        }
        Request::Refresh { text } => Some([text.as_slice().len() as u64, 0, 0]),
        _ => None,
    }
}

/// Whether the payload of a row is read so, with its version and its call id.
fn read(alloc: Global, payload: &[u8], row: Row) -> Result<bool, MessageFault> {
    let (version, _, wanted) = row;
    match read_request(alloc, payload) {
        Ok((head, request)) => {
            Ok((head.version, head.call_id) == (version, 1) && shown(&request) == Some(wanted))
        }
        Err(fault) => Err(fault),
    }
}

/// What comes of reading the payload where so many bytes are left: one for which memory was refused is read once it is there.
fn judged(alloc: Global, hoard: &mut Hoard, bytes: usize, payload: &[u8], row: Row) -> Came {
    hoard.leave(alloc, bytes);
    let first = read(alloc, payload, row);
    hoard.give();
    match first {
        Ok(is_so) => came_of(false, is_so),
        Err(MessageFault::NoMemory) => {
            came_of(true, matches!(read(alloc, payload, row), Ok(true)))
        }
        Err(MessageFault::Bad) => Came::Other,
    }
}

/// What comes of reading a row's payload where so many bytes are left.
pub fn came(alloc: Global, hoard: &mut Hoard, bytes: usize, row: Row) -> Came {
    let (version, call, _) = row;
    let Ok(frame) = frame(alloc, version, 1, &call) else {
        return Came::Beside;
    };
    match frame.get(4..) {
        Some(payload) => judged(alloc, hoard, bytes, payload, row),
        None => Came::Other,
    }
}
