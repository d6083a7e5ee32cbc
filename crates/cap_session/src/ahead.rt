//! Requests that are read before they are asked for (`read_all`), and the room that a request takes (`make_room`).
ghost use Rattle.std.specs.Prelude.{◌≡◌, ◌<◌, ◌≤◌, OnOk, length};
ghost use Rattle.std.specs.VecDeque.{deque_len, deque_capacity};
ghost use Rattle.cap_frames.specs.History.{IsReading};
ghost use Rattle.cap_session.specs.Reading.{ReadsAhead};
ghost use Rattle.cap_session.specs.Rooms.{rooms, read_room};

use crate::asked::{Asked, ReadResult};
use crate::find::frame_room;
use bytes::BytesMut;
use cap_base::RESOURCES;
use cap_frames::Framer;
use cap_grammar::{kind, read_request};
use cap_model::{NoMemory, Request};
use http_server::Log;
use std::alloc::Global;
use std::collections::VecDeque;

/// How many requests are read and not answered at most.
pub(crate) const AHEAD_MAX: usize = 64;

/// Reads requests, up to a payload that is none, while there is memory to keep them and to answer them.
pub(crate) fn read_all(
    alloc: Global,
    framer: &mut Framer,
    asked: &mut VecDeque<Asked>,
    requests: &mut VecDeque<Request<RESOURCES>>,
    unsent: &mut BytesMut,
)
    requires reading { IsReading framer.old }
    requires room { rooms asked.old.items ≤ unsent.old.spare }
    ensures reads { ReadsAhead framer.old framer.new asked.old.items asked.new.items
        requests.old.items requests.new.items }
    ensures reading { IsReading framer.new }
    ensures unsent { unsent.new.items ≡ unsent.old.items }
    ensures room { rooms asked.new.items ≤ unsent.new.spare }
{
    if asked.len() >= AHEAD_MAX {
        return;
    }
    let mut room = rooms_of(asked);
    while asked.len() < AHEAD_MAX {
        let Some(bytes) = framer.peek() else {
            return;
        };
        let read = read_request(alloc, bytes);
        room += room_after(&read);
        if read.is_err()
            || requests.reserve(1).is_err()
            || make_room(asked, room, unsent).is_err()
        {
            return;
        }
        let Ok(Some(payload)) = framer.next() else {
            return;
        };
        let opened = Log::new().and(&payload, &read);
        let Ok((head, request)) = read else {
            unreachable!()
        };
        asked.push_back_reserved(Asked::new(head, &request, opened));
        requests.push_back_reserved(request);
    }
}

/// The room that the frames of the replies to all of them take.
fn rooms_of(asked: &VecDeque<Asked>) -> usize
    requires few { length asked.now.items < AHEAD_MAX }
    ensures { result ≡ rooms asked.now.items }
{
    let mut room = 0;
    for i in 0..asked.len() {
        room += frame_room(asked[i].kind());
    }
    room
}

/// The room that the frame of the reply takes to what was read, if it is a request.
fn room_after(read: &ReadResult) -> usize
    ensures { result ≡ read_room read.now }
{
    match read {
        Ok((_, request)) => frame_room(kind(request)),
        Err(_) => 0,
    }
}

/// Makes room for one more request, and so many bytes for the frames of the replies to all of them. If an allocation fails nothing that can be
/// seen changes.
pub(crate) fn make_room(
    asked: &mut VecDeque<Asked>,
    room: usize,
    unsent: &mut BytesMut,
) -> Result<(), NoMemory>
    requires few { length asked.old.items < AHEAD_MAX }
    requires room { rooms asked.old.items ≤ unsent.old.spare }
    ensures asked { asked.new.items ≡ asked.old.items }
    ensures unsent { unsent.new.items ≡ unsent.old.items }
    ensures kept { rooms asked.new.items ≤ unsent.new.spare }
    ensures made { OnOk result ((deque_len asked.new < deque_capacity asked.new)
        × (room ≤ unsent.new.spare)) }
{
    asked.reserve(1).map_err(|_| NoMemory)?;
    unsent.reserve(room).map_err(|_| NoMemory)
}
