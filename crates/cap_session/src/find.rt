//! What comes next in a stream (`find`), and the frame of a reply, written in place (`put_reply`).
ghost use Rattle.std.specs.Prelude.{◌≡◌, ◌*◌, ◌+◌, ◌++◌, OnOk, OnErr, [], length, true, false, ◌≤◌, Some, None};
ghost use Rattle.cap_base.specs.Limits.{resources};
ghost use Rattle.cap_frames.specs.History.{IsReading};
ghost use Rattle.cap_frames.specs.Stream.{frame_of};
ghost use Rattle.cap_grammar.specs.Spelling.{IsKind, IsOfKind, IsReply, reply_bytes, fault_reply};
ghost use Rattle.cap_grammar.specs.Versions.{is_version};
ghost use Rattle.cap_session.specs.Reading.{Finds, EndsWith, ended_by};
ghost use Rattle.cap_session.specs.Rooms.{kind_room};

use crate::ahead::make_room;
use crate::asked::{Asked, ReadPayload, ReplyHead};
use crate::session::{Next, SessionCause};
use bytes::BytesMut;
use cap_base::RESOURCES;
use cap_frames::{FrameFault, Framer, close_frame, open_frame};
use cap_grammar::{
    BAD_LENGTH, BAD_MESSAGE, FAULT_ROOM, MessageFault, kind, read_request, reply_room, write_fault,
    write_reply,
};
use cap_model::{NoMemory, OwnedReply};
use http_server::Log;
use std::alloc::Global;
use std::collections::VecDeque;

/// The room that is made for the frame of a reply to a request of this kind: its length, and what `write_reply` asks for.
pub(crate) fn frame_room(kind: u8) -> usize
    ensures { result ≡ kind_room kind }
{
    4 + reply_room(kind)
}

/// The payloads that were answered, each with the reply to its request, if it is one. It exists for contracts alone.
pub(crate) type Answered = Log<ReadPayload, Log<OwnedReply<RESOURCES>, ()>>;

/// Finds the next request, and makes room for the reply to it. Each payload before it that is none is answered so, and a length
/// that no frame has too. Where the session ends, `ended` says why then.
#[inline(always)]
pub(crate) fn find(
    alloc: Global,
    framer: &mut Framer,
    asked: &mut VecDeque<Asked>,
    unsent: &mut BytesMut,
    answered: &mut Answered,
    ended: &mut Option<SessionCause>,
) -> Next
    requires asked { asked.old.items ≡ [] }
    requires ended { ended.old ≡ None }
    ensures finds { Finds framer.old framer.new asked.new.items unsent.old unsent.new
        answered.old.items answered.new.items result }
    ensures ended { ended.new ≡ ended_by result }
{
    loop {
        let payload = match framer.next() {
            Ok(Some(payload)) => payload,
            Ok(None) => return Next::Need,
            Err(FrameFault::BadLength) => return end(answer_bad_length(unsent), ended),
            Err(FrameFault::NoMemory) => return end(SessionCause::NoMemory, ended),
        };
        let read = read_request(alloc, payload.as_slice());
        let opened = Log::new().and(&payload, &read);
        match read {
            Ok((head, request)) => {
                if make_room(asked, frame_room(kind(&request)), unsent).is_err() {
                    return end(SessionCause::NoMemory, ended);
                }
                asked.push_back_reserved(Asked::new(head, &request, opened));
                return Next::Request(request);
            }
            Err(MessageFault::Bad) => {
                let Ok(()) = put_fault(BAD_MESSAGE, unsent) else {
                    return end(SessionCause::NoMemory, ended);
                };
                *answered = answered.and(&opened, &Log::new());
            }
            Err(MessageFault::NoMemory) => return end(SessionCause::NoMemory, ended),
        }
    }
}

/// Ends for this cause.
fn end(cause: SessionCause, ended: &mut Option<SessionCause>) -> Next
    ensures result { result ≡ Next.Ended cause }
    ensures ended { ended.new ≡ Some cause }
{
    *ended = Some(cause);
    Next::Ended(cause)
}

/// Answers a length that no frame has, and gives the cause for which a session ends then.
fn answer_bad_length(unsent: &mut BytesMut) -> SessionCause
    ensures { EndsWith unsent.old.items unsent.new.items result }
{
    match put_fault(BAD_LENGTH, unsent) {
        Ok(()) => SessionCause::BadLength,
        Err(NoMemory) => SessionCause::NoMemory,
    }
}

/// Appends the frame of the fault reply of this status, for which it needs room for its 11 bytes alone. An `Err` changes nothing.
fn put_fault(status: u8, unsent: &mut BytesMut) -> Result<(), NoMemory>
    ensures ok { OnOk result (unsent.new.items
        ≡ unsent.old.items ++ frame_of (fault_reply status)) }
    ensures err { OnErr result (unsent.new.items ≡ unsent.old.items) }
{
    unsent.reserve(4 + FAULT_ROOM).map_err(|_| NoMemory)?;
    let start = open_frame(unsent);
    write_fault(status, unsent);
    close_frame(start, unsent);
    Ok(())
}

/// Appends the frame of a reply to the request of this head and kind. All room has been made.
pub(crate) fn put_reply(head: ReplyHead, reply: &OwnedReply<RESOURCES>, unsent: &mut BytesMut)
    requires version { is_version resources head.of_request.version ≡ true }
    requires table { IsKind head.kind }
    requires kind { IsOfKind head.kind reply.now }
    requires room { kind_room head.kind ≤ unsent.old.spare }
    ensures appends { unsent.new.items
        ≡ unsent.old.items ++ frame_of (reply_bytes head.of_request head.kind reply.now) }
    ensures spells { IsReply (reply_bytes head.of_request head.kind reply.now)
        head.of_request head.kind reply.now }
    ensures spare { unsent.old.spare ≤ unsent.new.spare + kind_room head.kind }
{
    let start = open_frame(unsent);
    write_reply(head.of_request, head.kind, &reply.view(), unsent);
    close_frame(start, unsent);
}
