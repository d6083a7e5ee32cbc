//! Replies of each kind written as bytes (`write_reply`, `write_fault`), and read from them by kind and status.
ghost use Rattle.std.specs.Prelude.{◌≡◌, ◌≤◌, ◌<◌, ◌+◌, ◌++◌, ◌∷◌, ◌^◌, length, true, IfOk};
ghost use Rattle.std.specs.Int.{w32, w64, to_be_bytes};
ghost use Rattle.cap_grammar.specs.Spelling.{IsKind, IsOfKind, FitsRefusal, FitsReply, IsReply, refusal_bytes, reply_bytes, reply_body, fault_reply, room_of, room_for};
ghost use Rattle.cap_grammar.specs.Answers.{IsReadAs};
ghost use Rattle.cap_grammar.specs.Versions.{is_version};
ghost use Rattle.cap_base.specs.Limits.{resources};

use crate::fault::MessageFault;
use crate::fields::{numbers_in, u32_of, u64_of, vector_of};
use crate::head::{Head, VERSION_1};
use crate::news::{allocated, beaten, put_allocated, put_beat};
use crate::output::{FAULT_ROOM, Out, REPLY_ROOM, SHORT_ROOM, put_amounts};
use crate::reports::{cluster_shown, put_cluster_report, put_queue_report, queue_shown};
use crate::requests::{
    ALLOCATE, CLUSTER_INFO, FINISH_MASTER, HEARTBEAT, LAST_KIND, NODE_GONE, QUEUE_INFO, REFRESH,
    REGISTER_MASTER, REGISTER_NODE, SET_QUEUE_STATE, SUBMIT,
};
use cap_base::RESOURCES;
use cap_model::{OwnedReply, Refusal, ReplyView, ReplyWith};
use std::alloc::Global;

/// The status of the reply to a length that no frame has.
pub const BAD_LENGTH: u8 = 40;

/// The status of the reply to a payload that is no request.
pub const BAD_MESSAGE: u8 = 41;

/// Version, kind and call id.
pub(crate) fn put_head(version: u8, kind: u8, call_id: u32, out: &mut Out)
    requires { 6 ≤ out.old.spare }
    ensures appends { out.new.items ≡ out.old.items ++ version ∷ kind ∷ to_be_bytes w32 call_id }
    ensures spare { out.new.spare + 6 ≡ out.old.spare }
    ensures fits { call_id < 2 ^ 32 }
{
    out.extend_reserved(&[version, kind]);
    out.extend_reserved(&call_id.to_be_bytes());
}

// The status and what follows it, after the 10 bytes of a frame's length and a reply's head.
fn put_reply_body(version: u8, reply: &ReplyView<'_, RESOURCES>, out: &mut Out)
    requires { room_for reply.now ≤ out.old.spare + 10 }
    ensures appends { out.new.items ≡ out.old.items ++ reply_body version reply.now }
    ensures spare { out.new.spare + length (reply_body version reply.now) ≡ out.old.spare }
    ensures room { 10 + length (reply_body version reply.now) ≤ room_for reply.now }
    ensures fits { FitsReply reply.now }
{
    match reply {
        ReplyWith::Refused(refusal) => put_refusal(refusal, out),
        ReplyWith::Submit { app } => put_number(*app, out),
        ReplyWith::RegisterMaster { minimum, maximum } => {
            out.extend_reserved(&[0]);
            put_amounts(version, minimum, out);
            put_amounts(version, maximum, out);
        }
        ReplyWith::Allocate { reply } => {
            out.extend_reserved(&[0]);
            put_allocated(version, reply, out);
        }
        ReplyWith::FinishMaster { ended } => put_count(*ended, out),
        ReplyWith::RegisterNode { node } => put_number(*node, out),
        ReplyWith::Heartbeat { reply } => {
            out.extend_reserved(&[0]);
            put_beat(reply, out);
        }
        ReplyWith::NodeGone { ended } => put_count(*ended, out),
        ReplyWith::QueueInfo { report } => {
            out.extend_reserved(&[0]);
            put_queue_report(version, report, out);
        }
        ReplyWith::SetQueueState | ReplyWith::Refresh => out.extend_reserved(&[0]),
        ReplyWith::ClusterInfo { report } => {
            out.extend_reserved(&[0]);
            put_cluster_report(version, report, out);
        }
    }
}

// The status of a refusal, and what follows it.
fn put_refusal(refusal: &Refusal, out: &mut Out)
    requires { 6 ≤ out.old.spare }
    ensures appends { out.new.items ≡ out.old.items ++ refusal_bytes refusal.now }
    ensures spare { out.new.spare + length (refusal_bytes refusal.now) ≡ out.old.spare }
    ensures len { length (refusal_bytes refusal.now) ≤ 6 }
    ensures fits { FitsRefusal refusal.now }
{
    out.extend_reserved(&[refusal.status()]);
    if let Refusal::BadSettings { line, number } = refusal {
        out.extend_reserved(&line.to_be_bytes());
        out.extend_reserved(&[*number]);
    }
}

// Success, and the number that the call gives.
fn put_number(number: u64, out: &mut Out)
    requires { 9 ≤ out.old.spare }
    ensures appends { out.new.items ≡ out.old.items ++ 0 ∷ to_be_bytes w64 number }
    ensures spare { out.new.spare + 9 ≡ out.old.spare }
{
    out.extend_reserved(&[0]);
    out.extend_reserved(&number.to_be_bytes());
}

// Success, and how many containers have ended.
fn put_count(count: u32, out: &mut Out)
    requires { 5 ≤ out.old.spare }
    ensures appends { out.new.items ≡ out.old.items ++ 0 ∷ to_be_bytes w32 count }
    ensures spare { out.new.spare + 5 ≡ out.old.spare }
{
    out.extend_reserved(&[0]);
    out.extend_reserved(&count.to_be_bytes());
}

/// The room that a reply to a request of this kind takes at most, in bytes, with the four bytes of a frame's length before it:
/// `REPLY_ROOM` for an Allocate, and 90 for each other kind.
pub fn reply_room(kind: u8) -> usize
    ensures { result ≡ room_of kind }
{
    if kind == ALLOCATE {
        REPLY_ROOM
    } else {
        SHORT_ROOM
    }
}

/// Appends the one spelling of a reply to a request of this head and kind: the version is 1 or 2, the kind is one that `kind`
/// gives, the reply is a refusal or one of the kind, and as many bytes of `out` are free as `reply_room` says of the kind. Of each
/// vector version 1 spells memory and vcores alone, version 2 GPUs too. It takes no memory and cannot fail; what `out` held stays.
pub fn write_reply(head: Head, kind: u8, reply: &ReplyView<'_, RESOURCES>, out: &mut Out)
    requires version { is_version resources head.version ≡ true }
    requires table { IsKind kind }
    requires kind { IsOfKind kind reply.now }
    requires room { room_of kind ≤ out.old.spare }
    ensures appends { out.new.items ≡ out.old.items ++ reply_bytes head kind reply.now }
    ensures spare { out.new.spare + length (reply_bytes head kind reply.now) ≡ out.old.spare }
    ensures spells { IsReply (reply_bytes head kind reply.now) head kind reply.now }
    ensures some { 0 < length (reply_bytes head kind reply.now) }
    ensures room { 4 + length (reply_bytes head kind reply.now) ≤ room_of kind }
{
    put_head(head.version, kind, head.call_id, out);
    put_reply_body(head.version, reply, out);
}

/// Appends the reply to a payload that is no request, or to a frame that is none, whose call id is not known: `status` with
/// version 1, kind 0 and call id 0. `FAULT_ROOM` bytes of `out` are free. It takes no memory and cannot fail; what `out` held
/// stays.
pub fn write_fault(status: u8, out: &mut Out)
    requires { FAULT_ROOM ≤ out.old.spare }
    ensures appends { out.new.items ≡ out.old.items ++ fault_reply status }
    ensures spare { out.new.spare + FAULT_ROOM ≡ out.old.spare }
    ensures room { length (fault_reply status) ≡ FAULT_ROOM }
{
    out.extend_reserved(&[VERSION_1, 0, 0, 0, 0, 0, status]);
}

/// The kind of a reply, which is that of a request.
pub(crate) fn kind_of(kind: u8) -> Result<u8, MessageFault>
    ensures { IfOk result (λ kind. IsKind kind) }
{
    match kind {
        SUBMIT..=LAST_KIND => Ok(kind),
        _ => Err(MessageFault::Bad),
    }
}

/// The reply to a request of this kind that is not refused, from what follows the status.
pub(crate) fn granted_of(
    alloc: Global,
    version: u8,
    kind: u8,
    bytes: &[u8],
) -> Result<OwnedReply<RESOURCES>, MessageFault>
    ensures { IfOk result (λ reply. IsReadAs version kind reply) }
{
    match kind {
        SUBMIT => Ok(ReplyWith::Submit {
            app: u64_of(bytes)?.0,
        }),
        REGISTER_MASTER => registered(version, bytes),
        ALLOCATE => allocated(alloc, version, bytes),
        FINISH_MASTER => Ok(ReplyWith::FinishMaster {
            ended: u32_of(bytes)?.0,
        }),
        REGISTER_NODE => Ok(ReplyWith::RegisterNode {
            node: u64_of(bytes)?.0,
        }),
        HEARTBEAT => beaten(bytes),
        NODE_GONE => Ok(ReplyWith::NodeGone {
            ended: u32_of(bytes)?.0,
        }),
        QUEUE_INFO => queue_shown(version, bytes),
        SET_QUEUE_STATE => Ok(ReplyWith::SetQueueState),
        CLUSTER_INFO => cluster_shown(version, bytes),
        REFRESH => Ok(ReplyWith::Refresh),
        _ => Err(MessageFault::Bad),
    }
}

/// What a RegisterMaster gives.
fn registered(version: u8, bytes: &[u8]) -> Result<OwnedReply<RESOURCES>, MessageFault>
    ensures { IfOk result (λ reply. IsReadAs version 2 reply) }
{
    let (minimum, rest) = numbers_in(version, bytes)?;
    let (maximum, _) = numbers_in(version, rest)?;
    Ok(ReplyWith::RegisterMaster {
        minimum: vector_of(minimum)?,
        maximum: vector_of(maximum)?,
    })
}
