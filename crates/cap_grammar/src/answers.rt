//! Replies read from their bytes, to be shown (`read_reply`, `Answer`).
ghost use Rattle.std.specs.Prelude.{◌≡◌, IfOk, true};
ghost use Rattle.cap_grammar.specs.Answers.{IsKindly, IsReadAs, Says};
ghost use Rattle.cap_grammar.specs.Versions.{is_version};
ghost use Rattle.cap_base.specs.Limits.{resources};
ghost use Rattle.cap_grammar.specs.Spelling.{IsFaultStatus, IsRefusalOf};

use crate::fault::MessageFault;
use crate::fields::{byte_of, u32_of};
use crate::head::{Head, has_version};
use crate::output::{Out, REPLY_ROOM};
use crate::replies::{BAD_LENGTH, BAD_MESSAGE, granted_of, kind_of, write_fault, write_reply};
use crate::requests::{REFRESH, head_of};
use cap_base::RESOURCES;
use cap_model::{OwnedReply, Refusal, ReplyWith};
use std::alloc::Global;

/// The status of the refusal that a fault of property lines gets.
const BAD_SETTINGS: u8 = 17;

/// All refusals of which the status says all.
const REFUSALS: [Refusal; 18] = [
    Refusal::UnknownQueue,
    Refusal::NotLeaf,
    Refusal::QueueStopped,
    Refusal::TooManyApplications,
    Refusal::UnknownApplication,
    Refusal::AlreadyRegistered,
    Refusal::NotRegistered,
    Refusal::BadResponseId,
    Refusal::AskTooLarge,
    Refusal::TooManyAsks,
    Refusal::UnknownNode,
    Refusal::HostTaken,
    Refusal::TotalTooLarge,
    Refusal::TooManyNodes,
    Refusal::ZeroResource,
    Refusal::NumbersSpent,
    Refusal::OtherQueues,
    Refusal::NoMemory,
];

/// What the bytes of a reply say.
#[derive(Drop)]
pub enum Answer {
    /// The reply to a request of this head and kind.
    Reply {
        head: Head,
        kind: u8,
        reply: OwnedReply<RESOURCES>,
    },
    /// The reply to a payload or a frame that is no request: its status, `BAD_LENGTH` or `BAD_MESSAGE`.
    Fault(u8),
}

/// What the bytes of a reply say, all of them: of two answers no bytes say both. `Bad` where they are no reply. `NoMemory` if an
/// allocation fails. Amounts of GPUs, which version 1 does not spell, are then 0.
pub fn read_reply(alloc: Global, bytes: &[u8]) -> Result<Answer, MessageFault>
    ensures { IfOk result (λ answer. Says bytes.now answer) }
{
    let ((version, kind, call_id), rest) = head_of(bytes)?;
    let (status, rest) = byte_of(rest)?;
    let answer = if kind == 0 {
        Answer::Fault(fault_of(status)?)
    } else {
        let version = version_of(version)?;
        let kind = kind_of(kind)?;
        let reply = reply_of(alloc, version, kind, status, rest)?;
        Answer::Reply {
            head: Head { version, call_id },
            kind,
            reply,
        }
    };
    if is_spelled(alloc, &answer, bytes)? {
        Ok(answer)
    } else {
        Err(MessageFault::Bad)
    }
}

/// The version of a reply.
fn version_of(version: u8) -> Result<u8, MessageFault>
    ensures { IfOk result (λ version. is_version resources version ≡ true) }
{
    if has_version(version) {
        Ok(version)
    } else {
        Err(MessageFault::Bad)
    }
}

/// The status of a fault, which is one of two.
fn fault_of(status: u8) -> Result<u8, MessageFault>
    ensures { IfOk result (λ fault. IsFaultStatus fault) }
{
    match status {
        BAD_LENGTH | BAD_MESSAGE => Ok(status),
        _ => Err(MessageFault::Bad),
    }
}

/// Whether the answer is written in these bytes.
fn is_spelled(alloc: Global, answer: &Answer, bytes: &[u8]) -> Result<bool, MessageFault>
    requires { IsKindly answer.now }
    ensures { IfOk result (λ same. same ≡ true → Says bytes.now answer.now) }
{
    let mut out = Out::with_capacity(alloc, REPLY_ROOM)?;
    match answer {
        Answer::Reply { head, kind, reply } => write_reply(*head, *kind, &reply.view(), &mut out),
        Answer::Fault(status) => write_fault(*status, &mut out),
    }
    Ok(are_written(bytes, &out))
}

/// Whether these bytes, and no others, were written.
fn are_written(bytes: &[u8], out: &Out) -> bool
    ensures { result ≡ true → bytes.now ≡ out.now.items }
{
    out.as_slice() == bytes
}

/// The reply to a request of this kind with this status, from what follows them.
fn reply_of(
    alloc: Global,
    version: u8,
    kind: u8,
    status: u8,
    bytes: &[u8],
) -> Result<OwnedReply<RESOURCES>, MessageFault>
    ensures { IfOk result (λ reply. IsReadAs version kind reply) }
{
    if status == 0 {
        return granted_of(alloc, version, kind, bytes);
    }
    Ok(ReplyWith::Refused(refusal_of(kind, status, bytes)?))
}

/// The refusal of this status that a request of this kind may get, from what follows the status: a Refresh alone is told of a fault
/// of its property lines.
fn refusal_of(kind: u8, status: u8, bytes: &[u8]) -> Result<Refusal, MessageFault>
    ensures { IfOk result (λ refusal. IsRefusalOf kind refusal) }
{
    if status == BAD_SETTINGS {
        if kind != REFRESH {
            return Err(MessageFault::Bad);
        }
        let (line, rest) = u32_of(bytes)?;
        let (number, _) = byte_of(rest)?;
        return Ok(Refusal::BadSettings { line, number });
    }
    match REFUSALS.iter().find(|refusal| refusal.status() == status) {
        Some(refusal) => Ok(*refusal),
        None => Err(MessageFault::Bad),
    }
}
