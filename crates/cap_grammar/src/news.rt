//! What an Allocate, with its grants and ends, and a Heartbeat give, written as bytes and read from them.
ghost use Rattle.std.specs.Prelude.{◌≡◌, ℕ, ◌≤◌, ◌+◌, ◌*◌, ◌++◌, length, map, IfOk};
ghost use Rattle.std.specs.List.{flat_map, AllByRecursion};
ghost use Rattle.cap_grammar.specs.Spelling.{grant, end, counted_list, allocate_bytes, beat, FitsGrant, FitsEnd, FitsAllocated, FitsBeat};
ghost use Rattle.cap_grammar.specs.Shown.{shown_grant};
ghost use Rattle.cap_grammar.specs.Versions.{amounts_in};
ghost use Rattle.cap_base.specs.Limits.{resources};
ghost use Rattle.cap_grammar.specs.Answers.{IsReadAs};

use crate::fault::MessageFault;
use crate::fields::{byte_of, numbers_in, text_of, u16_of, u32_of, u64_of, vector_of};
use crate::output::{Out, put_amounts};
use crate::texts::place_from;
use cap_base::RESOURCES;
use cap_model::{
    AllocateReply, AllocateView, Cause, End, Grant, HeartbeatReply, Key, NEWS_MAX, OwnedReply,
    ReplyWith,
};
use std::alloc::Global;

// One grant.
#[tactic(auto, unfolding(crate::specs::Spelling::grant))]
fn put_grant(version: u8, told: &Grant<RESOURCES>, out: &mut Out)
    requires { 117 ≤ out.old.spare }
    ensures appends { out.new.items ≡ out.old.items ++ grant (amounts_in version) told.now }
    ensures spare { out.new.spare + length (grant (amounts_in version) told.now) ≡ out.old.spare }
    ensures len { length (grant (amounts_in version) told.now) ≤ 117 }
    ensures fits { FitsGrant resources told.now }
{
    let key = told.key();
    let host = told.host();
    out.extend_reserved(&told.container().to_be_bytes());
    out.extend_reserved(&key.priority.to_be_bytes());
    out.extend_reserved(&key.request.to_be_bytes());
    out.extend_reserved(&told.node().to_be_bytes());
    let host = host.as_bytes();
    out.extend_reserved(&[host.len() as u8]);
    out.extend_reserved(host);
    put_amounts(version, &told.resource(), out);
}

// Grants, one after the other.
fn put_grants(version: u8, grants: &[Grant<RESOURCES>], out: &mut Out)
    requires { 117 * length grants.now ≤ out.old.spare }
    ensures appends { out.new.items
        ≡ out.old.items ++ flat_map (grant (amounts_in version)) grants.now }
    ensures spare { out.new.spare + length (flat_map (grant (amounts_in version)) grants.now)
        ≡ out.old.spare }
    ensures len { length (flat_map (grant (amounts_in version)) grants.now)
        ≤ 117 * length grants.now }
    ensures fits { AllByRecursion (FitsGrant resources) grants.now }
{
    for told in grants {
        put_grant(version, told, out);
    }
}

// One end.
#[tactic(auto, unfolding(crate::specs::Spelling::end))]
fn put_end(told: &End, out: &mut Out)
    requires { 9 ≤ out.old.spare }
    ensures appends { out.new.items ≡ out.old.items ++ end told.now }
    ensures spare { out.new.spare + length (end told.now) ≡ out.old.spare }
    ensures len { length (end told.now) ≤ 9 }
    ensures fits { FitsEnd told.now }
{
    out.extend_reserved(&told.container.to_be_bytes());
    out.extend_reserved(&[told.cause.number()]);
}

// Ends, one after the other.
fn put_ends(ends: &[End], out: &mut Out)
    requires { 9 * length ends.now ≤ out.old.spare }
    ensures appends { out.new.items ≡ out.old.items ++ flat_map end ends.now }
    ensures spare { out.new.spare + length (flat_map end ends.now) ≡ out.old.spare }
    ensures len { length (flat_map end ends.now) ≤ 9 * length ends.now }
    ensures fits { AllByRecursion FitsEnd ends.now }
{
    for told in ends {
        put_end(told, out);
    }
}

// What an Allocate gives, written.
#[tactic(auto, unfolding(crate::specs::Spelling::allocate_bytes))]
pub(crate) fn put_allocated(version: u8, reply: &AllocateView<'_, RESOURCES>, out: &mut Out)
    requires { 8072 ≤ out.old.spare }
    ensures appends { out.new.items
        ≡ out.old.items ++ allocate_bytes (amounts_in version) reply.now }
    ensures spare { out.new.spare + length (allocate_bytes (amounts_in version) reply.now)
        ≡ out.old.spare }
    ensures len { length (allocate_bytes (amounts_in version) reply.now) ≤ 8072 }
    ensures fits { FitsAllocated resources reply.now }
{
    out.extend_reserved(&reply.response.to_be_bytes());
    out.extend_reserved(&reply.ignored.to_be_bytes());
    let grants = reply.grants();
    out.extend_reserved(&[grants.len() as u8]);
    put_grants(version, grants, out);
    let ends = reply.ends();
    out.extend_reserved(&[ends.len() as u8]);
    put_ends(ends, out);
}

// What a Heartbeat gives, written.
#[tactic(auto, unfolding(crate::specs::Spelling::beat))]
pub(crate) fn put_beat(reply: &HeartbeatReply, out: &mut Out)
    requires { 10 ≤ out.old.spare }
    ensures appends { out.new.items ≡ out.old.items ++ beat reply.now }
    ensures spare { out.new.spare + 10 ≡ out.old.spare }
    ensures len { length (beat reply.now) ≡ 10 }
    ensures fits { FitsBeat reply.now }
{
    out.extend_reserved(&reply.response.to_be_bytes());
    out.extend_reserved(&reply.ignored.to_be_bytes());
    out.extend_reserved(&reply.live.to_be_bytes());
}

// Grants, with their number before them.
fn grants_of(
    alloc: Global,
    version: u8,
    bytes: &[u8],
) -> Result<(Vec<Grant<RESOURCES>>, &[u8]), MessageFault>
    ensures { IfOk result (λ x. map (shown_grant (amounts_in version)) x.0.items ≡ x.0.items) }
{
    let (length, mut rest) = byte_of(bytes)?;
    let Ok(mut grants) = Vec::with_capacity(alloc, length as usize) else {
        return Err(MessageFault::NoMemory);
    };
    for _ in 0..length {
        let Ok(read) = grant_of(version, rest) else {
            return Err(MessageFault::Bad);
        };
        let Ok(()) = grants.push(read.0) else {
            return Err(MessageFault::NoMemory);
        };
        rest = read.1;
    }
    Ok((grants, rest))
}

// One grant, read.
fn grant_of(version: u8, bytes: &[u8]) -> Result<(Grant<RESOURCES>, &[u8]), MessageFault>
    ensures { IfOk result (λ x. shown_grant (amounts_in version) x.0 ≡ x.0) }
{
    let (container, rest) = u64_of(bytes)?;
    let (priority, rest) = u32_of(rest)?;
    let (request, rest) = u64_of(rest)?;
    let (node, rest) = u64_of(rest)?;
    let (host, rest) = text_of(rest)?;
    let host = place_from(host)?;
    let (resource, rest) = numbers_in(version, rest)?;
    let resource = vector_of(resource)?;
    let key = Key { priority, request };
    Ok((Grant::new(container, &key, node, &host, &resource), rest))
}

// Ends, with their number before them.
fn ends_of(alloc: Global, bytes: &[u8]) -> Result<(Vec<End>, &[u8]), MessageFault> {
    let (length, mut rest) = byte_of(bytes)?;
    let Ok(mut ends) = Vec::with_capacity(alloc, length as usize) else {
        return Err(MessageFault::NoMemory);
    };
    for _ in 0..length {
        let Ok(read) = end_of(rest) else {
            return Err(MessageFault::Bad);
        };
        let Ok(()) = ends.push(read.0) else {
            return Err(MessageFault::NoMemory);
        };
        rest = read.1;
    }
    Ok((ends, rest))
}

// One end, read.
fn end_of(bytes: &[u8]) -> Result<(End, &[u8]), MessageFault> {
    let (container, rest) = u64_of(bytes)?;
    let (cause, rest) = byte_of(rest)?;
    let cause = match cause {
        1 => Cause::Released,
        2 => Cause::EndedOnNode,
        3 => Cause::NodeLost,
        _ => return Err(MessageFault::Bad),
    };
    Ok((End { container, cause }, rest))
}

// What an Allocate gives, read.
pub(crate) fn allocated(
    alloc: Global,
    version: u8,
    bytes: &[u8],
) -> Result<OwnedReply<RESOURCES>, MessageFault>
    ensures { IfOk result (λ reply. IsReadAs version 3 reply) }
{
    let (response, rest) = u32_of(bytes)?;
    let (ignored, rest) = u16_of(rest)?;
    let (grants, rest) = grants_of(alloc, version, rest)?;
    let (ends, _) = ends_of(alloc, rest)?;
    if grants.len() > NEWS_MAX || ends.len() > NEWS_MAX {
        return Err(MessageFault::Bad);
    }
    Ok(ReplyWith::Allocate {
        reply: AllocateReply {
            response,
            ignored,
            grants,
            ends,
        },
    })
}

// What a Heartbeat gives, read.
pub(crate) fn beaten(bytes: &[u8]) -> Result<OwnedReply<RESOURCES>, MessageFault>
    ensures { (version : ℕ) → IfOk result (λ reply. IsReadAs version 6 reply) }
{
    let (response, rest) = u32_of(bytes)?;
    let (ignored, rest) = u16_of(rest)?;
    let (live, _) = u32_of(rest)?;
    Ok(ReplyWith::Heartbeat {
        reply: HeartbeatReply {
            response,
            ignored,
            live,
        },
    })
}
