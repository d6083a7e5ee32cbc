//! The numbers and the request of a line (`next_number`, `proposal_in`, `call_in`). Whatever a line spells is read so. More may be read: it
//! is written again and compared, since a line counts only where it is the one spelling of its event.
ghost use Rattle.std.specs.Prelude.{◌≡◌, ℕ, ◌<◌, ◌≤◌, ◌^◌, ◌++◌, ◌∷◌, List, Some, IfOk, IsSomeAnd, decimal, length, true};
ghost use Rattle.hex.specs.Hex.{IsBytes, encode_lower};
ghost use Rattle.hex.specs.declared.error.FromHexError.TheVariants.{OutOfMemory as no_room};
ghost use Rattle.cap_text.specs.Pieces.{lacks};
ghost use Rattle.cap_base.specs.Limits.{resources};
ghost use Rattle.cap_model.specs.Admission.{NodeProposal};
ghost use Rattle.cap_model.specs.declared.request.Request.{Request};
ghost use Rattle.cap_grammar.specs.Spelling.{FitsRequest, IsRequest, request_bytes};
ghost use Rattle.cap_journal.specs.Lines.{blanked, head};
ghost use Rattle.cap_audit.specs.declared.stop.Stop.TheVariants.{NoMemory as out_of_memory};
ghost use Rattle.cap_audit.specs.Onward.{Finds};
ghost use Rattle.cap_audit.specs.Reading.{AreNumbers, IsCallText, IsProposalOf, IsWord};

use crate::stop::{Stop, Why};
use cap_base::RESOURCES;
use cap_journal::HEAD;
use cap_messages::{MessageFault, Request, read_request};
use cap_model::{Key, Proposal, ProposalKind};
use cap_text::split_once;
use cap_vector::Resource;
use hex::FromHexError;
use std::alloc::Global;

/// The number that decimal digits spell, where it fits.
fn number_of(digits: &[u8]) -> Option<u64>
    ensures { (n : ℕ) → n < 2 ^ 64 → digits.now ≡ decimal n → result ≡ Some n }
{
    let Ok(digits) = str::from_utf8(digits) else {
        return None;
    };
    match digits.parse::<u64>() {
        Ok(number) => Some(number),
        Err(_) => None,
    }
}

/// The bytes before the first blank; all of them where there is none.
fn word_of(bytes: &[u8]) -> &[u8]
    ensures word { (front rest : List ℕ) → IsWord bytes.now front rest → result.now ≡ front }
    ensures length { length result.now ≤ length bytes.now }
{
    match split_once(bytes, b' ') {
        Some((front, _)) => front,
        None => bytes,
    }
}

/// The number behind a blank, and what follows it.
pub(crate) fn next_number(bytes: &[u8]) -> Option<(u64, &[u8])>
    ensures { (n : ℕ) (more : List ℕ) → n < 2 ^ 64 → bytes.now ≡ blanked (n ∷ more)
        → IsSomeAnd result (λ x. (x.0 ≡ n) × (x.1.now ≡ blanked more)) }
{
    let Some(rest) = bytes.strip_prefix(b" ") else {
        return None;
    };
    let word = word_of(rest);
    let Some(number) = number_of(word) else {
        return None;
    };
    Some((number, &rest[word.len()..]))
}

/// Reads as many numbers, with a blank before each; whether that many stand there.
fn fill_numbers(bytes: &[u8], numbers: &mut [u64]) -> bool
    ensures { (all : List ℕ) → AreNumbers all → length all ≡ length numbers.old
        → bytes.now ≡ blanked all → (result ≡ true) × (numbers.new ≡ all) }
{
    let mut rest = bytes;
    for i in 0..numbers.len() {
        let Some((number, after)) = next_number(rest) else {
            return false;
        };
        numbers[i] = number;
        rest = after;
    }
    true
}

/// The proposal of these numbers: application, priority, request id and node, and MiB, vcores and GPUs.
fn proposal_of(kind: ProposalKind, numbers: [u64; 7]) -> Option<Proposal<RESOURCES>>
    ensures { (p : NodeProposal) → IsProposalOf kind numbers p → result ≡ Some p }
{
    let [app, priority, request, node, memory, vcores, gpus] = numbers;
    if priority > u64::from(u32::MAX) {
        return None;
    }
    let Some(resource) = Resource::new([memory, vcores, gpus]) else {
        return None;
    };
    Some(Proposal {
        kind,
        app,
        key: Key {
            priority: priority as u32,
            request,
        },
        node,
        resource,
    })
}

/// The proposal that numbers spell, with a blank before each.
pub(crate) fn proposal_in(kind: ProposalKind, bytes: &[u8]) -> Option<Proposal<RESOURCES>>
    ensures { (p : NodeProposal) (numbers : List ℕ) → IsProposalOf kind numbers p
        → bytes.now ≡ blanked numbers → result ≡ Some p }
{
    let mut numbers = [0; 7];
    if !fill_numbers(bytes, &mut numbers) {
        return None;
    }
    proposal_of(kind, numbers)
}

/// The connection's number and the request of a call, by what follows its first word.
pub(crate) fn call_in(alloc: Global, bytes: &[u8]) -> Result<(u32, Request<RESOURCES>), Stop>
    ensures fits { IfOk result (λ call. (call.0 < 2 ^ 32) × FitsRequest 2 call.1) }
    ensures found { (by : ℕ) (request : Request resources) → IsCallText bytes.now by request
        → Finds result (λ call. (call.0 ≡ by) × (call.1 ≡ request)) }
{
    let Some((by, digits)) = call_parts(bytes) else {
        return Err(Stop::False(Why::NoLine));
    };
    match request_in(alloc, digits) {
        Ok(request) => Ok((by, request)),
        Err(stop) => Err(stop),
    }
}

/// The number of the connection of a call, and the hexadecimal digits of its request.
fn call_parts(bytes: &[u8]) -> Option<(u32, &[u8])>
    ensures { (by : ℕ) (digits reply : List ℕ) → by < 2 ^ 32 → lacks 32 digits ≡ true
        → bytes.now ≡ decimal by ++ 32 ∷ digits ++ 32 ∷ reply
        → IsSomeAnd result (λ x. (x.0 ≡ by) × (x.1.now ≡ digits)) }
{
    let Some((number, rest)) = split_once(bytes, b' ') else {
        return None;
    };
    let Some((digits, _)) = split_once(rest, b' ') else {
        return None;
    };
    let Some(by) = connection_of(number) else {
        return None;
    };
    Some((by, digits))
}

/// The number of a connection that decimal digits spell, where it fits.
fn connection_of(digits: &[u8]) -> Option<u32>
    ensures { (n : ℕ) → n < 2 ^ 32 → digits.now ≡ decimal n → result ≡ Some n }
{
    match number_of(digits) {
        Some(number) if number <= u64::from(u32::MAX) => Some(number as u32),
        _ => None,
    }
}

/// The request that hexadecimal digits write.
fn request_in(alloc: Global, digits: &[u8]) -> Result<Request<RESOURCES>, Stop>
    ensures fits { IfOk result (λ request. FitsRequest 2 request) }
    ensures found { (request : Request resources) → FitsRequest 2 request
        → digits.now ≡ encode_lower (request_bytes head request)
        → Finds result (λ found. found ≡ request) }
{
    match decoded(alloc, digits) {
        Ok(payload) => request_of(alloc, &payload),
        Err(stop) => Err(stop),
    }
}

/// The bytes that hexadecimal digits write.
fn decoded(alloc: Global, digits: &[u8]) -> Result<Vec<u8>, Stop>
    ensures { (bytes : List ℕ) → IsBytes bytes → digits.now ≡ encode_lower bytes
        → Finds result (λ found. found.items ≡ bytes) }
{
    let payload = match hex::decode(alloc, digits) {
        Ok(payload) => payload,
        Err(fault) => return Err(stop_of_digits(fault)),
    };
    Ok(payload)
}

/// What digits that write no bytes stop an audit with.
fn stop_of_digits(fault: FromHexError) -> Stop
    ensures { fault ≡ no_room → result ≡ out_of_memory }
{
    match fault {
        FromHexError::OutOfMemory => Stop::NoMemory,
        _ => Stop::False(Why::NoLine),
    }
}

/// The request of a payload under the head of all messages in an audit file.
fn request_of(alloc: Global, payload: &[u8]) -> Result<Request<RESOURCES>, Stop>
    ensures fits { IfOk result (λ request. FitsRequest 2 request) }
    ensures found { (request : Request resources) → IsRequest payload.now head request
        → Finds result (λ found. found ≡ request) }
{
    let (found, request) = match read_request(alloc, payload) {
        Ok(read) => read,
        Err(MessageFault::NoMemory) => return Err(Stop::NoMemory),
        Err(MessageFault::Bad) => return Err(Stop::False(Why::NoLine)),
    };
    if found.version != HEAD.version || found.call_id != HEAD.call_id {
        return Err(Stop::False(Why::NoLine));
    }
    Ok(request)
}
