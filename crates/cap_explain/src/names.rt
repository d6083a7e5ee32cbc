//! Words for refusals, causes of an end, texts, numbers, keys and amounts.

use cap_base::RESOURCES;
use cap_base::properties::ConfigFaultKind;
use cap_model::{Cause, Key, Refusal};
use cap_vector::Amounts;
use std::alloc::AllocError;
use std::str;

/// What may be wrong in property lines.
const FAULTS: [ConfigFaultKind; 10] = [
    ConfigFaultKind::BadLine,
    ConfigFaultKind::UnknownKey,
    ConfigFaultKind::Repeated,
    ConfigFaultKind::BadValue,
    ConfigFaultKind::NoSuchQueue,
    ConfigFaultKind::OverParent,
    ConfigFaultKind::GuaranteeOverMaximum,
    ConfigFaultKind::TooManyQueues,
    ConfigFaultKind::TooDeep,
    ConfigFaultKind::NoChild,
];

/// The characters of a text, `?` if they can't be shown.
pub(crate) fn shown(text: &[u8]) -> &str {
    str::from_utf8(text).unwrap_or("?")
}

/// A text after a name, `?` if its characters can't be shown.
pub(crate) fn put_text(words: &mut String, name: &str, text: &[u8]) -> Result<(), AllocError> {
    write!(words, "{name} {}", shown(text))
}

/// A number after a name.
pub(crate) fn put_number(words: &mut String, name: &str, number: u64) -> Result<(), AllocError> {
    write!(words, "{name} {number}")
}

/// A number of things after other words, with the plural's `s` where there isn't one of them.
pub(crate) fn put_count(
    words: &mut String,
    before: &str,
    count: u64,
    name: &str,
) -> Result<(), AllocError> {
    write!(words, "{before}{count} {name}")?;
    if count == 1 {
        return Ok(());
    }
    words.push_str("s")
}

/// The amounts that this version spells, after other words: MiB and vcores, and from version 2 on GPUs.
pub(crate) fn put_amounts<const MAX: u64>(
    words: &mut String,
    version: u8,
    before: &str,
    amounts: &Amounts<RESOURCES, MAX>,
) -> Result<(), AllocError> {
    let [memory, vcores, gpus] = amounts.amounts();
    write!(words, "{before}[{memory} MiB")?;
    put_count(words, ", ", vcores, "vcore")?;
    if version >= 2 {
        put_count(words, ", ", gpus, "GPU")?;
    }
    words.push_str("]")
}

/// The priority of a key, and its allocation request id if that isn't 0.
pub(crate) fn put_key(words: &mut String, key: &Key) -> Result<(), AllocError> {
    write!(words, " priority {}", key.priority)?;
    if key.request == 0 {
        return Ok(());
    }
    write!(words, " request {}", key.request)
}

/// Why a container ended.
pub(crate) fn cause_words(cause: Cause) -> &'static str {
    match cause {
        Cause::Released => "released",
        Cause::EndedOnNode => "on its node",
        Cause::NodeLost => "node lost",
    }
}

/// A refusal: its number, and why.
pub(crate) fn put_refusal(words: &mut String, refusal: Refusal) -> Result<(), AllocError> {
    let (status, why) = (refusal.status(), refusal_words(refusal));
    write!(words, "refused {status}, {why}")?;
    match refusal {
        Refusal::BadSettings { line, number } => put_fault(words, line, number),
        _ => Ok(()),
    }
}

/// The line of a fault of property lines, its number, and what is wrong if a fault has this number.
fn put_fault(words: &mut String, line: u32, number: u8) -> Result<(), AllocError> {
    write!(words, " in line {line}, number {number}")?;
    match FAULTS.iter().find(|kind| kind.number() == number) {
        Some(kind) => write!(words, ": {kind}"),
        None => Ok(()),
    }
}

/// Why a request is refused.
fn refusal_words(refusal: Refusal) -> &'static str {
    match refusal {
        Refusal::UnknownQueue => "no queue has this path",
        Refusal::NotLeaf => "the queue has queues below it",
        Refusal::QueueStopped => "the queue or one above it is STOPPED",
        Refusal::TooManyApplications => "as many applications are active as are allowed",
        Refusal::UnknownApplication => "no active application has this number",
        Refusal::AlreadyRegistered => "the application's master has registered before",
        Refusal::NotRegistered => "the application's master has not registered",
        Refusal::BadResponseId => "the response id is neither the last one nor one to repeat",
        Refusal::AskTooLarge => "an ask is over the maximum allocation",
        Refusal::TooManyAsks => "the application would have asks under more than 256 keys",
        Refusal::UnknownNode => "no present node has this number",
        Refusal::HostTaken => "a present node has this host",
        Refusal::TotalTooLarge => "the nodes would have more than 2^40 of a resource together",
        Refusal::TooManyNodes => "4096 nodes are present",
        Refusal::ZeroResource => "the node has nothing",
        Refusal::NumbersSpent => "all numbers are used",
        Refusal::BadSettings { .. } => "the property lines have a fault",
        Refusal::OtherQueues => "the property lines name other queues than the cluster has",
        Refusal::NoMemory => "an allocation failed",
    }
}
