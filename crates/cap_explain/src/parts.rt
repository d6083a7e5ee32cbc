//! The parts of requests and replies in words: asks, property lines, grants, ends and reports.

use crate::names::{cause_words, put_amounts, put_count, put_key, put_number, put_text, shown};
use cap_base::RESOURCES;
use cap_model::{AllocateReply, Ask, ClusterReport, End, Grant, HeartbeatReply, QueueReport};
use cap_text::split_line;
use cap_vector::Resource;
use std::alloc::AllocError;

/// Who says it, and the response id.
pub(crate) fn put_turn(
    words: &mut String,
    name: &str,
    number: u64,
    response: u32,
) -> Result<(), AllocError> {
    write!(words, "{name} {number}, response {response}")
}

/// The asks of an Allocate.
pub(crate) fn put_asks(
    words: &mut String,
    version: u8,
    asks: &[Ask<RESOURCES>],
) -> Result<(), AllocError> {
    for ask in asks {
        write!(words, ", ask {} x ", ask.count())?;
        put_amounts(words, version, "", &ask.resource())?;
        put_key(words, &ask.key())?;
        put_text(words, " at", ask.place().as_bytes())?;
    }
    Ok(())
}

/// Container numbers, each after the name.
pub(crate) fn put_numbers(
    words: &mut String,
    name: &str,
    numbers: &[u64],
) -> Result<(), AllocError> {
    for number in numbers {
        put_number(words, name, *number)?;
    }
    Ok(())
}

/// How many bytes property lines have, and each line that is not empty, with its number.
pub(crate) fn put_lines(words: &mut String, text: &[u8]) -> Result<(), AllocError> {
    put_count(words, ": ", text.len() as u64, "byte")?;
    let mut number: usize = 0;
    let mut rest = text;
    while !rest.is_empty() {
        let (line, after) = split_line(rest);
        number += 1;
        if !line.is_empty() {
            write!(words, ", line {number} {}", printable(line))?;
        }
        rest = after;
    }
    Ok(())
}

/// The characters of a line, `?` if one of them is not printed.
fn printable(line: &[u8]) -> &str {
    if line.iter().all(|byte| matches!(*byte, b' '..=b'~')) {
        shown(line)
    } else {
        "?"
    }
}

/// The least and the most that a container may have.
pub(crate) fn put_range(
    words: &mut String,
    version: u8,
    minimum: &Resource<RESOURCES>,
    maximum: &Resource<RESOURCES>,
) -> Result<(), AllocError> {
    put_amounts(words, version, "containers from ", minimum)?;
    put_amounts(words, version, " to ", maximum)
}

/// What an Allocate is answered.
pub(crate) fn put_allocated(
    words: &mut String,
    version: u8,
    reply: &AllocateReply<RESOURCES>,
) -> Result<(), AllocError> {
    write!(
        words,
        "response {}, {} ignored",
        reply.response, reply.ignored
    )?;
    put_grants(words, version, &reply.grants)?;
    put_ends(words, &reply.ends)
}

/// What is granted.
fn put_grants(
    words: &mut String,
    version: u8,
    grants: &[Grant<RESOURCES>],
) -> Result<(), AllocError> {
    for grant in grants {
        let (container, node, host) = (grant.container(), grant.node(), grant.host());
        let host = shown(host.as_bytes());
        write!(
            words,
            ", granted container {container} on node {node} ({host}) "
        )?;
        put_amounts(words, version, "", &grant.resource())?;
        put_key(words, &grant.key())?;
    }
    Ok(())
}

/// What has ended.
fn put_ends(words: &mut String, ends: &[End]) -> Result<(), AllocError> {
    for end in ends {
        let (container, cause) = (end.container, cause_words(end.cause));
        write!(words, ", ended container {container} ({cause})")?;
    }
    Ok(())
}

/// What a Heartbeat is answered.
pub(crate) fn put_beat(words: &mut String, reply: &HeartbeatReply) -> Result<(), AllocError> {
    write!(
        words,
        "response {}, {} ignored",
        reply.response, reply.ignored
    )?;
    put_count(words, ", ", u64::from(reply.live), "container")?;
    words.push_str(" live")
}

/// What is shown of a queue.
pub(crate) fn put_queue(
    words: &mut String,
    version: u8,
    report: &QueueReport<RESOURCES>,
) -> Result<(), AllocError> {
    let state = if report.running { "RUNNING" } else { "STOPPED" };
    let place = if report.leaf { "leaf" } else { "parent" };
    write!(words, "{state}, {place}")?;
    put_amounts(words, version, ", capacity ", &report.guaranteed)?;
    match &report.maximum {
        Some(maximum) => put_amounts(words, version, ", maximum ", maximum)?,
        None => words.push_str(", no maximum")?,
    }
    put_amounts(words, version, ", used ", &report.used)?;
    put_count(words, ", ", u64::from(report.apps), "application")
}

/// What is shown of the cluster.
pub(crate) fn put_cluster(
    words: &mut String,
    version: u8,
    report: &ClusterReport<RESOURCES>,
) -> Result<(), AllocError> {
    put_count(words, "", u64::from(report.nodes), "node")?;
    put_count(words, ", ", u64::from(report.apps), "application")?;
    put_count(words, ", ", u64::from(report.containers), "container")?;
    put_amounts(words, version, ", in all ", &report.totals)?;
    put_amounts(words, version, ", used ", &report.used)
}
