//! Requests and replies of each kind in words (`put_request`, `put_answer`).

use crate::names::{put_amounts, put_count, put_number, put_refusal, put_text};
use crate::parts::{
    put_allocated, put_asks, put_beat, put_cluster, put_lines, put_numbers, put_queue, put_range,
    put_turn,
};
use cap_base::RESOURCES;
use cap_grammar::{Answer, Head, kind};
use cap_model::{OwnedReply, ReplyWith, Request};
use std::alloc::AllocError;

/// The name of a request's kind.
fn kind_name(kind: u8) -> &'static str {
    match kind {
        1 => "Submit",
        2 => "RegisterMaster",
        3 => "Allocate",
        4 => "FinishMaster",
        5 => "RegisterNode",
        6 => "Heartbeat",
        7 => "NodeGone",
        8 => "QueueInfo",
        9 => "SetQueueState",
        10 => "ClusterInfo",
        11 => "Refresh",
        _ => "request",
    }
}

/// The kind and the call id of a message, and its version if that isn't 1.
fn put_head(words: &mut String, kind: u8, head: Head) -> Result<(), AllocError> {
    write!(words, "{} {}", kind_name(kind), head.call_id)?;
    if head.version == 1 {
        return Ok(());
    }
    write!(words, " (version {})", head.version)
}

/// A request in words: its kind, its head and what it says.
pub(crate) fn put_request(
    words: &mut String,
    head: Head,
    request: &Request<RESOURCES>,
) -> Result<(), AllocError> {
    put_head(words, kind(request), head)?;
    match request {
        Request::Submit { path, user } => {
            put_text(words, ": queue", path.as_bytes())?;
            put_text(words, ", user", user.as_bytes())
        }
        Request::RegisterMaster { app } | Request::FinishMaster { app } => {
            put_number(words, ": application", *app)
        }
        Request::Allocate {
            app,
            response,
            asks,
            releases,
        } => {
            put_turn(words, ": application", *app, *response)?;
            put_asks(words, head.version, asks.as_slice())?;
            put_numbers(words, ", release", releases.as_slice())
        }
        Request::RegisterNode { host, rack, total } => {
            put_text(words, ": host", host.as_bytes())?;
            put_text(words, ", rack", rack.as_bytes())?;
            put_amounts(words, head.version, ", ", total)
        }
        Request::Heartbeat {
            node,
            response,
            ended,
        } => {
            put_turn(words, ": node", *node, *response)?;
            put_numbers(words, ", ended", ended.as_slice())
        }
        Request::NodeGone { node } => put_number(words, ": node", *node),
        Request::QueueInfo { path } => put_text(words, ": queue", path.as_bytes()),
        Request::SetQueueState { path, running } => {
            put_text(words, ": queue", path.as_bytes())?;
            words.push_str(if *running { ", RUNNING" } else { ", STOPPED" })
        }
        Request::ClusterInfo => Ok(()),
        Request::Refresh { text } => put_lines(words, text.as_slice()),
    }
}

/// An answer in words: the kind and the head of its request, and what it says.
pub(crate) fn put_answer(words: &mut String, answer: &Answer) -> Result<(), AllocError> {
    match answer {
        Answer::Reply { head, kind, reply } => {
            put_head(words, *kind, *head)?;
            words.push_str(": ")?;
            put_reply(words, head.version, reply)
        }
        Answer::Fault(status) => {
            let why = match *status {
                40 => "no frame has this length, and the connection ends",
                41 => "the payload is no request",
                _ => "unknown",
            };
            write!(words, "fault {status}: {why}")
        }
    }
}

/// What a reply says in this version.
fn put_reply(
    words: &mut String,
    version: u8,
    reply: &OwnedReply<RESOURCES>,
) -> Result<(), AllocError> {
    match reply {
        ReplyWith::Refused(refusal) => put_refusal(words, *refusal),
        ReplyWith::Submit { app } => write!(words, "application {app}"),
        ReplyWith::RegisterMaster { minimum, maximum } => {
            put_range(words, version, minimum, maximum)
        }
        ReplyWith::Allocate { reply } => put_allocated(words, version, reply),
        ReplyWith::FinishMaster { ended } | ReplyWith::NodeGone { ended } => {
            put_count(words, "", u64::from(*ended), "container")?;
            words.push_str(" ended")
        }
        ReplyWith::RegisterNode { node } => write!(words, "node {node}"),
        ReplyWith::Heartbeat { reply } => put_beat(words, reply),
        ReplyWith::QueueInfo { report } => put_queue(words, version, report),
        ReplyWith::SetQueueState | ReplyWith::Refresh => words.push_str("done"),
        ReplyWith::ClusterInfo { report } => put_cluster(words, version, report),
    }
}
