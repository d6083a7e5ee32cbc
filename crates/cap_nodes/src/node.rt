//! One node: its host, rack and total, and the reply to its last heartbeat (`Node`).
ghost use Rattle.std.specs.Prelude.{◌≡◌, ◌<◌, Some, None, if◌then◌else◌};
ghost use Rattle.cap_vector.specs.Vector.{IsResource};
ghost use Rattle.cap_model.specs.ResponseIds.{is_repeated, is_bad_id};
ghost use Rattle.cap_model.specs.Heartbeat.{after_beat};
ghost use Rattle.cap_model.specs.RegisterNode.{new_node};

use cap_model::{HeartbeatReply, ShortText, is_bad, next_response, repeats};
use cap_vector::Resource;
use std::marker::Model;

/// A node that is present. Contracts see it as its row in the flat cluster.
#[derive(Debug, Drop)]
pub struct Node<const K: usize> {
    number: u64,
    host: ShortText,
    rack: ShortText,
    total: Resource<K>,
    response: u32,
    kept: Option<HeartbeatReply>,
}

impl<const K: usize> Model for Node<K> {
    ghost use Rattle.std.specs.Prelude.{◌<◌};
    ghost use Rattle.cap_model.specs.Flat.{ClusterNode};
    ghost use Rattle.cap_vector.specs.Vector.{IsResource};
    ghost use Rattle.cap_base.specs.Limits.{response_end};

    ghost Value = { ClusterNode };

    ghost view = { λ n. record {
      number = n.number;
      host = n.host;
      rack = n.rack;
      total = n.total;
      response = n.response;
      kept = n.kept;
    } };

    ghost invariant = { λ n. n.response < response_end };
}

impl<const K: usize> Node<K> {
    /// A node of this number, host, rack and total, in MiB, vcores and GPUs, that was registered just now.
    pub(crate) fn new(
        number: u64,
        host: &ShortText,
        rack: &ShortText,
        total: &Resource<K>,
    ) -> Node<K>
        ensures { result ≡ new_node number host.now rack.now total.now }
    {
        Node {
            number,
            host: *host,
            rack: *rack,
            total: *total,
            response: 0,
            kept: None,
        }
    }

    /// A node that is none.
    pub(crate) fn blank() -> Node<K> {
        Node {
            number: 0,
            host: ShortText::any(),
            rack: ShortText::any(),
            total: Resource::zero(),
            response: 0,
            kept: None,
        }
    }

    /// Its number.
    pub fn number(&self) -> u64
        ensures { result ≡ self.now.number }
    {
        self.number
    }

    /// Its host.
    pub fn host(&self) -> &ShortText
        ensures { result.now ≡ self.now.host }
    {
        &self.host
    }

    /// Its rack.
    pub fn rack(&self) -> &ShortText
        ensures { result.now ≡ self.now.rack }
    {
        &self.rack
    }

    /// What it has in all, in MiB, vcores and GPUs.
    pub fn total(&self) -> Resource<K>
        ensures value { result ≡ self.now.total }
        ensures vector { IsResource K self.now.total }
    {
        self.total.copied()
    }

    /// The response id that answered the last heartbeat, and 0 before the first.
    pub fn response(&self) -> u32
        ensures { result ≡ self.now.response }
    {
        self.response
    }

    /// The reply that is kept, where a heartbeat of this response id repeats the last processed one; else none.
    pub fn repeated(&self, id: u32) -> Option<HeartbeatReply>
        ensures { result ≡
            (if is_repeated self.now.response self.now.kept id then self.now.kept else None) }
    {
        if repeats(self.response, self.kept.is_some(), id) {
            self.kept
        } else {
            None
        }
    }

    /// Whether a heartbeat of this response id is neither the next one nor a repetition of the last.
    pub fn is_bad_id(&self, id: u32) -> bool
        ensures { result ≡ is_bad_id self.now.response self.now.kept id }
    {
        is_bad(self.response, self.kept.is_some(), id)
    }

    /// One more heartbeat is answered, of which so many ends named no container that was live there, and so many are live there now:
    /// the response id moves on, and the reply, which is the result, is kept.
    pub(crate) fn beat(&mut self, ignored: u16, live: u32) -> HeartbeatReply
        ensures node { self.new ≡ after_beat ignored live self.old }
        ensures kept { self.new.kept ≡ Some result }
    {
        let reply = HeartbeatReply {
            response: next_response(self.response),
            ignored,
            live,
        };
        self.response = reply.response;
        self.kept = Some(reply);
        reply
    }
}
