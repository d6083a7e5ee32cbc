//! Proposals of scheduler threads (`Proposal`), why one is rejected (`Reason`), and what it came to (`Verdict`).
ghost use Rattle.std.specs.Prelude.{◌≡◌};
ghost use Rattle.cap_vector.specs.Vector.{IsResource};
ghost use Rattle.cap_base.specs.Cascade.{earliest};
ghost use Rattle.cap_model.specs.Admission.{is_grant};

use crate::ask::Key;
use crate::event::Event;
use cap_vector::Resource;
use std::marker::Model;

/// What a proposal asks for.
#[derive(Clone, Copy, Debug, PartialEq, Eq)]
pub enum ProposalKind {
    /// A container at once.
    Grant,
    /// Room for one, which the node keeps until it fits.
    Reserve,
}

/// A proposal: a container for an ask of an application on a node, or room for one. It is plain data, of what a scheduler thread
/// saw.
#[derive(Clone, Copy, Debug)]
pub struct Proposal<const K: usize> {
    /// A container, or room for one.
    pub kind: ProposalKind,
    /// The number of the application.
    pub app: u64,
    /// The key of its ask.
    pub key: Key,
    /// The number of the node.
    pub node: u64,
    /// What the container is to have, in MiB, vcores and GPUs.
    pub resource: Resource<K>,
}

impl<const K: usize> Model for Proposal<K> {
    ghost use Rattle.cap_model.specs.Admission.{NodeProposal};

    ghost Value = { NodeProposal };

    ghost view = { λ p. record {
      kind = p.kind;
      app = p.app;
      key = p.key;
      node = p.node;
      resource = p.resource;
    } };

    ghost inverse = { λ p. record {
      kind = p.kind;
      app = p.app;
      key = p.key;
      node = p.node;
      resource = p.resource;
    } };
}

/// Why a proposal is rejected. Of several the first in this order is the answer.
#[derive(Clone, Copy, Debug, PartialEq, Eq)]
pub enum Reason {
    /// No registered application has this number.
    NoApp,
    /// The application has no ask for the key; or it wants no container beyond those that room is reserved for, and the proposal
    /// is no grant on the node that holds a reservation for it.
    NoAsk,
    /// The ask is for another resource.
    OtherAsk,
    /// No node of this number is present.
    NoNode,
    /// The ask's place is neither `*` nor the node's host nor its rack.
    WrongPlace,
    /// The node holds a reservation, and the proposal is no grant for the same application and key.
    ReservedByOther,
    /// A grant does not fit what the node has left.
    NoRoom,
    /// A queue would pass its maximum capacity: the one of least level, where `root` is level 0.
    OverMaximum { level: usize },
    /// The user would pass the user limit of the leaf queue: its user limit factor times its capacity.
    OverUser,
    /// 65,536 containers are live.
    TooManyLive,
    /// A reservation would fit what the node has left, so that it can be granted.
    FitsNow,
    /// A reservation does not fit what the node has in all.
    NeverFits,
    /// The next container number would be 2^62.
    NumbersSpent,
}

/// What a proposal came to.
#[derive(Drop)]
pub enum Verdict<const K: usize> {
    /// It was made: a grant or a reservation.
    Done(Event<K>),
    /// It was rejected, and changed nothing.
    Rejected(Reason),
}

impl<const K: usize> Proposal<K> {
    /// Whether it is a grant, and not a reservation.
    pub fn is_grant(&self) -> bool
        ensures { result ≡ is_grant self.now.kind }
    {
        match self.kind {
            ProposalKind::Grant => true,
            ProposalKind::Reserve => false,
        }
    }

    /// The number of its application.
    pub fn app(&self) -> u64
        ensures { result ≡ self.now.app }
    {
        self.app
    }

    /// The key of its ask.
    pub fn key(&self) -> Key
        ensures { result ≡ self.now.key }
    {
        self.key
    }

    /// The number of its node.
    pub fn node(&self) -> u64
        ensures { result ≡ self.now.node }
    {
        self.node
    }

    /// What the container is to have, in MiB, vcores and GPUs.
    pub fn resource(&self) -> Resource<K>
        ensures value { result ≡ self.now.resource }
        ensures vector { IsResource K self.now.resource }
    {
        self.resource.copied()
    }
}

/// The reason of the first test that holds, none where none does. The tests are in the order of the reasons.
pub fn first_reason(tests: &[(bool, Reason)]) -> Option<Reason>
    ensures { result ≡ earliest tests.now }
{
    for (holds, reason) in tests {
        if *holds {
            return Some(*reason);
        }
    }
    None
}
