//! A node with what its live containers hold, how many they are, and its reservation (`Load`).
ghost use Rattle.std.specs.Prelude.{◌≡◌, Some};
ghost use Rattle.cap_vector.specs.Vector.{Fits, less};
ghost use Rattle.cap_nodes.specs.Changes.{Counts, MayChange, changed_by};
ghost use Rattle.cap_nodes.specs.Loads.{beaten_load};

use crate::change::Change;
use crate::node::Node;
use cap_model::{HeartbeatReply, Reservation};
use cap_vector::{Resource, checked_add, minus};
use std::marker::Model;

/// A node that is present, with what its live containers hold, how many they are, and the reservation that it holds.
#[derive(Drop)]
pub struct Load<const K: usize> {
    pub(crate) node: Node<K>,
    pub(crate) held: Resource<K>,
    pub(crate) live: u32,
    pub(crate) reservation: Option<Reservation<K>>,
}

impl<const K: usize> Model for Load<K> {
    ghost use Rattle.cap_nodes.specs.Loads.{Load as Row};

    ghost Value = { Row };

    ghost view = { λ p. record {
      node = p.node;
      held = p.held;
      live = p.live;
      reservation = p.reservation;
    } };
}

impl<const K: usize> Load<K> {
    /// The load of no node.
    pub(crate) fn blank() -> Load<K> {
        Load {
            node: Node::blank(),
            held: Resource::zero(),
            live: 0,
            reservation: None,
        }
    }

    /// The node.
    pub fn node(&self) -> &Node<K>
        ensures { result.now ≡ self.now.node }
    {
        &self.node
    }

    /// How many containers are live on it.
    pub(crate) fn live(&self) -> u32
        ensures { result ≡ self.now.live }
    {
        self.live
    }

    /// The reservation that it holds, the oldest where there are several for it.
    pub fn reservation(&self) -> Option<Reservation<K>>
        ensures { result ≡ self.now.reservation }
    {
        self.reservation
    }

    /// What it has left, in MiB, vcores and GPUs.
    pub fn free(&self) -> Resource<K>
        requires { Fits self.now.held self.now.node.total }
        ensures { result ≡ less self.now.node.total self.now.held }
    {
        minus(&self.node.total(), &self.held)
    }

    /// Changes it, where it has room for a container that becomes live, and holds one that is live no longer.
    pub(crate) fn change(&mut self, change: Change<'_, K>)
        requires { MayChange change self.old }
        ensures load { self.new ≡ changed_by change.entry self.old }
        ensures count { Counts change.entry self.old }
    {
        match change {
            Change::Hold(resource) => {
                let Some(held) = checked_add(&self.held, resource) else {
                    unreachable!()
                };
                self.held = held;
                self.live += 1;
            }
            Change::Lift(resource) => {
                self.held = minus(&self.held, resource);
                self.live -= 1;
            }
            Change::Reserve(reservation) => {
                if self.reservation.is_none() {
                    self.reservation = Some(*reservation);
                }
            }
            Change::Unreserve => self.reservation = None,
        }
    }

    /// One more heartbeat of it is answered, of which so many ends named no container that was live on it. The result is the reply,
    /// which is kept.
    pub(crate) fn beat(&mut self, ignored: u16) -> HeartbeatReply
        ensures load { self.new ≡ beaten_load ignored self.old }
        ensures kept { self.new.node.kept ≡ Some result }
    {
        self.node.beat(ignored, self.live)
    }
}
