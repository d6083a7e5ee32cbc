//! What an application is told: granted containers (`Grant`), ended ones (`End`), and why they ended (`Cause`).
ghost use Rattle.std.specs.Prelude.{◌≡◌};
ghost use Rattle.cap_model.specs.News.{cause_number};

use crate::ask::Key;
use cap_base::ShortText;
use cap_vector::Resource;
use std::marker::Model;

/// A granted container as it is reported to its application, with what it has in MiB, vcores and GPUs.
#[derive(Clone, Copy, Debug, PartialEq, Eq)]
pub struct Grant<const K: usize> {
    container: u64,
    key: Key,
    node: u64,
    host: ShortText,
    resource: Resource<K>,
}

impl<const K: usize> Model for Grant<K> {
    ghost use Rattle.cap_model.specs.News.{Grant as Row};

    ghost Value = { Row };

    ghost view = { λ g. record {
      container = g.container;
      key = g.key;
      node = g.node;
      host = g.host;
      resource = g.resource;
    } };

    ghost inverse = { λ g. record {
      container = g.container;
      key = g.key;
      node = g.node;
      host = g.host;
      resource = g.resource;
    } };
}

impl<const K: usize> Grant<K> {
    /// The grant of the container of this number, with this much, on the node of this number and host.
    pub fn new(
        container: u64,
        key: &Key,
        node: u64,
        host: &ShortText,
        resource: &Resource<K>,
    ) -> Grant<K>
        ensures { result ≡ record {
          container = container;
          key = key.now;
          node = node;
          host = host.now;
          resource = resource.now;
        } }
    {
        Grant {
            container,
            key: *key,
            node,
            host: *host,
            resource: *resource,
        }
    }

    /// The number of the container.
    pub fn container(&self) -> u64
        ensures { result ≡ self.now.container }
    {
        self.container
    }

    /// The key of the ask that it was granted for.
    pub fn key(&self) -> Key
        ensures { result ≡ self.now.key }
    {
        self.key
    }

    /// The number of its node.
    pub fn node(&self) -> u64
        ensures { result ≡ self.now.node }
    {
        self.node
    }

    /// The host of its node.
    pub fn host(&self) -> ShortText
        ensures { result ≡ self.now.host }
    {
        self.host
    }

    /// What it has, in MiB, vcores and GPUs.
    pub fn resource(&self) -> Resource<K>
        ensures { result ≡ self.now.resource }
    {
        self.resource
    }
}

/// Why a container ended.
#[derive(Clone, Copy, Debug, PartialEq, Eq)]
pub enum Cause {
    /// Its application released it.
    Released,
    /// Its node reported that it has ended.
    EndedOnNode,
    /// Its node was declared lost.
    NodeLost,
}

impl Cause {
    /// The number of the cause in messages.
    pub fn number(self) -> u8
        ensures { result ≡ cause_number self }
    {
        match self {
            Cause::Released => 1,
            Cause::EndedOnNode => 2,
            Cause::NodeLost => 3,
        }
    }
}

/// An ended container as it is reported to its application.
#[derive(Clone, Copy, Debug, PartialEq, Eq)]
pub struct End {
    /// The number of the container.
    pub container: u64,
    /// Why it ended.
    pub cause: Cause,
}
