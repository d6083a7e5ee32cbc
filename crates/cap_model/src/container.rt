//! Live containers (`Container`), and the room that nodes keep for asks (`Reservation`).
ghost use Rattle.std.specs.Prelude.{◌≡◌};
ghost use Rattle.cap_vector.specs.Vector.{IsResource};

use crate::ask::Key;
use cap_vector::Resource;
use std::marker::Model;

/// A live container.
#[derive(Clone, Copy)]
pub struct Container<const K: usize> {
    /// Its number.
    pub number: u64,
    /// The number of its application.
    pub app: u64,
    /// The key of the ask that it was granted for.
    pub key: Key,
    /// The number of its node.
    pub node: u64,
    /// What it holds there, in MiB, vcores and GPUs.
    pub resource: Resource<K>,
}

impl<const K: usize> Model for Container<K> {
    ghost use Rattle.cap_model.specs.Flat.{Container as Row};

    ghost Value = { Row };

    ghost view = { λ c. record {
      number = c.number;
      app = c.app;
      key = c.key;
      node = c.node;
      resource = c.resource;
    } };

    ghost inverse = { λ c. record {
      number = c.number;
      app = c.app;
      key = c.key;
      node = c.node;
      resource = c.resource;
    } };
}

impl<const K: usize> Container<K> {
    /// Its number.
    pub fn number(&self) -> u64
        ensures { result ≡ self.now.number }
    {
        self.number
    }

    /// The number of its application.
    pub fn app(&self) -> u64
        ensures { result ≡ self.now.app }
    {
        self.app
    }

    /// The key of the ask that it was granted for.
    pub fn key(&self) -> Key
        ensures { result ≡ self.now.key }
    {
        self.key
    }

    /// The number of its node.
    pub fn node(&self) -> u64
        ensures { result ≡ self.now.node }
    {
        self.node
    }

    /// What it holds, in MiB, vcores and GPUs.
    pub fn resource(&self) -> Resource<K>
        ensures value { result ≡ self.now.resource }
        ensures vector { IsResource K self.now.resource }
    {
        self.resource.copied()
    }
}

/// Room that a node keeps for an ask that does not fit there at present.
#[derive(Clone, Copy)]
pub struct Reservation<const K: usize> {
    /// The number of the application.
    pub app: u64,
    /// The key of its ask.
    pub key: Key,
    /// The number of the node.
    pub node: u64,
    /// What is kept, in MiB, vcores and GPUs.
    pub resource: Resource<K>,
}

impl<const K: usize> Model for Reservation<K> {
    ghost use Rattle.cap_model.specs.Flat.{Reservation as Row};

    ghost Value = { Row };

    ghost view = { λ r. record { app = r.app; key = r.key; node = r.node; resource = r.resource } };

    ghost inverse = { λ r. record {
      app = r.app;
      key = r.key;
      node = r.node;
      resource = r.resource;
    } };
}

impl<const K: usize> Reservation<K> {
    /// The number of its application.
    pub fn app(&self) -> u64
        ensures { result ≡ self.now.app }
    {
        self.app
    }

    /// The key of the ask that it is for.
    pub fn key(&self) -> Key
        ensures { result ≡ self.now.key }
    {
        self.key
    }

    /// The number of its node.
    pub fn node(&self) -> u64
        ensures { result ≡ self.now.node }
    {
        self.node
    }

    /// What is kept, in MiB, vcores and GPUs.
    pub fn resource(&self) -> Resource<K>
        ensures value { result ≡ self.now.resource }
        ensures vector { IsResource K self.now.resource }
    {
        self.resource.copied()
    }
}
