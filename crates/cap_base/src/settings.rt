//! The settings of a cluster as data: its limits (`Config`) and its queues (`QueueRow`).
ghost use Rattle.std.specs.Prelude.{◌≡◌, ◌≤◌, length};
ghost use Rattle.cap_base.specs.Limits.{applications_max, queues_max, resources_max};
ghost use Rattle.cap_base.specs.Listing.{IsListing};

use crate::text::PathText;
use cap_vector::Resource;
use std::marker::Model;

/// A queue of the settings. Contracts see it as the record of its path, capacity, maximum capacity, factor and state.
#[derive(Clone, Copy, Debug)]
pub struct QueueRow<const K: usize> {
    path: PathText,
    guaranteed: Resource<K>,
    maximum: Option<Resource<K>>,
    factor: u64,
    running: bool,
}

impl<const K: usize> Model for QueueRow<K> {
    ghost use Rattle.cap_base.specs.Settings.{QueueRow as Row};

    ghost Value = { Row };

    ghost view = { λ r. record {
      path = r.path;
      guaranteed = r.guaranteed;
      maximum = r.maximum;
      factor = r.factor;
      running = r.running;
    } };

    ghost inverse = { λ r. record {
      path = r.path;
      guaranteed = r.guaranteed;
      maximum = r.maximum;
      factor = r.factor;
      running = r.running;
    } };
}

impl<const K: usize> QueueRow<K> {
    /// A queue with this dotted path, capacity, maximum capacity (none where it may grow without a bound), user limit factor,
    /// and own state.
    pub fn new(
        path: PathText,
        guaranteed: Resource<K>,
        maximum: Option<Resource<K>>,
        factor: u64,
        running: bool,
    ) -> QueueRow<K>
        ensures { result ≡ record {
          path = path;
          guaranteed = guaranteed.entry;
          maximum = maximum.entry;
          factor = factor;
          running = running;
        } }
    {
        QueueRow {
            path,
            guaranteed,
            maximum,
            factor,
            running,
        }
    }

    /// Its dotted path from `root`.
    pub fn path(&self) -> PathText
        ensures { result ≡ self.now.path }
    {
        self.path
    }

    /// What it is guaranteed, in MiB, vcores and GPUs: `yarn.scheduler.capacity.<queue-path>.capacity`.
    pub fn guaranteed(&self) -> Resource<K>
        ensures { result ≡ self.now.guaranteed }
    {
        self.guaranteed
    }

    /// Up to where it may grow, in MiB, vcores and GPUs: its own `yarn.scheduler.capacity.<queue-path>.maximum-capacity`, or
    /// else that of the nearest queue above that has one. None where none has.
    pub fn maximum(&self) -> Option<Resource<K>>
        ensures { result ≡ self.now.maximum }
    {
        self.maximum
    }

    /// Its `yarn.scheduler.capacity.<queue-path>.user-limit-factor`.
    pub fn factor(&self) -> u64
        ensures { result ≡ self.now.factor }
    {
        self.factor
    }

    /// Whether its own `yarn.scheduler.capacity.<queue-path>.state` is RUNNING.
    pub fn is_running(&self) -> bool
        ensures { result ≡ self.now.running }
    {
        self.running
    }
}

/// The settings of a cluster. Contracts see them as the record of the queues and the limits.
#[derive(Drop)]
pub struct Config<const K: usize> {
    queues: Vec<QueueRow<K>>,
    minimum_allocation: Resource<K>,
    maximum_allocation: Resource<K>,
    application_limit: u64,
}

impl<const K: usize> Model for Config<K> {
    ghost use Rattle.std.specs.Prelude.{◌≤◌, length};
    ghost use Rattle.cap_base.specs.Limits.{applications_max, queues_max, resources_max};
    ghost use Rattle.cap_base.specs.Settings.{Settings};
    ghost use Rattle.cap_base.specs.Listing.{IsListing};

    ghost Value = { Settings };

    ghost view = { λ c. record {
      queues = c.queues.items;
      minimum_allocation = c.minimum_allocation;
      maximum_allocation = c.maximum_allocation;
      application_limit = c.application_limit;
    } };

    ghost invariant = { λ c. (c.application_limit ≤ applications_max)
        × IsListing c.queues.items × (K ≤ resources_max)
        × (length c.queues.items ≤ queues_max) };
}

impl<const K: usize> Config<K> {
    /// The settings with these queues and limits.
    pub fn new(
        queues: Vec<QueueRow<K>>,
        minimum_allocation: Resource<K>,
        maximum_allocation: Resource<K>,
        application_limit: u64,
    ) -> Config<K>
        requires listing { IsListing queues.items }
        requires few { length queues.items ≤ queues_max }
        requires limit { application_limit ≤ applications_max }
        requires resources { K ≤ resources_max }
        ensures { result ≡ record {
          queues = queues.entry.items;
          minimum_allocation = minimum_allocation.entry;
          maximum_allocation = maximum_allocation.entry;
          application_limit = application_limit;
        } }
    {
        Config {
            queues,
            minimum_allocation,
            maximum_allocation,
            application_limit,
        }
    }

    /// The queues: `root`, and each queue before those under it, siblings in the order of their parent's list. They are
    /// a tree of at most 16 levels and 1,024 queues, and each follows its parent or a queue under its parent.
    pub fn queues(&self) -> &[QueueRow<K>]
        ensures rows { result.now ≡ self.now.queues }
        ensures listing { IsListing self.now.queues }
        ensures few { length result.now ≤ queues_max }
    {
        &self.queues
    }

    /// The least that a container may have.
    pub fn minimum_allocation(&self) -> Resource<K>
        ensures { result ≡ self.now.minimum_allocation }
    {
        self.minimum_allocation
    }

    /// The most that a container may have.
    pub fn maximum_allocation(&self) -> Resource<K>
        ensures { result ≡ self.now.maximum_allocation }
    {
        self.maximum_allocation
    }

    /// How many applications may be active at once: `yarn.scheduler.capacity.maximum-applications`.
    pub fn application_limit(&self) -> u64
        ensures value { result ≡ self.now.application_limit }
        ensures few { result ≤ applications_max }
        // There are at most 1,000 kinds of resource.
        ensures resources { K ≤ resources_max }
    {
        self.application_limit
    }
}
