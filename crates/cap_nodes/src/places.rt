//! The hosts and the racks that present nodes have (`Places`).
ghost use Rattle.std.specs.Prelude.{◌≡◌, ◌<◌, ◌∷◌, ◌||◌, [], nat_lt, bytes_eq, OnOk, OnErr};
ghost use Rattle.cap_base.specs.Limits.{nodes_max};
ghost use Rattle.cap_base.specs.Texts.{star};
ghost use Rattle.cap_nodes.specs.Counting.{count_in};
ghost use Rattle.cap_nodes.specs.Places.{AreBothTexts, HasNodeLess, HasNodeMore, KeepsPlaces};

use crate::key_counts::KeyCounts;
use cap_model::{NoMemory, ShortText};
use std::alloc::Global;

/// How many present nodes have each host and each rack, found by hash.
#[derive(Drop)]
pub(crate) struct Places {
    hosts: KeyCounts<ShortText>,
    racks: KeyCounts<ShortText>,
}

impl Places {
    /// No host and no rack. It takes no memory.
    pub(crate) fn new(alloc: Global) -> Places
        ensures { result ≡ record { hosts = []; racks = [] } }
    {
        Places {
            hosts: KeyCounts::new(alloc),
            racks: KeyCounts::new(alloc),
        }
    }

    /// Whether a node has the host.
    pub(crate) fn has_host(&self, host: &ShortText) -> bool
        ensures { result ≡ nat_lt 0 (count_in bytes_eq self.now.hosts host.now) }
    {
        self.hosts.get(host) > 0
    }

    /// Whether a place is anywhere (`*`), or a host or a rack that a node has.
    pub(crate) fn has(&self, place: &ShortText) -> bool
        ensures { result ≡ (bytes_eq place.now (star ∷ [])
            || nat_lt 0 (count_in bytes_eq self.now.hosts place.now)
            || nat_lt 0 (count_in bytes_eq self.now.racks place.now)) }
    {
        place.as_bytes() == b"*".as_slice()
            || self.hosts.get(place) > 0
            || self.racks.get(place) > 0
    }

    /// One more node has this host and this rack. `NoMemory` leaves as many nodes for each as before.
    pub(crate) fn add(&mut self, host: &ShortText, rack: &ShortText) -> Result<(), NoMemory>
        requires hosts { count_in bytes_eq self.old.hosts host.now < nodes_max }
        requires racks { count_in bytes_eq self.old.racks rack.now < nodes_max }
        ensures ok { OnOk result (HasNodeMore host.now rack.now self.old self.new) }
        ensures err { OnErr result (KeepsPlaces self.old self.new) }
        ensures texts { AreBothTexts host.now rack.now }
    {
        let _ = host.as_bytes();
        let _ = rack.as_bytes();
        match self.hosts.more(host) {
            Ok(()) => {}
            Err(_) => return Err(NoMemory),
        }
        match self.racks.more(rack) {
            Ok(()) => Ok(()),
            Err(_) => {
                self.hosts.fewer(host);
                Err(NoMemory)
            }
        }
    }

    /// One node less has this host and this rack.
    pub(crate) fn remove(&mut self, host: &ShortText, rack: &ShortText)
        requires hosts { 0 < count_in bytes_eq self.old.hosts host.now }
        requires racks { 0 < count_in bytes_eq self.old.racks rack.now }
        ensures places { HasNodeLess host.now rack.now self.old self.new }
        ensures texts { AreBothTexts host.now rack.now }
    {
        let _ = host.as_bytes();
        let _ = rack.as_bytes();
        self.hosts.fewer(host);
        self.racks.fewer(rack);
    }
}
