//! Containers by number, found by their application and by their node too: the live ones, or the reservations.
ghost use Rattle.std.specs.Prelude.{◌≡◌, ℕ, ◌+◌, ◌<◌, ◌≤◌, [], ◌==◌, ◌&&◌, nat_lt, length, map, find, filter, not, IfOk, OnErr};
ghost use Rattle.std.specs.List.{slice_get};
ghost use Rattle.cap_base.specs.Limits.{live_max, number_end};
ghost use Rattle.cap_base.specs.Members.{IsRising};
ghost use Rattle.cap_nodes.specs.Loads.{push_container, is_kept_for};

use crate::owners::Owners;
use cap_model::{Container, Key, NoMemory};
use cap_vector::Resource;
use std::alloc::Global;
use std::collections::BTreeMap;
use std::marker::Model;

/// Containers in order of number, and the number of the next: the live ones, or those that nodes keep room for. Each application
/// and each node finds its own without the others. The blank container is none: that it lies in the table makes the size of a
/// container known wherever the table is.
#[derive(Drop)]
pub(crate) struct Containers<const K: usize> {
    containers: BTreeMap<u64, Container<K>>,
    of_apps: Owners,
    on_nodes: Owners,
    next: u64,
    blank: Container<K>,
}

impl<const K: usize> Model for Containers<K> {
    ghost use Rattle.std.specs.BTreeMap.{values};
    ghost use Rattle.cap_nodes.specs.Loads.{ContainerTable, IsNumbered, IsOwnerIndex};
    ghost use Rattle.cap_base.specs.Limits.{live_max};

    ghost Value = { ContainerTable };

    ghost view = { λ l. record { containers = values l.containers; next = l.next } };

    ghost invariant = { λ l. IsNumbered (λ c. c.number) live_max l.containers.entries l.next
        × IsOwnerIndex (λ c. c.app) (values l.containers) l.of_apps
        × IsOwnerIndex (λ c. c.node) (values l.containers) l.on_nodes };
}

impl<const K: usize> Containers<K> {
    /// No container; the first will be number 1. It takes no memory.
    pub(crate) fn new(alloc: Global) -> Containers<K>
        ensures { result ≡ record { containers = []; next = 1 } }
    {
        Containers {
            containers: BTreeMap::new(alloc),
            of_apps: Owners::new(alloc),
            on_nodes: Owners::new(alloc),
            next: 1,
            blank: Container {
                number: 0,
                app: 0,
                key: Key {
                    priority: 0,
                    request: 0,
                },
                node: 0,
                resource: Resource::zero(),
            },
        }
    }

    /// The container of this number, none where there is none.
    pub(crate) fn get(&self, number: u64) -> Option<Container<K>>
        ensures { result ≡ find (λ c. c.number == number) self.now.containers }
    {
        self.containers.get(&number).copied()
    }

    /// The numbers rise from 1, and are below the next. This does nothing: it is there for what its clause says.
    pub(crate) fn numbers_rise(&self)
        ensures { IsRising 1 (map (λ c. c.number) self.now.containers) self.now.next }
    {
        let _ = &self.containers;
    }

    /// How many there are.
    pub(crate) fn count(&self) -> usize
        ensures value { result ≡ length self.now.containers }
        ensures few { result ≤ live_max }
    {
        self.containers.len()
    }

    /// The number of the next.
    pub(crate) fn next(&self) -> u64
        ensures { result ≡ self.now.next }
    {
        self.next
    }

    /// One more, under the next number. `NoMemory` changes nothing.
    pub(crate) fn push(
        &mut self,
        app: u64,
        key: &Key,
        node: u64,
        resource: &Resource<K>,
    ) -> Result<u64, NoMemory>
        requires few { length self.old.containers < live_max }
        requires numbered { self.old.next < number_end }
        ensures ok { IfOk result (λ number. (number ≡ self.old.next)
            × (self.new ≡ push_container app key.now node resource.now self.old)) }
        ensures err { OnErr result (self.new ≡ self.old) }
    {
        let number = self.next;
        let container = Container {
            number,
            app,
            key: *key,
            node,
            resource: *resource,
        };
        self.of_apps.insert(app, number)?;
        match self.on_nodes.insert(node, number) {
            Ok(()) => {}
            Err(_) => {
                self.of_apps.remove(app, number);
                return Err(NoMemory);
            }
        }
        match self.containers.insert(number, container) {
            Ok(_) => {}
            Err(_) => {
                self.of_apps.remove(app, number);
                self.on_nodes.remove(node, number);
                return Err(NoMemory);
            }
        }
        self.next = number + 1;
        Ok(number)
    }

    /// The container of this number is taken out. Where there is none, nothing changes.
    pub(crate) fn remove(&mut self, number: u64)
        ensures { self.new ≡ record self.old {
          containers = filter (λ c. not (c.number == number)) self.old.containers;
        } }
    {
        match self.containers.remove(&number) {
            Some(container) => {
                self.of_apps.remove(container.app, number);
                self.on_nodes.remove(container.node, number);
            }
            None => {}
        }
    }

    /// The container of an application with the least number above `after`, none where there is none.
    pub(crate) fn next_of_app(&self, app: u64, after: u64) -> Option<Container<K>>
        ensures { result ≡ find (λ c. c.app == app && nat_lt after c.number) self.now.containers }
    {
        if self.containers.is_empty() {
            return None;
        }
        let Some(number) = self.of_apps.next(app, after) else {
            return None;
        };
        self.containers.get(&number).copied()
    }

    /// The container on a node with the least number above `after`, none where there is none.
    pub(crate) fn next_on_node(&self, node: u64, after: u64) -> Option<Container<K>>
        ensures { result ≡ find (λ c. c.node == node && nat_lt after c.number) self.now.containers }
    {
        let Some(number) = self.on_nodes.next(node, after) else {
            return None;
        };
        self.containers.get(&number).copied()
    }

    /// The container for a key of an application with the least number above `from`, none where there is none. It looks at those of
    /// the application alone.
    pub(crate) fn next_for(&self, app: u64, key: &Key, from: u64) -> Option<Container<K>>
        ensures { result ≡
            find (λ c. is_kept_for app key.now c && nat_lt from c.number) self.now.containers }
    {
        self.numbers_rise();
        let mut after = from;
        while let Some(container) = self.next_of_app(app, after) {
            if container.key().is_same(key) {
                return Some(container);
            }
            after = container.number();
        }
        None
    }

    /// The one for a key of an application that has so many others before it, none where there are no more than so many. It looks
    /// at those of the application alone.
    pub(crate) fn nth_for(&self, app: u64, key: &Key, before: u32) -> Option<Container<K>>
        ensures { result ≡ slice_get (filter (is_kept_for app key.now) self.now.containers) before }
    {
        self.numbers_rise();
        let mut left = before;
        let mut after = 0;
        while let Some(container) = self.next_for(app, key, after) {
            if left == 0 {
                return Some(container);
            }
            after = container.number();
            left -= 1;
        }
        None
    }
}
