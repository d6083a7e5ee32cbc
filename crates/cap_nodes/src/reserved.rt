//! The reservations as containers that are not live, and how many there are for each key of an application (`Reserved`).
ghost use Rattle.std.specs.Prelude.{◌≡◌, ◌+◌, ◌<◌, [], ◌==◌, length, filter, not, IfOk, OnErr};
ghost use Rattle.cap_base.specs.Limits.{live_max, number_end};
ghost use Rattle.cap_nodes.specs.Loads.{push_container, is_kept_for};

use crate::app_key::AppKey;
use crate::containers::Containers;
use crate::key_counts::KeyCounts;
use cap_model::{Container, Key, NoMemory};
use cap_vector::Resource;
use std::alloc::Global;
use std::marker::Model;

/// The reservations, each as a container that is not live, whose number is its place in the order of making; and how many there are
/// for each key of an application.
#[derive(Drop)]
pub(crate) struct Reserved<const K: usize> {
    made: Containers<K>,
    counts: KeyCounts<AppKey>,
}

impl<const K: usize> Model for Reserved<K> {
    ghost use Rattle.cap_nodes.specs.Counting.{AreCounted, app_key_of, same_app_key};
    ghost use Rattle.cap_nodes.specs.Loads.{ContainerTable};

    ghost Value = { ContainerTable };

    ghost view = { λ r. r.made };

    ghost invariant = { λ r. AreCounted same_app_key app_key_of r.counts r.made.containers };
}

impl<const K: usize> Reserved<K> {
    /// No reservation. It takes no memory.
    pub(crate) fn new(alloc: Global) -> Reserved<K>
        ensures { result ≡ record { containers = []; next = 1 } }
    {
        Reserved {
            made: Containers::new(alloc),
            counts: KeyCounts::new(alloc),
        }
    }

    /// The reservations, in order of making.
    #[inline(always)]
    pub(crate) fn made(&self) -> &Containers<K>
        ensures { result.now ≡ self.now }
    {
        &self.made
    }

    /// How many there are for a key of an application.
    pub(crate) fn count_for(&self, app: u64, key: &Key) -> u32
        ensures { result ≡ length (filter (is_kept_for app key.now) self.now.containers) }
    {
        if self.made.count() == 0 {
            return 0;
        }
        self.counts.get(&AppKey::new(app, key))
    }

    /// One more, under the next number. `NoMemory` changes nothing.
    pub(crate) fn push(
        &mut self,
        app: u64,
        key: &Key,
        node: u64,
        resource: &Resource<K>,
    ) -> Result<u64, NoMemory>
        requires few { length self.old.containers < live_max }
        requires numbered { self.old.next < number_end }
        ensures ok { IfOk result (λ number. (number ≡ self.old.next)
            × (self.new ≡ push_container app key.now node resource.now self.old)) }
        ensures err { OnErr result (self.new ≡ self.old) }
    {
        let app_key = AppKey::new(app, key);
        let count = self.counts.get(&app_key);
        match self.counts.set(&app_key, count + 1) {
            Ok(()) => {}
            Err(_) => return Err(NoMemory),
        }
        match self.made.push(app, key, node, resource) {
            Ok(number) => Ok(number),
            Err(_) => {
                let Ok(()) = self.counts.set(&app_key, count) else {
                    unreachable!()
                };
                Err(NoMemory)
            }
        }
    }

    /// The one of this number is taken out. Where there is none, nothing changes.
    pub(crate) fn remove(&mut self, number: u64)
        ensures { self.new ≡ record self.old {
          containers = filter (λ c. not (c.number == number)) self.old.containers;
        } }
    {
        let Some(container) = self.made.get(number) else {
            return;
        };
        let app_key = AppKey::new(container.app(), &container.key());
        self.made.numbers_rise();
        let count = self.counts.get(&app_key) - 1;
        let Ok(()) = self.counts.set(&app_key, count) else {
            unreachable!()
        };
        self.made.remove(number);
    }
}
