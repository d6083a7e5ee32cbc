//! How many things have each key, found by hash (`KeyCounts`).
ghost use Rattle.std.specs.Prelude.{◌≡◌, ◌+◌, ◌-◌, ◌<◌, OnOk, OnErr, []};
ghost use Rattle.cap_base.specs.Limits.{nodes_max};
ghost use Rattle.cap_nodes.specs.Counting.{HasCount, count_in};

use cap_model::NoMemory;
use indexmap::IndexMap;
use std::alloc::Global;
use std::hash::Hash;
use std::marker::Model;

/// How many things have each key, of the keys that something has.
#[derive(Drop)]
pub(crate) struct KeyCounts<Q: Copy + Hash + Eq> {
    counts: IndexMap<Q, u32>,
}

impl<Q: Copy + Hash + Eq> Model for KeyCounts<Q> {
    ghost use Rattle.std.specs.Prelude.{ℕ, List};

    ghost Value = { List (Q × ℕ) };

    ghost view = { λ c. c.counts.entries };
}

impl<Q: Copy + Hash + Eq> KeyCounts<Q> {
    /// Nothing has any key. It takes no memory.
    pub(crate) fn new(alloc: Global) -> KeyCounts<Q>
        ensures { result ≡ [] }
    {
        KeyCounts {
            counts: IndexMap::new(alloc),
        }
    }

    /// How many things have the key.
    pub(crate) fn get(&self, key: &Q) -> u32
        ensures { result ≡ count_in Q.eq self.now key.now }
    {
        match self.counts.get(key) {
            Some(count) => *count,
            None => 0,
        }
    }

    /// Sets how many things have the key. `NoMemory` changes nothing, and comes only where none had it.
    pub(crate) fn set(&mut self, key: &Q, count: u32) -> Result<(), NoMemory>
        ensures ok { OnOk result (HasCount Q.eq key.now count self.old self.new) }
        ensures err { OnErr result (self.new ≡ self.old) }
        ensures absent { OnErr result (count_in Q.eq self.old key.now ≡ 0) }
    {
        if count == 0 {
            self.counts.swap_remove(key);
            return Ok(());
        }
        match self.counts.insert(*key, count) {
            Ok(_) => Ok(()),
            Err(_) => Err(NoMemory),
        }
    }

    /// One more thing has the key. `NoMemory` changes nothing.
    pub(crate) fn more(&mut self, key: &Q) -> Result<(), NoMemory>
        requires { count_in Q.eq self.old key.now < nodes_max }
        ensures ok { OnOk result
            (HasCount Q.eq key.now (count_in Q.eq self.old key.now + 1) self.old self.new) }
        ensures err { OnErr result (self.new ≡ self.old) }
    {
        let count = self.get(key);
        self.set(key, count + 1)
    }

    /// One thing less has the key.
    pub(crate) fn fewer(&mut self, key: &Q)
        requires { 0 < count_in Q.eq self.old key.now }
        ensures { HasCount Q.eq key.now (count_in Q.eq self.old key.now - 1) self.old self.new }
    {
        let count = self.get(key);
        let Ok(()) = self.set(key, count - 1) else {
            unreachable!()
        };
    }
}
