//! Which containers an application or a node has, as an ordered set of pairs of numbers (`Owners`).
ghost use Rattle.std.specs.Prelude.{◌≡◌, ℕ, ◌<◌, ◌≤◌, [], IfSome, IfNone, OnOk, OnErr, true, false};
ghost use Rattle.cap_nodes.specs.Loads.{has_pair, HasMore, HasLess};

use cap_model::NoMemory;
use std::alloc::Global;
use std::collections::BTreeSet;
use std::marker::Model;
use std::ops::Bound;

/// Which owner has which containers, in pairs of an owner and the number of a container. An owner is an application, or a node.
#[derive(Drop)]
pub(crate) struct Owners {
    pairs: BTreeSet<(u64, u64)>,
}

impl Model for Owners {
    ghost use Rattle.std.specs.Prelude.{ℕ, List};

    ghost Value = { List (ℕ × ℕ) };

    ghost view = { λ o. o.pairs.keys };
}

impl Owners {
    /// No owner has any. It takes no memory.
    pub(crate) fn new(alloc: Global) -> Owners
        ensures { result ≡ [] }
    {
        Owners {
            pairs: BTreeSet::new(alloc),
        }
    }

    /// An owner has one container more. `NoMemory` changes nothing.
    pub(crate) fn insert(&mut self, owner: u64, number: u64) -> Result<(), NoMemory>
        ensures ok { OnOk result (HasMore owner number self.old self.new) }
        ensures err { OnErr result (self.new ≡ self.old) }
    {
        match self.pairs.insert((owner, number)) {
            Ok(_) => {}
            Err(_) => return Err(NoMemory),
        }
        Ok(())
    }

    /// An owner has a container no longer.
    pub(crate) fn remove(&mut self, owner: u64, number: u64)
        ensures { HasLess owner number self.old self.new }
    {
        self.pairs.remove(&(owner, number));
    }

    /// The least number above `after` of a container that an owner has, none where it has none.
    pub(crate) fn next(&self, owner: u64, after: u64) -> Option<u64>
        ensures has { IfSome result (λ n. has_pair self.now owner n ≡ true) }
        ensures above { IfSome result (λ n. after < n) }
        ensures least { IfSome result
            (λ n. (m : ℕ) → after < m → has_pair self.now owner m ≡ true → n ≤ m) }
        ensures none { IfNone result ((m : ℕ) → after < m → has_pair self.now owner m ≡ false) }
    {
        let mut later = self
            .pairs
            .range((Bound::Excluded((owner, after)), Bound::Unbounded));
        let Some((first, number)) = later.next() else {
            return None;
        };
        if *first == owner { Some(*number) } else { None }
    }
}
