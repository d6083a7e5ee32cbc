//! Grants, or ends, of one application: those that its last reply reported, and those that wait (`News`).
ghost use Rattle.std.specs.Prelude.{◌≡◌, ◌+◌, ◌≤◌, [], ◌∷◌, ◌++◌, take, drop, length, vec_len, vec_capacity, OnOk, IsOk};
ghost use Rattle.cap_base.specs.Limits.{news_max};

use cap_model::{NEWS_MAX, NoMemory};
use std::alloc::Global;
use std::marker::Model;

/// News of one kind for one application, oldest first: some that are forgotten, those that its last reply reported, and after them
/// those that wait. Contracts see the last two lists, and how many more fit with no memory.
#[derive(Drop)]
pub(crate) struct News<T> {
    items: Vec<T>,
    forgotten: usize,
    told: usize,
}

impl<T> Model for News<T> {
    ghost use Rattle.std.specs.Prelude.{◌≤◌, ◌+◌, ◌-◌, take, drop, length, vec_len, vec_capacity};
    ghost use Rattle.cap_base.specs.Limits.{news_max};
    ghost use Rattle.cap_asks.specs.Accounts.{HeldNews};

    ghost Value = { HeldNews T };

    ghost view = { λ n. record {
      told = take n.told (drop n.forgotten n.items.items);
      waiting = drop (n.forgotten + n.told) n.items.items;
      room = vec_capacity n.items - vec_len n.items;
    } };

    ghost invariant = { λ n. (n.forgotten + n.told ≤ length n.items.items)
        × (n.told ≤ news_max) };
}

impl<T: Copy> News<T> {
    /// No news. It takes no memory.
    pub(crate) fn new(alloc: Global) -> News<T>
        ensures { result ≡ record { told = []; waiting = []; room = 0 } }
    {
        News {
            items: Vec::new(alloc),
            forgotten: 0,
            told: 0,
        }
    }

    /// Makes room for so many more. `NoMemory` changes nothing, and does not come where there is room.
    pub(crate) fn reserve(&mut self, additional: usize) -> Result<(), NoMemory>
        ensures told { self.new.told ≡ self.old.told }
        ensures waiting { self.new.waiting ≡ self.old.waiting }
        ensures stays { self.old.room ≤ self.new.room }
        ensures ok { OnOk result (additional ≤ self.new.room) }
        ensures succeeds { additional ≤ self.old.room → IsOk result }
    {
        match self.items.reserve(additional) {
            Ok(()) => Ok(()),
            Err(_) => Err(NoMemory),
        }
    }

    /// One more waits, last.
    pub(crate) fn add(&mut self, item: T)
        requires { 1 ≤ self.old.room }
        ensures told { self.new.told ≡ self.old.told }
        ensures waiting { self.new.waiting ≡ self.old.waiting ++ item ∷ [] }
        ensures room { self.old.room ≤ self.new.room + 1 }
    {
        let Ok(()) = self.items.push(item) else {
            unreachable!()
        };
    }

    /// Forgets what was reported, and reports the oldest of those that wait, at most `NEWS_MAX`. It moves none until as many are
    /// forgotten as wait.
    pub(crate) fn tell(&mut self)
        ensures told { self.new.told ≡ take news_max self.old.waiting }
        ensures waiting { self.new.waiting ≡ drop news_max self.old.waiting }
        ensures room { self.old.room ≤ self.new.room }
    {
        let gone = self.forgotten + self.told;
        let waiting = self.items.len() - gone;
        self.forgotten = forget(&mut self.items, gone);
        self.told = waiting.min(NEWS_MAX);
    }

    /// Those that were reported last.
    pub(crate) fn told(&self) -> &[T]
        ensures value { result.now ≡ self.now.told }
        ensures few { length result.now ≤ news_max }
    {
        &self.items[self.forgotten..self.forgotten + self.told]
    }

    /// How many wait.
    pub(crate) fn waiting(&self) -> usize
        ensures { result ≡ length self.now.waiting }
    {
        self.items.len() - self.forgotten - self.told
    }
}

/// Forgets so many of the first, and gives back how many of the first are forgotten and still there: all of them while more stay,
/// and then none.
fn forget<T: Copy>(items: &mut Vec<T>, gone: usize) -> usize
    requires { gone ≤ length items.old.items }
    ensures within { result ≤ length items.new.items }
    ensures rest { drop result items.new.items ≡ drop gone items.old.items }
    ensures len { vec_len items.new ≤ vec_len items.old }
    ensures capacity { vec_capacity items.old ≤ vec_capacity items.new }
{
    let waiting = items.len() - gone;
    if gone < waiting {
        return gone;
    }
    items.rotate_left(gone);
    items.truncate(waiting);
    0
}
