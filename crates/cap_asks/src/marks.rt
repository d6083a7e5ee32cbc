//! Which of an application's asks are marked as impossible (`Marks`).
ghost use Rattle.std.specs.Prelude.{◌≡◌, ◌+◌, ◌<◌, ◌≤◌, [], length, insert, remove, slice_set, OnOk, IsOk};
ghost use Rattle.cap_asks.specs.Impossible.{AreMarkedBetween, marks_in};

use cap_model::NoMemory;
use std::alloc::Global;
use std::marker::Model;

/// A mark for each ask of an application, in order of key, and how many are set. Contracts see the marks, and how many more fit with
/// no memory.
#[derive(Drop)]
pub(crate) struct Marks {
    items: Vec<bool>,
    count: usize,
}

impl Model for Marks {
    ghost use Rattle.std.specs.Prelude.{◌≡◌, ◌-◌, vec_len, vec_capacity};
    ghost use Rattle.cap_asks.specs.Impossible.{HeldMarks, marks_in};

    ghost Value = { HeldMarks };

    ghost view = { λ m. record {
      marks = m.items.items;
      room = vec_capacity m.items - vec_len m.items;
    } };

    ghost invariant = { λ m. m.count ≡ marks_in m.items.items };
}

impl Marks {
    /// No mark. It takes no memory.
    pub(crate) fn new(alloc: Global) -> Marks
        ensures { result ≡ record { marks = []; room = 0 } }
    {
        Marks {
            items: Vec::new(alloc),
            count: 0,
        }
    }

    /// Makes room for so many more. `NoMemory` changes nothing, and does not come where there is room.
    pub(crate) fn reserve(&mut self, additional: usize) -> Result<(), NoMemory>
        ensures marks { self.new.marks ≡ self.old.marks }
        ensures stays { self.old.room ≤ self.new.room }
        ensures ok { OnOk result (additional ≤ self.new.room) }
        ensures succeeds { additional ≤ self.old.room → IsOk result }
    {
        match self.items.reserve(additional) {
            Ok(()) => Ok(()),
            Err(_) => Err(NoMemory),
        }
    }

    /// How many are set.
    pub(crate) fn count(&self) -> usize
        ensures { result ≡ marks_in self.now.marks }
    {
        self.count
    }

    /// One more, before that at an index or last.
    pub(crate) fn insert(&mut self, index: usize, is_set: bool)
        requires index { index ≤ length self.old.marks }
        requires room { 1 ≤ self.old.room }
        ensures marks { self.new.marks ≡ insert self.old.marks index is_set }
        ensures room { self.old.room ≤ self.new.room + 1 }
    {
        let Ok(()) = self.items.insert(index, is_set) else {
            unreachable!()
        };
        if is_set {
            self.count += 1;
        }
    }

    /// The mark at an index goes.
    pub(crate) fn remove(&mut self, index: usize)
        requires { index < length self.old.marks }
        ensures marks { self.new.marks ≡ remove self.old.marks index }
        ensures room { self.old.room ≤ self.new.room }
    {
        let was_set = self.items.remove(index);
        if was_set {
            self.count -= 1;
        }
    }

    /// The mark at an index is set from now on, or is not.
    pub(crate) fn set(&mut self, index: usize, is_set: bool)
        requires { index < length self.old.marks }
        ensures marks { self.new.marks ≡ slice_set self.old.marks index is_set }
        ensures room { self.new.room ≡ self.old.room }
    {
        let was_set = self.items[index];
        self.items[index] = is_set;
        match (was_set, is_set) {
            (false, true) => self.count += 1,
            (true, false) => self.count -= 1,
            _ => {}
        }
    }

    /// The index of the first from `from` on that is not set, their number where all are.
    pub(crate) fn next_clear(&self, from: usize) -> usize
        requires { from ≤ length self.now.marks }
        ensures { AreMarkedBetween self.now.marks from result }
    {
        let items = self.items.as_slice();
        let count = items.len();
        let mut index = from;
        while index < count && items[index] {
            index += 1;
        }
        index
    }
}
