//! The asks of one application, in order of key (`Asks`).
ghost use Rattle.std.specs.Prelude.{◌≡◌, ◌+◌, ◌-◌, ◌≤◌, ◌∷◌, [], false, true, is_some, if◌then◌else◌, length, nat_lt, take, cond, not, ◌==◌, OnOk, IsOk, IfOk, IfErr};
ghost use Rattle.std.specs.List.{fold};
ghost use Rattle.cap_model.specs.Flat.{ask_at};
ghost use Rattle.cap_model.specs.Asks.{Ask as AskValue};
ghost use Rattle.cap_model.specs.Asking.{put_ask};
ghost use Rattle.cap_base.specs.Limits.{keys_max};
ghost use Rattle.cap_model.specs.Events.{take_one};
ghost use Rattle.cap_asks.specs.Accounts.{AreKept, is_before, IsKeyIndex, key_slot};
ghost use Rattle.cap_asks.specs.Impossible.{AreAmong, AreAmongOr, AreLeftBy, WantAmong, could_take, want_of};
ghost use Rattle.cap_base.specs.Members.{IsIn};

use crate::marks::Marks;
use cap_model::{Ask, Key, NoMemory, ShortText, takes_place};
use cap_vector::{Resource, fits};
use std::alloc::Global;
use std::marker::Model;

/// The greatest number of keys of one application.
const KEYS_MAX: u128 = 256;

/// How many slots keys have (`slot_of`).
const SLOTS: usize = 4096;

/// The asks of one application in order of key, each for at least one container, and which of them are impossible: no node that is
/// present could take one, not even one that is empty. Contracts see their list, how many more keys fit with no memory, and what the
/// impossible ones want.
#[derive(Drop)]
pub(crate) struct Asks<const K: usize> {
    items: Vec<Ask<K>>,
    impossible: Marks,
}

impl<const K: usize> Model for Asks<K> {
    ghost use Rattle.std.specs.Prelude.{◌≡◌, ◌-◌, length, min, vec_len, vec_capacity};
    ghost use Rattle.cap_asks.specs.Accounts.{HeldAsks, AreKept};
    ghost use Rattle.cap_asks.specs.Impossible.{wants_marked};

    ghost Value = { HeldAsks };

    ghost view = { λ a. record {
      asks = a.items.items;
      room = min (vec_capacity a.items - vec_len a.items) a.impossible.room;
      impossible = wants_marked a.impossible.marks a.items.items;
    } };

    ghost invariant = { λ a. AreKept a.items.items
        × (length a.impossible.marks ≡ length a.items.items) };
}

impl<const K: usize> Asks<K> {
    /// No ask. It takes no memory.
    pub(crate) fn new(alloc: Global) -> Asks<K>
        ensures { result ≡ record { asks = []; room = 0; impossible = [] } }
    {
        Asks {
            items: Vec::new(alloc),
            impossible: Marks::new(alloc),
        }
    }

    /// All, in order of key.
    pub(crate) fn as_slice(&self) -> &[Ask<K>]
        ensures value { result.now ≡ self.now.asks }
        ensures kept { AreKept self.now.asks }
    {
        &self.items
    }

    /// Whether there is none.
    pub(crate) fn is_empty(&self) -> bool
        ensures { result ≡ (length self.now.asks == 0) }
    {
        self.items.is_empty()
    }

    /// The ask of this key, none where there is none.
    pub(crate) fn get(&self, key: &Key) -> Option<Ask<K>>
        ensures { result ≡ ask_at key.now self.now.asks }
    {
        match self.index_of(key) {
            Ok(index) => Some(self.items[index]),
            Err(_) => None,
        }
    }

    /// Makes room for so many more keys. `NoMemory` changes nothing, and does not come where there is room.
    pub(crate) fn reserve(&mut self, additional: usize) -> Result<(), NoMemory>
        ensures asks { self.new.asks ≡ self.old.asks }
        ensures impossible { self.new.impossible ≡ self.old.impossible }
        ensures stays { self.old.room ≤ self.new.room }
        ensures ok { OnOk result (additional ≤ self.new.room) }
        ensures succeeds { additional ≤ self.old.room → IsOk result }
    {
        self.impossible.reserve(additional)?;
        match self.items.reserve(additional) {
            Ok(()) => Ok(()),
            Err(_) => Err(NoMemory),
        }
    }

    /// The index of the ask of this key in the order of keys; an error where none has the key, with the index that it would have. It
    /// costs one binary search.
    fn index_of(&self, key: &Key) -> Result<usize, usize>
        ensures ok { IfOk result (λ index. IsKeyIndex key.now self.now.asks index true) }
        ensures err { IfErr result (λ index. IsKeyIndex key.now self.now.asks index false) }
    {
        let items = self.items.as_slice();
        let mut low = 0;
        let mut high = items.len();
        while low < high {
            let middle = low + (high - low) / 2;
            if is_before(&items[middle].key(), key) {
                low = middle + 1;
            } else {
                high = middle;
            }
        }
        if low < items.len() && items[low].key().is_same(key) {
            Ok(low)
        } else {
            Err(low)
        }
    }

    /// Puts an ask, which is impossible or may be possible, in place of the one of its key, or in order of key; a count of 0 takes the key
    /// away.
    pub(crate) fn put(&mut self, ask: &Ask<K>, impossible: bool)
        requires { is_some (ask_at ask.now.key self.old.asks) ≡ false → 1 ≤ self.old.room }
        ensures asks { self.new.asks ≡ put_ask ask.now self.old.asks }
        ensures room { self.old.room ≤
            self.new.room + (if is_some (ask_at ask.now.key self.old.asks) then 0 else 1) }
        ensures impossible { AreAmongOr ask.now impossible self.new.impossible self.old.impossible }
    {
        match (self.index_of(&ask.key()), ask.count() == 0) {
            (Ok(index), true) => {
                self.items.remove(index);
                self.impossible.remove(index);
            }
            (Ok(index), false) => {
                self.items[index] = *ask;
                self.impossible.set(index, impossible);
            }
            (Err(_), true) => {}
            (Err(index), false) => {
                let Ok(()) = self.items.insert(index, *ask) else {
                    unreachable!()
                };
                self.impossible.insert(index, impossible);
            }
        }
    }

    /// One container less is wanted for this key; an ask that comes to 0 is taken out.
    pub(crate) fn take_one(&mut self, key: &Key)
        ensures asks { self.new.asks ≡ take_one key.now self.old.asks }
        ensures room { self.old.room ≤ self.new.room }
        ensures impossible { AreAmong self.new.impossible self.old.impossible }
    {
        let Ok(index) = self.index_of(key) else {
            return;
        };
        let items = self.items.as_slice();
        let ask = &items[index];
        if ask.count() == 1 {
            self.items.remove(index);
            self.impossible.remove(index);
        } else {
            let less = ask.with_count(ask.count() - 1);
            self.items[index] = less;
        }
    }

    /// The index of the first ask from `from` on that may be possible, their number where none is.
    pub(crate) fn next_possible(&self, from: usize) -> usize
        requires { from ≤ length self.now.asks }
        ensures { WantAmong self.now.impossible self.now.asks from result }
    {
        self.impossible.next_clear(from)
    }

    /// Whether all are impossible.
    pub(crate) fn are_impossible(&self) -> bool
        ensures { result ≡ true → (ask : AskValue) → IsIn ask self.now.asks
            → IsIn (want_of ask) self.now.impossible }
    {
        self.impossible.count() == self.items.len()
    }

    /// Whether one is impossible.
    pub(crate) fn has_impossible(&self) -> bool
        ensures { result ≡ false → self.now.impossible ≡ [] }
    {
        self.impossible.count() != 0
    }

    /// A node of this host, rack and total in MiB, vcores and GPUs has come: each ask that it could take may be possible from now on. It
    /// looks at them only where one is impossible.
    pub(crate) fn node_came(&mut self, host: &ShortText, rack: &ShortText, total: &Resource<K>)
        ensures asks { self.new.asks ≡ self.old.asks }
        ensures room { self.new.room ≡ self.old.room }
        ensures impossible { AreLeftBy host.now rack.now total.now
            self.new.impossible self.old.impossible }
    {
        if self.impossible.count() == 0 {
            return;
        }
        for index in 0..self.items.len() {
            let items = self.items.as_slice();
            let ask = &items[index];
            if could_take(ask, host, rack, total) {
                self.impossible.set(index, false);
            }
        }
    }

    /// Whether there is an ask of this key after these asks were put, one after the other.
    fn stands_after(&self, asks: &[Ask<K>], key: &Key) -> bool
        ensures { result ≡ is_some
            (ask_at key.now (fold (λ kept ask. put_ask ask kept) self.now.asks asks.now)) }
    {
        let mut stands = self.get(key).is_some();
        for ask in asks {
            if ask.key().is_same(key) {
                stands = ask.count() != 0;
            }
        }
        stands
    }

    /// Whether there would be more keys than allowed after these asks were put, one after the other. It looks at them only where the
    /// asks, old and new, are more than that many. It costs a binary search for each, and a look at all before it for one whose key has
    /// the slot of an earlier one.
    pub(crate) fn has_too_many_keys(&self, asks: &[Ask<K>]) -> bool
        ensures { result ≡ nat_lt keys_max
            (length (fold (λ kept ask. put_ask ask kept) self.now.asks asks.now)) }
    {
        let mut count = self.items.len() as u128;
        if count + asks.len() as u128 <= KEYS_MAX {
            return false;
        }
        let mut is_taken = [false; SLOTS];
        for (i, ask) in asks.iter().enumerate() {
            let key = ask.key();
            let slot = slot_of(&key);
            let earlier = if is_taken[slot] {
                &asks[..i]
            } else {
                &asks[..0]
            };
            is_taken[slot] = true;
            let stood = self.stands_after(earlier, &key);
            let stands = ask.count() != 0;
            count = count + stands as u128 - stood as u128;
        }
        KEYS_MAX < count
    }
}

/// Whether a node of this host, rack and total in MiB, vcores and GPUs could take an ask while it is empty.
fn could_take<const K: usize>(
    ask: &Ask<K>,
    host: &ShortText,
    rack: &ShortText,
    total: &Resource<K>,
) -> bool
    ensures { result ≡ could_take (want_of ask.now) host.now rack.now total.now }
{
    takes_place(&ask.place(), host, rack) && fits(&ask.resource(), total)
}

/// Whether one key is before another: the smaller priority first, then the smaller allocation request id.
fn is_before(a: &Key, b: &Key) -> bool
    ensures { result ≡ is_before a.now b.now }
{
    a.priority < b.priority || a.priority == b.priority && a.request < b.request
}

/// The slot of a key: keys of one slot may be the same, those of two slots are not. Keys whose priorities and request ids are each in a row
/// of their own mostly have slots of their own.
fn slot_of(key: &Key) -> usize
    ensures { result ≡ key_slot key.now }
{
    ((key.priority as u128 * 257 + key.request as u128) % SLOTS as u128) as usize
}
