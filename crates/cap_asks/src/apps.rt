//! The active applications by number, and the changes that calls make of one (`Apps`).
ghost use Rattle.std.specs.Prelude.{◌≡◌, ℕ, List, ◌+◌, ◌<◌, ◌≤◌, ◌++◌, ◌∷◌, [], true, false, Some, length, map, option_map, vec_capacity, IfOk, IfSome, OnOk, OnErr, IsOk, IsSome, if◌then◌else◌};
ghost use Rattle.cap_base.specs.Limits.{live_max, number_end};
ghost use Rattle.std.specs.List.{All, slice_get};
ghost use Rattle.std.specs.Option.{option_map_or};
ghost use Rattle.cap_model.specs.Asking.{put_ask, reservations_left};
ghost use Rattle.cap_model.specs.Events.{take_one};
ghost use Rattle.cap_base.specs.Members.{IsRising};
ghost use Rattle.cap_model.specs.Submit.{add_app};
ghost use Rattle.cap_model.specs.FinishMaster.{remove_app};
ghost use Rattle.cap_model.specs.Flat.{AppTable, change_app, no_apps, app_in};
ghost use Rattle.cap_asks.specs.Accounts.{Account, AreKept};
ghost use Rattle.cap_asks.specs.Changes.{CanChange, Marks, Uses, changed_by, used_by};
ghost use Rattle.cap_asks.specs.Impossible.{AreAmong, AreAmongOr, AreLeftBy};
ghost use Rattle.cap_asks.specs.Apps.{AreAfterNode, held_at, is_waiting, waiting_of, with_entry, without_entry, IsLeft, account_of, ask_room, live_of, UsesRoom, HasRooms, kept_of, KeepsNumbers, Enters, with_ask_put, with_one_less, with_waiting_grant, with_waiting_end, after_next_reply};

use crate::app::{App, Position};
use crate::change::Change;
use crate::waiting::Waiting;
use cap_model::{AllocateView, Ask, End, Grant, Key, NoMemory, PathText, Reported, ShortText};
use cap_vector::Resource;
use slab::Slab;
use std::alloc::{Allocator, Global};
use std::collections::BTreeMap;
use std::marker::Model;

/// The active applications, each in one slot from its submission to its end, and an index from their numbers to their slots. Beside it
/// the entries of those that wait for containers, in order of number, with room for all, and the number of the next.
/// Contracts see the flat cluster's table, and beside it the account of each application, which says how many more asks, grants and
/// ends it may take with no memory.
#[derive(Drop)]
pub struct Apps<const K: usize> {
    alloc: Global,
    index: BTreeMap<u64, usize>,
    apps: Slab<Box<App<K>>>,
    waiting: Vec<(u64, usize)>,
    next: u64,
    has_impossible: bool,
}

impl<const K: usize> Model for Apps<K> {
    ghost use Rattle.std.specs.Prelude.{◌≡◌, [], false, map, vec_capacity};
    ghost use Rattle.cap_asks.specs.Apps.{HeldApps, AreIndexed, entries_at, held_at, impossible_in};

    ghost Value = { HeldApps };

    ghost view = { λ t. record {
      table = record {
        active = map (λ e. e.1.app) (entries_at (held_at t.apps) t.index.entries);
        next = t.next;
      };
      accounts = map (λ e. (e.0, e.1.account)) (entries_at (held_at t.apps) t.index.entries);
      impossible = impossible_in (entries_at (held_at t.apps) t.index.entries);
    } };

    ghost invariant = { λ t. AreIndexed (held_at t.apps) t.index.entries t.next
        t.waiting.items (vec_capacity t.waiting)
        × (t.has_impossible ≡ false →
        impossible_in (entries_at (held_at t.apps) t.index.entries) ≡ []) };
}

impl<const K: usize> Apps<K> {
    /// No application; the first will be number 1. It takes no memory.
    pub fn new(alloc: Global) -> Apps<K>
        ensures table { result.table ≡ no_apps }
        ensures accounts { result.accounts ≡ [] }
        ensures impossible { result.impossible ≡ [] }
    {
        Apps {
            alloc,
            index: BTreeMap::new(alloc),
            apps: Slab::new(alloc),
            waiting: Vec::new(alloc),
            next: 1,
            has_impossible: false,
        }
    }

    /// An application enters the leaf queue, which is at this position of the tree, for a user, under the next number, which is the
    /// result. `NoMemory` changes no application.
    pub fn submit(
        &mut self,
        leaf: &PathText,
        position: Position,
        user: &ShortText,
    ) -> Result<u64, NoMemory>
        requires { self.old.table.next < number_end }
        ensures number { IfOk result (λ number. number ≡ self.old.table.next) }
        ensures table { OnOk result (self.new.table ≡ add_app leaf.now user.now self.old.table) }
        ensures accounts { OnOk result (Enters position.items self.old self.new) }
        ensures table_stays { OnErr result (self.new.table ≡ self.old.table) }
        ensures accounts_stay { OnErr result (self.new.accounts ≡ self.old.accounts) }
        ensures impossible { AreAmong self.new.impossible self.old.impossible }
    {
        let more = self.index.len() - self.waiting.len() + 1;
        let Ok(()) = self.waiting.reserve(more) else {
            return Err(NoMemory);
        };
        let Ok(()) = self.apps.reserve(1) else {
            return Err(NoMemory);
        };
        let number = self.next;
        let app = App::new(self.alloc, number, leaf, position, user);
        let Ok(app) = Box::new(self.alloc, app) else {
            return Err(NoMemory);
        };
        let Ok(_) = self.index.insert(number, self.apps.vacant_key()) else {
            return Err(NoMemory);
        };
        self.apps.insert_reserved(app);
        self.next = number + 1;
        Ok(number)
    }

    /// The application that was submitted last, just now, leaves again, and its number is the next one again. It takes no memory.
    pub fn take_back(&mut self)
        ensures table { (leaf user : List ℕ) (table : AppTable) →
            self.old.table ≡ add_app leaf user table → self.new.table ≡ table }
        ensures accounts { (number : ℕ) (account : Account) (accounts : List (ℕ × Account)) →
            self.old.accounts ≡ accounts ++ (number, account) ∷ []
            → self.new.accounts ≡ accounts }
        ensures impossible { AreAmong self.new.impossible self.old.impossible }
    {
        let Some((number, slot)) = self.index.pop_last() else {
            return;
        };
        self.apps.try_remove(slot);
        self.next = number;
        set_waiting(&mut self.waiting, number, slot, false);
    }

    /// The numbers rise from 1, and are below the next. This does nothing: it is there for what its clause says.
    pub fn numbers_rise(&self)
        ensures { IsRising 1 (map (λ app. app.number) self.now.table.active) self.now.table.next }
    {
        let _ = &self.index;
    }

    /// The asks of each are in order of key, each for at least one container. This does nothing: it is there for what its clause says.
    pub fn asks_rise(&self)
        ensures { All (λ app. AreKept app.asks) self.now.table.active }
    {
        let _ = &self.index;
    }

    /// How many are active.
    pub fn count(&self) -> usize
        ensures { result ≡ length self.now.table.active }
    {
        self.index.len()
    }

    /// Those that wait for containers, in order of number, in one piece of memory. It costs no look at the others. An error means that an
    /// allocation failed.
    pub fn waiting<B: Allocator + Copy>(&self, alloc: B) -> Result<Vec<Waiting<'_, K>, B>, NoMemory>
        ensures apps { IfOk result (λ waiting.
            map (λ w. w.app) waiting.items ≡ waiting_of self.now.table.active) }
        ensures accounts { IfOk result (λ waiting. All
            (λ w. account_of w.app.number self.now.accounts ≡ Some w.account) waiting.items) }
    {
        let count = self.waiting.len();
        let Ok(mut waiting) = Vec::with_capacity(alloc, count) else {
            return Err(NoMemory);
        };
        for index in 0..count {
            let app = self.nth_waiting(index);
            match waiting.push(Waiting::new(app)) {
                Ok(()) => {}
                Err(_) => return Err(NoMemory),
            }
        }
        Ok(waiting)
    }

    /// How many wait for containers.
    pub fn waiting_count(&self) -> usize
        ensures { result ≡ length (waiting_of self.now.table.active) }
    {
        self.waiting.len()
    }

    /// The application at an index among those that wait, in order of number, by its slot.
    pub fn nth_waiting(&self, index: usize) -> &App<K>
        requires { index < length (waiting_of self.now.table.active) }
        ensures app { slice_get (waiting_of self.now.table.active) index ≡ Some result.now.app }
        ensures account { account_of result.now.app.number self.now.accounts
            ≡ Some result.now.account }
        ensures impossible { AreAmong result.now.impossible self.now.impossible }
    {
        &self.apps[self.waiting[index].1]
    }

    /// The number of the next.
    pub fn next(&self) -> u64
        ensures { result ≡ self.now.table.next }
    {
        self.next
    }

    /// The active application of this number, none where there is none.
    pub fn app(&self, n: u64) -> Option<&App<K>>
        ensures found { option_map (λ app. app.now.app) result ≡ app_in self.now.table n }
        ensures account { option_map (λ app. app.now.account) result
            ≡ account_of n self.now.accounts }
        ensures impossible { IfSome result
            (λ app. AreAmong app.now.impossible self.now.impossible) }
    {
        let slot = *self.index.get(&n)?;
        Some(&self.apps[slot])
    }

    /// One application changes, and is among those that wait from then on exactly where it waits. Where none of this number is active,
    /// nothing changes. It takes no memory.
    fn change(&mut self, n: u64, change: Change<'_, K>)
        requires { CanChange change n self.old.accounts }
        ensures table { self.new.table ≡ change_app n (changed_by change.entry) self.old.table }
        ensures accounts { Uses (used_by change.entry) n self.old.accounts self.new.accounts }
        ensures impossible { Marks change.entry self.old.impossible self.new.impossible }
    {
        self.has_impossible = self.has_impossible | change.is_impossible();
        let Some(&slot) = self.index.get(&n) else {
            return;
        };
        let app = &mut *self.apps[slot];
        let waited = app.is_waiting();
        app.change(change);
        let waits = app.is_waiting();
        if waits == waited {
            return;
        }
        set_waiting(&mut self.waiting, n, slot, waits);
    }

    /// The master of an application has reported. Where none of this number is active, nothing changes.
    pub fn register(&mut self, n: u64)
        ensures table { self.new.table ≡
            change_app n (λ app. record app { registered = true }) self.old.table }
        ensures accounts { UsesRoom n 0 0 0 self.old.accounts self.new.accounts }
        ensures impossible { AreAmong self.new.impossible self.old.impossible }
    {
        self.change(n, Change::Register);
    }

    /// Makes room for so many more asks, grants and ends of an application, so that it takes them with no memory. `NoMemory`
    /// changes no application and takes no room away, and does not come where there is room for all.
    pub fn room(&mut self, n: u64, asks: usize, grants: usize, ends: usize) -> Result<(), NoMemory>
        requires { IsSome (app_in self.old.table n) }
        ensures table { self.new.table ≡ self.old.table }
        ensures stays { UsesRoom n 0 0 0 self.old.accounts self.new.accounts }
        ensures ok { OnOk result (HasRooms n asks grants ends self.new.accounts) }
        ensures succeeds { HasRooms n asks grants ends self.old.accounts → IsOk result }
        ensures impossible { AreAmong self.new.impossible self.old.impossible }
    {
        let Some(&slot) = self.index.get(&n) else {
            unreachable!()
        };
        let app = &mut *self.apps[slot];
        app.reserve(asks, grants, ends)
    }

    /// How many of the reservations of its key an ask of an application leaves: as many as it counts, and none where its resource or
    /// place changes.
    pub fn reservations_left(&self, n: u64, ask: &Ask<K>) -> u32
        ensures { result ≡
            option_map_or (λ app. reservations_left app ask.now) (app_in self.now.table n) 0 }
    {
        match self.app(n) {
            Some(app) => app.reservations_left(ask),
            None => 0,
        }
    }

    /// Puts an ask of an application in place of the one of its key, or in order of key; a count of 0 takes the key away. It is
    /// impossible, where no node that is present could take it, or may be possible. It needs room that `room` made.
    pub fn put_ask(&mut self, n: u64, ask: &Ask<K>, impossible: bool)
        requires { 1 ≤ ask_room n self.old.accounts }
        ensures table { self.new.table ≡ change_app n (with_ask_put ask.now) self.old.table }
        ensures accounts { UsesRoom n 1 0 0 self.old.accounts self.new.accounts }
        ensures impossible { AreAmongOr ask.now impossible self.new.impossible self.old.impossible }
    {
        self.change(n, Change::PutAsk(ask, impossible));
    }

    /// One container less is wanted for this key of an application; an ask that comes to 0 is taken out. Where there is no such application
    /// or no ask of the key, nothing changes.
    pub fn take_one(&mut self, n: u64, key: &Key)
        ensures table { self.new.table ≡ change_app n (with_one_less key.now) self.old.table }
        ensures accounts { UsesRoom n 0 0 0 self.old.accounts self.new.accounts }
        ensures impossible { AreAmong self.new.impossible self.old.impossible }
    {
        self.change(n, Change::TakeOne(key));
    }

    /// One more container of an application is live, whose grant waits to be reported to its master, last. It needs room that `room`
    /// made: for the grant, and for the ends of all its live containers and of this one.
    pub fn add_grant(&mut self, n: u64, grant: &Grant<K>)
        requires room { HasRooms n 0 1 (live_of n self.old.accounts + 1) self.old.accounts }
        requires few { live_of n self.old.accounts < live_max }
        ensures table { self.new.table ≡
            change_app n (with_waiting_grant grant.now) self.old.table }
        ensures accounts { UsesRoom n 0 1 0 self.old.accounts self.new.accounts }
        ensures impossible { AreAmong self.new.impossible self.old.impossible }
    {
        self.change(n, Change::AddGrant(grant));
    }

    /// One container of an application is live no more, and its end waits to be reported to its master, last.
    pub fn add_end(&mut self, n: u64, end: &End)
        requires { 1 ≤ live_of n self.old.accounts }
        ensures table { self.new.table ≡ change_app n (with_waiting_end end.now) self.old.table }
        ensures accounts { UsesRoom n 0 0 1 self.old.accounts self.new.accounts }
        ensures impossible { AreAmong self.new.impossible self.old.impossible }
    {
        self.change(n, Change::AddEnd(end));
    }

    /// A node of this host, rack and total in MiB, vcores and GPUs has come: each impossible ask that it could take may be possible from
    /// now on. It looks at all applications where one has such an ask, and else at none.
    pub fn node_came(&mut self, host: &ShortText, rack: &ShortText, total: &Resource<K>)
        ensures table { self.new.table ≡ self.old.table }
        ensures accounts { self.new.accounts ≡ self.old.accounts }
        ensures impossible { AreLeftBy host.now rack.now total.now
            self.new.impossible self.old.impossible }
    {
        if !self.has_impossible {
            return;
        }
        self.has_impossible = node_came_to(&mut self.apps, host, rack, total);
    }

    /// Reports to the master of an application the oldest grants and ends that wait, at most 64 of each: the response id moves on, and
    /// the reply, whose numbers are the result, is kept. `ignored` is how many releases of the request named nothing. Where none of
    /// this number is active, nothing changes, and the numbers are 0.
    pub fn tell(&mut self, n: u64, ignored: u16) -> Reported
        ensures table { self.new.table ≡ change_app n (after_next_reply ignored) self.old.table }
        ensures accounts { UsesRoom n 0 0 0 self.old.accounts self.new.accounts }
        ensures told { IsSome (app_in self.old.table n) → KeepsNumbers n self.new.table result }
        ensures impossible { AreAmong self.new.impossible self.old.impossible }
    {
        let Some(&slot) = self.index.get(&n) else {
            return Reported {
                response: 0,
                ignored: 0,
                grants: 0,
                ends: 0,
            };
        };
        let app = &mut *self.apps[slot];
        app.tell(ignored)
    }

    /// The reply of these numbers to the master of an application, with the grants and ends that were reported to it last. Where none of
    /// this number is active, there are none.
    pub fn reply(&self, n: u64, reported: &Reported) -> AllocateView<'_, K>
        ensures { KeepsNumbers n self.now.table reported.now
            → kept_of n self.now.table ≡ Some result }
    {
        match self.app(n) {
            Some(app) => app.reply(reported),
            None => AllocateView {
                response: reported.response,
                ignored: reported.ignored,
                grants: &[],
                ends: &[],
            },
        }
    }

    /// An application ends and is active no more; its asks and what was not reported to its master are dropped. Where none of this number
    /// is active, nothing changes.
    pub fn finish(&mut self, n: u64)
        ensures table { self.new.table ≡ remove_app n self.old.table }
        ensures accounts { IsLeft n self.old.accounts self.new.accounts }
        ensures impossible { AreAmong self.new.impossible self.old.impossible }
    {
        let Some(slot) = self.index.remove(&n) else {
            return;
        };
        self.apps.try_remove(slot);
        set_waiting(&mut self.waiting, n, slot, false);
    }
}

/// Tells each application that a node of this host, rack and total has come. The result is whether one has an impossible ask then.
fn node_came_to<const K: usize>(
    apps: &mut Slab<Box<App<K>>>,
    host: &ShortText,
    rack: &ShortText,
    total: &Resource<K>,
) -> bool
    ensures { AreAfterNode host.now rack.now total.now (held_at apps.old) (held_at apps.new)
        result }
{
    let mut has_impossible = false;
    for slot in 0..apps.capacity() {
        if apps.contains(slot) {
            let app = &mut *apps[slot];
            app.node_came(host, rack, total);
            has_impossible = has_impossible | app.has_impossible();
        }
    }
    has_impossible
}

/// The entries of those that wait, in order of number, with that of this number, or without it. It costs one binary search.
fn set_waiting(waiting: &mut Vec<(u64, usize)>, n: u64, slot: usize, waits: bool)
    requires rising { (end : ℕ) × IsRising 1 (map (λ e. e.0) waiting.old.items) end }
    requires room { waits ≡ true → length waiting.old.items < vec_capacity waiting.old }
    ensures items { waiting.new.items ≡ (if waits then with_entry n slot waiting.old.items
        else without_entry n waiting.old.items) }
    ensures room { vec_capacity waiting.old ≤ vec_capacity waiting.new }
{
    let found = waiting.binary_search_by_key(&n, |entry| entry.0);
    if waits {
        let index = match found {
            Ok(index) => index,
            Err(index) => index,
        };
        let Ok(()) = waiting.insert(index, (n, slot)) else {
            unreachable!()
        };
    } else if let Ok(index) = found {
        waiting.remove(index);
    }
}
