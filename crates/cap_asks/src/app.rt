//! One active application (`App`): its leaf queue and user, the state of its master, its asks and its news.
ghost use Rattle.std.specs.Prelude.{◌≡◌, ◌+◌, ◌<◌, ◌≤◌, [], ◌∷◌, ◌++◌, true, false, Some, is_some, length, option_map, IfSome, IfOk, OnOk, IsOk};
ghost use Rattle.cap_model.specs.Flat.{ask_at};
ghost use Rattle.cap_base.specs.Limits.{live_max};
ghost use Rattle.cap_model.specs.Asking.{put_ask, reservations_left};
ghost use Rattle.cap_model.specs.Allocate.{has_too_many_keys, after_telling};
ghost use Rattle.cap_model.specs.Events.{take_one};
ghost use Rattle.cap_model.specs.ResponseIds.{is_repeated, is_bad_id};
ghost use Rattle.cap_model.specs.Submit.{new_app};
ghost use Rattle.cap_asks.specs.Accounts.{AreKept, TakesRoom, HasRoom, WantAtLeast, repeated_numbers, with_numbers};
ghost use Rattle.cap_model.specs.Reporting.{reported_of, news_most};
ghost use Rattle.cap_asks.specs.Changes.{Marks, MayChange, Takes, changed_by, used_by};
ghost use Rattle.cap_asks.specs.Impossible.{AreLeftBy, WantAmong, want_of};
ghost use Rattle.cap_base.specs.Members.{IsIn};
ghost use Rattle.cap_model.specs.Asks.{Ask as AskValue};
ghost use Rattle.cap_asks.specs.Apps.{is_waiting, new_account};

use crate::asks::Asks;
use crate::change::Change;
use crate::least::{lowered, resized};
use crate::news::News;
use cap_base::RESOURCES;
use cap_model::{
    AllocateView, Ask, End, Grant, Key, NEWS_MAX, NoMemory, PathText, ReplyRoom, Reported,
    ShortText, is_bad, next_response, repeats,
};
use cap_vector::Resource;
use smallvec::SmallVec;
use std::alloc::Global;
use std::marker::Model;

/// Where a queue is in the tree: the child indexes that lead to it from the root. It takes no memory.
pub type Position = SmallVec<u32, 16, Global>;

/// An active application: its number, leaf queue and user, its standing with its master, its asks and the news not yet reported.
/// The last reply is kept. Contracts see its row in the flat cluster, and its account.
#[derive(Drop)]
pub struct App<const K: usize> {
    number: u64,
    leaf: PathText,
    position: Position,
    user: ShortText,
    registered: bool,
    response: u32,
    ignored: Option<u16>,
    live: u32,
    asks: Asks<K>,
    least: Resource<RESOURCES>,
    grants: News<Grant<K>>,
    ends: News<End>,
}

impl<const K: usize> Model for App<K> {
    ghost use Rattle.std.specs.Prelude.{◌<◌, ◌≤◌, option_map};
    ghost use Rattle.cap_base.specs.Limits.{response_end};
    ghost use Rattle.cap_asks.specs.Accounts.{HeldApp, WantAtLeast};

    ghost Value = { HeldApp };

    ghost view = { λ a. record {
      app = record {
        number = a.number;
        leaf = a.leaf;
        user = a.user;
        registered = a.registered;
        response = a.response;
        kept = option_map (λ ignored. record {
          response = a.response;
          ignored = ignored;
          grants = a.grants.told;
          ends = a.ends.told;
        }) a.ignored;
        asks = a.asks.asks;
        grants = a.grants.waiting;
        ends = a.ends.waiting;
      };
      account = record {
        position = a.position.items;
        live = a.live;
        asks = a.asks.room;
        grants = a.grants.room;
        ends = a.ends.room;
      };
      impossible = a.asks.impossible;
    } };

    ghost invariant = { λ a. (a.response < response_end) × (a.live ≤ a.ends.room)
        × WantAtLeast a.least a.asks.asks };
}

impl<const K: usize> App<K> {
    /// An application of this number that entered the leaf queue just now. It takes no memory.
    pub(crate) fn new(
        alloc: Global,
        number: u64,
        leaf: &PathText,
        position: Position,
        user: &ShortText,
    ) -> App<K>
        ensures app { result.app ≡ new_app number leaf.now user.now }
        ensures account { result.account ≡ new_account position.items }
        ensures impossible { result.impossible ≡ [] }
    {
        App {
            number,
            leaf: *leaf,
            position,
            user: *user,
            registered: false,
            response: 0,
            ignored: None,
            live: 0,
            asks: Asks::new(alloc),
            least: Resource::zero(),
            grants: News::new(alloc),
            ends: News::new(alloc),
        }
    }

    /// Its number.
    pub fn number(&self) -> u64
        ensures { result ≡ self.now.app.number }
    {
        self.number
    }

    /// The path of its leaf queue.
    pub fn leaf(&self) -> &PathText
        ensures { result.now ≡ self.now.app.leaf }
    {
        &self.leaf
    }

    /// Where its leaf queue is in the tree.
    pub fn position(&self) -> &Position
        ensures { result.now.items ≡ self.now.account.position }
    {
        &self.position
    }

    /// How many of its containers are live.
    pub fn live(&self) -> u32
        ensures value { result ≡ self.now.account.live }
        ensures room { result ≤ self.now.account.ends }
    {
        self.live
    }

    /// Its user.
    pub fn user(&self) -> &ShortText
        ensures { result.now ≡ self.now.app.user }
    {
        &self.user
    }

    /// Whether its master has reported.
    pub fn is_registered(&self) -> bool
        ensures { result ≡ self.now.app.registered }
    {
        self.registered
    }

    /// Whether it waits for containers: its master has registered, and it has asks.
    pub fn is_waiting(&self) -> bool
        ensures { result ≡ is_waiting self.now.app }
    {
        self.registered && !self.asks.is_empty()
    }

    /// The response id that its master was given last, 0 before the first.
    pub fn response(&self) -> u32
        ensures { result ≡ self.now.app.response }
    {
        self.response
    }

    /// Its asks in order of key, each for at least one container.
    pub fn asks(&self) -> &[Ask<K>]
        ensures value { result.now ≡ self.now.app.asks }
        ensures kept { AreKept self.now.app.asks }
    {
        self.asks.as_slice()
    }

    /// At most what each of its asks wants, in MiB, vcores and GPUs: no ask wants less of any of these. It looks at no ask. It may be
    /// less than the least of each, since it stays as it is where asks go. Of kinds of resource beyond these three it is 0.
    pub fn least(&self) -> Resource<K>
        ensures { WantAtLeast result self.now.app.asks }
    {
        resized(&self.least)
    }

    /// The index of the first of its asks from `from` on that may be possible, their number where none is. The others before are impossible:
    /// no node that is present could take one, not even one that is empty. It costs one look at each of these at most.
    pub fn next_possible(&self, from: usize) -> usize
        requires { from ≤ length self.now.app.asks }
        ensures { WantAmong self.now.impossible self.now.app.asks from result }
    {
        self.asks.next_possible(from)
    }

    /// Whether all its asks are impossible. It looks at none.
    pub fn is_impossible(&self) -> bool
        ensures { result ≡ true → (ask : AskValue) → IsIn ask self.now.app.asks
            → IsIn (want_of ask) self.now.impossible }
    {
        self.asks.are_impossible()
    }

    /// Whether one of its asks is impossible. It looks at none.
    pub(crate) fn has_impossible(&self) -> bool
        ensures { result ≡ false → self.now.impossible ≡ [] }
    {
        self.asks.has_impossible()
    }

    /// A node of this host, rack and total in MiB, vcores and GPUs has come: each ask that it could take may be possible from now on.
    pub(crate) fn node_came(&mut self, host: &ShortText, rack: &ShortText, total: &Resource<K>)
        ensures app { self.new.app ≡ self.old.app }
        ensures account { self.new.account ≡ self.old.account }
        ensures impossible { AreLeftBy host.now rack.now total.now
            self.new.impossible self.old.impossible }
    {
        self.asks.node_came(host, rack, total);
    }

    /// Its ask of this key, none where there is none.
    pub fn ask(&self, key: &Key) -> Option<Ask<K>>
        ensures { result ≡ ask_at key.now self.now.app.asks }
    {
        self.asks.get(key)
    }

    /// How many of the reservations of its key an ask leaves, where it replaces that of the key: as many as it counts, and none where
    /// its resource or place changes.
    pub(crate) fn reservations_left(&self, ask: &Ask<K>) -> u32
        ensures { result ≡ reservations_left self.now.app ask.now }
    {
        match self.asks.get(&ask.key()) {
            Some(old) if ask.is_changed(&old) => 0,
            _ => ask.count(),
        }
    }

    /// Whether a reply is kept.
    pub fn is_kept(&self) -> bool
        ensures { result ≡ is_some self.now.app.kept }
    {
        self.ignored.is_some()
    }

    /// The numbers of the reply that is kept, where a request of this response id repeats the last processed one; else none.
    pub fn repeated(&self, id: u32) -> Option<Reported>
        ensures { result ≡ repeated_numbers self.now.app id }
    {
        let ignored = self.ignored?;
        if !repeats(self.response, true, id) {
            return None;
        }
        Some(self.reported(ignored))
    }

    /// The reply of these numbers, with the grants and ends that were reported last.
    pub(crate) fn reply(&self, reported: &Reported) -> AllocateView<'_, K>
        ensures { IfSome self.now.app.kept (λ kept. result ≡ with_numbers reported.now kept) }
    {
        AllocateView {
            response: reported.response,
            ignored: reported.ignored,
            grants: self.grants.told(),
            ends: self.ends.told(),
        }
    }

    /// Room for the grants and ends that are reported to its master at most by an allocate of this response id with so many releases. If an
    /// allocation fails there is none.
    pub fn reply_room(
        &self,
        alloc: Global,
        id: u32,
        releases: usize,
    ) -> Result<ReplyRoom<K>, NoMemory>
        ensures { IfOk result (λ room. room ≡ news_most self.now.app id releases) }
    {
        match self.repeated(id) {
            Some(reported) => ReplyRoom::new(alloc, reported.grants, reported.ends),
            None => {
                let grants = self.grants.waiting();
                let ends = self.ends.waiting().saturating_add(releases);
                ReplyRoom::new(alloc, grants.min(NEWS_MAX), ends.min(NEWS_MAX))
            }
        }
    }

    /// The numbers of the reply that is kept, in which so many releases were ignored.
    fn reported(&self, ignored: u16) -> Reported
        ensures response { result.response ≡ self.now.app.response }
        ensures ignored { result.ignored ≡ ignored }
        ensures kept { IfSome self.now.app.kept (λ kept.
            (result.grants ≡ length kept.grants) × (result.ends ≡ length kept.ends)) }
    {
        Reported {
            response: self.response,
            ignored,
            grants: self.grants.told().len(),
            ends: self.ends.told().len(),
        }
    }

    /// Whether a request of this response id is neither the next one nor repeats the last.
    pub fn is_bad_id(&self, id: u32) -> bool
        ensures { result ≡ is_bad_id self.now.app.response self.now.app.kept id }
    {
        is_bad(self.response, self.is_kept(), id)
    }

    /// Whether there would be more than 256 keys after these asks were put, one after the other.
    pub fn has_too_many_keys(&self, asks: &[Ask<K>]) -> bool
        ensures { result ≡ has_too_many_keys self.now.app asks.now }
    {
        self.asks.has_too_many_keys(asks)
    }

    /// Makes room for so many more asks, grants and ends. `NoMemory` takes no room away and changes nothing else; where there is
    /// room for all it does not come.
    pub(crate) fn reserve(
        &mut self,
        asks: usize,
        grants: usize,
        ends: usize,
    ) -> Result<(), NoMemory>
        ensures app { self.new.app ≡ self.old.app }
        ensures impossible { self.new.impossible ≡ self.old.impossible }
        ensures stays { TakesRoom 0 0 0 self.old.account self.new.account }
        ensures ok { OnOk result (HasRoom asks grants ends self.new.account) }
        ensures succeeds { HasRoom asks grants ends self.old.account → IsOk result }
    {
        self.asks.reserve(asks)?;
        self.grants.reserve(grants)?;
        self.ends.reserve(ends)
    }

    /// At most what each ask wants after this one was put: so much less as it wants less. A first ask sets it anew, and one that is taken
    /// away leaves it.
    fn least_with(&self, ask: &Ask<K>) -> Resource<RESOURCES>
        ensures { WantAtLeast result (put_ask ask.now self.now.app.asks) }
    {
        if ask.count() == 0 {
            return self.least;
        }
        let resource = ask.resource();
        if self.asks.is_empty() {
            return resized(&resource);
        }
        lowered(&self.least, &resource)
    }

    /// Changes it as a call does.
    pub(crate) fn change(&mut self, change: Change<'_, K>)
        requires { MayChange change self.old.account }
        ensures app { self.new.app ≡ changed_by change.entry self.old.app }
        ensures number { self.new.app.number ≡ self.old.app.number }
        ensures account { Takes (used_by change.entry) self.old.account self.new.account }
        ensures impossible { Marks change.entry self.old.impossible self.new.impossible }
    {
        match change {
            Change::Register => self.registered = true,
            Change::PutAsk(ask, impossible) => {
                self.least = self.least_with(ask);
                self.asks.put(ask, impossible);
            }
            Change::TakeOne(key) => self.asks.take_one(key),
            Change::AddGrant(grant) => {
                self.grants.add(*grant);
                self.live += 1;
            }
            Change::AddEnd(end) => {
                self.ends.add(*end);
                self.live -= 1;
            }
        }
    }

    /// Reports the oldest grants and ends that wait, at most 64 of each: the response id moves on, and the reply is kept. The result is
    /// its numbers.
    pub(crate) fn tell(&mut self, ignored: u16) -> Reported
        ensures app { self.new.app ≡ after_telling self.old.app.response ignored self.old.app }
        ensures impossible { self.new.impossible ≡ self.old.impossible }
        ensures account { TakesRoom 0 0 0 self.old.account self.new.account }
        ensures told { option_map reported_of self.new.app.kept ≡ Some result }
    {
        let response = next_response(self.response);
        self.response = response;
        self.ignored = Some(ignored);
        self.grants.tell();
        self.ends.tell();
        self.reported(ignored)
    }
}
