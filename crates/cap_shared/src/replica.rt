//! A cluster that follows the shared one outside of its lock (`Replica`).
ghost use Rattle.std.specs.Prelude.{◌≡◌, ◌≤◌, List, ◌++◌, [], length, take, IfOk, OnOk, OnErr};
ghost use mathlib.Core.List.{IsPrefix};
ghost use Rattle.cap_shared.specs.declared.history.Moment.{Moment};
ghost use Rattle.cap_shared.specs.Journal.{Replays};
ghost use Rattle.cap_shared.specs.Following.{Follows, Leads, LeadsOn};

use crate::closed::Closed;
use crate::news::News;
use crate::seat::Naming;
use cap_base::RESOURCES;
use cap_commit::Cluster;
use cap_model::NoMemory;
use http_server::Log;
use std::alloc::Global;
use std::marker::{Model, PhantomData};

/// A cluster of one thread alone, in the state after the first entries of the journal of an epoch. Contracts see the cluster and these
/// entries.
pub struct Replica<J: Naming> {
    alloc: Global,
    cluster: Cluster<RESOURCES>,
    followed: usize,
    // This exists for contracts alone: news, and how many of them were followed.
    history: Log<News, usize>,
    of: PhantomData<J>,
}

impl<J: Naming> Drop for Replica<J> {
    fn drop(self) {
        let Replica {
            alloc: _,
            cluster: _,
            followed: _,
            history: _,
            of: _,
        } = self;
    }
}

impl<J: Naming> Model for Replica<J> {
    ghost use Rattle.cap_shared.specs.Parts.{Content};
    ghost use Rattle.cap_shared.specs.Following.{followed_in, IsReplica};

    ghost Value = { Content };

    ghost view = { λ r. record { cluster = r.cluster.flat; log = followed_in r.history.items } };

    ghost invariant = { λ r.
        IsReplica J.opening r.cluster.flat (followed_in r.history.items) r.followed };
}

impl<J: Naming> Replica<J> {
    /// A replica of a cluster that is the same as the opening of the epoch, which has followed nothing yet.
    pub fn open(alloc: Global, cluster: Cluster<RESOURCES>) -> Replica<J>
        requires { cluster.flat ≡ J.opening }
        ensures cluster { result.cluster ≡ cluster.flat }
        ensures log { result.log ≡ [] }
        ensures follows { (past : List Moment) → Follows result.log past }
    {
        Replica {
            alloc,
            cluster,
            followed: 0,
            history: Log::new(),
            of: PhantomData,
        }
    }

    /// The cluster: the state after the entries that were followed.
    pub fn cluster(&self) -> &Cluster<RESOURCES>
        ensures cluster { result.now.flat ≡ self.now.cluster }
        ensures run { Replays J.opening self.now.log self.now.cluster }
    {
        &self.cluster
    }

    /// How many entries it has followed.
    pub fn followed(&self) -> usize
        ensures { result ≡ length self.now.log }
    {
        self.followed
    }

    /// Makes again what the news say. If an allocation fails it has followed only some of them, and can go on from there.
    pub fn catch_up(&mut self, news: News) -> Result<(), NoMemory>
        requires { LeadsOn J.opening self.old.log news }
        ensures run { Replays J.opening self.new.log self.new.cluster }
        ensures ok { OnOk result (self.new.log ≡ self.old.log ++ news) }
        ensures err { OnErr result (IsPrefix self.new.log (self.old.log ++ news)) }
    {
        let made = follow(self.alloc, &mut self.cluster, &news);
        self.history = self.history.and(&news, &made);
        self.followed += made;
        if made < news.count() {
            return Err(NoMemory);
        }
        Ok(())
    }

    /// The cluster that the next epoch opens with, of this thread's own: what is left of the journal of the closed epoch is made again. If an
    /// allocation fails the replica is given up.
    pub fn close(self, closed: &Closed) -> Result<Cluster<RESOURCES>, NoMemory>
        requires begins { IsPrefix self.log closed.now.journal.items }
        requires run { Replays J.opening closed.now.journal.items closed.now.cluster.flat }
        ensures { IfOk result (λ cluster. cluster.flat ≡ closed.now.cluster.flat) }
    {
        let mut replica = self;
        let journal = &closed.journal;
        let news = News::after(replica.alloc, journal, replica.followed(), journal.len());
        let Ok(news) = news else {
            return Err(NoMemory);
        };
        let Ok(()) = replica.catch_up(news) else {
            return Err(NoMemory);
        };
        Ok(replica.into_cluster())
    }

    /// Its cluster.
    fn into_cluster(self) -> Cluster<RESOURCES>
        ensures cluster { result.flat ≡ self.cluster }
        ensures run { Replays J.opening self.log self.cluster }
    {
        let Replica {
            alloc: _,
            cluster,
            followed: _,
            history: _,
            of: _,
        } = self;
        cluster
    }
}

/// Makes again what the news say, as long as memory is found: how many of them.
fn follow(alloc: Global, cluster: &mut Cluster<RESOURCES>, news: &News) -> usize
    requires { Leads cluster.old.flat news.now }
    ensures made { Replays cluster.old.flat (take result news.now) cluster.new.flat }
    ensures few { result ≤ length news.now }
{
    let mut made = 0;
    let deeds = news.deeds();
    for deed in deeds {
        let Ok(()) = deed.make(alloc, cluster) else {
            return made;
        };
        made += 1;
    }
    made
}
