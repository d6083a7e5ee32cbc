//! What a proposal looks at in a live cluster (`Live`).
ghost use Rattle.std.specs.Prelude.{◌≡◌};
ghost use Rattle.cap_model.specs.Candidates.{choice_from};
ghost use Rattle.cap_model.specs.Sight.{sight_of};

use cap_asks::App;
use cap_choice::propose_on;
use cap_commit::Cluster;
use cap_farm::{Farm, wrapped};
use cap_model::{Ask, Key, Proposal, Reservation, ShortText, takes_place};
use cap_vector::{Resource, fits};
use std::marker::Model;

/// A cluster, as a proposal sees it: read where it lies. Contracts see the cluster.
#[derive(Drop)]
pub(crate) struct Live<'a, const K: usize> {
    cluster: &'a Cluster<K>,
}

impl<'a, const K: usize> Model for Live<'a, K> {
    ghost use Rattle.std.specs.Prelude.{◌≤◌};
    ghost use Rattle.cap_base.specs.Limits.{resources_max};
    ghost use Rattle.cap_commit.specs.ClusterState.{ClusterState};
    ghost use Rattle.cap_live.specs.Codes.{cluster_code};

    ghost Value = { ClusterState K };

    ghost coded = { cluster_code K };

    ghost view = { λ live. live.cluster.now };

    ghost invariant = { λ live. K ≤ resources_max };
}

impl<'a, const K: usize> Live<'a, K> {
    /// The cluster, as a proposal sees it.
    pub(crate) fn new(cluster: &'a Cluster<K>) -> Live<'a, K>
        ensures { result ≡ cluster.now }
    {
        cluster.nodes();
        Live { cluster }
    }

    /// What is proposed on it, with the nodes as a ring from the node at `start` on.
    pub(crate) fn propose(&self, start: u32) -> Option<Proposal<K>>
        ensures { result ≡ choice_from (sight_of self.now.flat) start }
    {
        self.cluster.nodes();
        propose_on(self, start)
    }
}

impl<'a, const K: usize> Farm<K> for Live<'a, K> {
    ghost use Rattle.cap_model.specs.Sight.{app_sight, sight_of};
    ghost use Rattle.cap_live.specs.Waiters.{HasWaiter, IsServed};

    type App = &'a App<K>;

    ghost sight = { λ live. sight_of live.flat };

    ghost shown = { λ live app. app_sight app.now.app };

    ghost has = { λ live app. HasWaiter live app.now };

    ghost served = { λ live app. IsServed live app.now };

    fn node_count(&self) -> usize {
        self.cluster.apps().asks_rise();
        let nodes = self.cluster.nodes();
        nodes.numbers_rise();
        nodes.count()
    }

    fn next_unreserved(&self, first: usize, turn: usize) -> usize {
        let nodes = self.cluster.nodes();
        let count = nodes.count();
        for next in turn..count {
            let load = nodes.nth(wrapped(first, next, count));
            if load.reservation().is_none() {
                return next;
            }
        }
        count
    }

    fn next_reserved(&self, first: usize, turn: usize, end: usize) -> usize {
        let nodes = self.cluster.nodes();
        let count = nodes.count();
        for next in turn..end {
            let load = nodes.nth(wrapped(first, next, count));
            if load.reservation().is_some() {
                return next;
            }
        }
        end
    }

    fn next_fit(&self, first: usize, turn: usize, ask: &Ask<K>) -> usize {
        let nodes = self.cluster.nodes();
        if turn == 0 && !nodes.may_take(&ask.place(), &ask.resource()) {
            return nodes.count();
        }
        self.next_unreserved(first, turn)
    }

    fn number(&self, index: usize) -> u64 {
        self.cluster.nodes().nth(index).node().number()
    }

    fn fits_free(&self, index: usize, resource: &Resource<K>) -> bool {
        fits(resource, &self.cluster.nodes().nth(index).free())
    }

    fn fits_total(&self, index: usize, resource: &Resource<K>) -> bool {
        fits(resource, &self.cluster.nodes().nth(index).node().total())
    }

    fn is_at(&self, index: usize, place: &ShortText) -> bool {
        let node = self.cluster.nodes().nth(index).node();
        takes_place(place, node.host(), node.rack())
    }

    fn reservation(&self, index: usize) -> Option<Reservation<K>> {
        self.cluster.nodes().nth(index).reservation()
    }

    fn first_app(&self) -> Option<&'a App<K>> {
        let apps = self.cluster.apps();
        apps.numbers_rise();
        let tree = self.cluster.tree();
        let Some(number) = tree.first_served() else {
            return None;
        };
        apps.app(number)
    }

    fn next_app(&self, last: &'a App<K>) -> Option<&'a App<K>> {
        let apps = self.cluster.apps();
        apps.numbers_rise();
        let tree = self.cluster.tree();
        let Some(number) = tree.next_served(last.position(), last.number()) else {
            return None;
        };
        apps.app(number)
    }

    fn app_of(&self, number: u64) -> Option<&'a App<K>> {
        let apps = self.cluster.apps();
        apps.numbers_rise();
        let Some(app) = apps.app(number) else {
            return None;
        };
        if !app.is_waiting() {
            return None;
        }
        Some(app)
    }

    fn app_number(&self, of: &'a App<K>) -> u64 {
        of.number()
    }

    fn ask_count(&self, of: &'a App<K>) -> usize {
        self.cluster.nodes();
        of.asks().len()
    }

    fn ask(&self, of: &'a App<K>, index: usize) -> &Ask<K> {
        &of.asks()[index]
    }

    fn ask_of(&self, of: &'a App<K>, key: &Key) -> Option<&Ask<K>> {
        let asks = of.asks();
        for index in 0..asks.len() {
            let ask = &asks[index];
            if ask.key().is_same(key) {
                return Some(ask);
            }
        }
        None
    }

    fn wanted(&self, of: &'a App<K>, index: usize) -> u32 {
        let nodes = self.cluster.nodes();
        nodes.numbers_rise();
        let ask = &of.asks()[index];
        ask.count()
            .saturating_sub(nodes.reserved_for(of.number(), &ask.key()))
    }

    fn stays_within(&self, of: &'a App<K>, old: &Resource<K>, new: &Resource<K>) -> bool {
        let tree = self.cluster.tree();
        self.cluster.apps();
        match tree.accept(of.position(), of.user(), old, new) {
            Ok(()) => true,
            Err(_) => false,
        }
    }

    fn is_shut(&self, of: &'a App<K>) -> bool {
        if of.is_impossible() {
            return true;
        }
        self.cluster.nodes();
        let least = of.least();
        !self.stays_within(of, &Resource::zero(), &least)
    }

    fn next_possible(&self, of: &'a App<K>, from: usize) -> usize {
        of.next_possible(from)
    }

    fn live(&self) -> usize {
        self.cluster.nodes().live_count()
    }

    fn next_container(&self) -> u64 {
        self.cluster.nodes().next_container()
    }
}
