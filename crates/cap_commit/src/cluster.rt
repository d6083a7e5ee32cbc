//! The cluster (`Cluster`): opened from settings, its parts lent for reading, and the changes that calls make of it.
ghost use Rattle.std.specs.Prelude.{◌≡◌, ◌≤◌, ◌+◌, ◌==◌, ◌&&◌, ◌∷◌, [], Some, None, IfOk, OnOk, OnErr, IsOk, IfSome, IsSome, is_some, length, find, true, ◌<◌, option_and_then};
ghost use Rattle.std.specs.List.{All};
ghost use Rattle.cap_base.specs.Limits.{applications_max, live_max, resources_max};
ghost use Rattle.cap_model.specs.Flat.{opened_cluster, queue_at, app_at, node_at, node_in, with_app, with_node, with_reserved, containers_on, containers_of};
ghost use Rattle.cap_model.specs.Bounds.{AreApart};
ghost use Rattle.cap_model.specs.Uses.{queue_use};
ghost use Rattle.cap_model.specs.Submit.{submit_refusal, after_submit};
ghost use Rattle.cap_model.specs.RegisterNode.{register_node_refusal, after_register_node};
ghost use Rattle.cap_model.specs.RegisterMaster.{after_register_master};
ghost use Rattle.cap_model.specs.QueueCalls.{after_set_queue_state, queue_report};
ghost use Rattle.cap_model.specs.Refresh.{has_its_queues, with_settings};
ghost use Rattle.cap_base.specs.Paths.{root_path};
ghost use Rattle.cap_model.specs.Asking.{after_ask, rounded_ask};
ghost use Rattle.cap_model.specs.Allocate.{after_telling};
ghost use Rattle.cap_model.specs.Ending.{after_ends};
ghost use Rattle.cap_model.specs.FinishMaster.{after_finish_master};
ghost use Rattle.cap_laws.specs.EngineLaws.{HasDistinctNumbers};
ghost use Rattle.cap_model.specs.NodeGone.{without_node};
ghost use Rattle.cap_model.specs.Heartbeat.{after_beat};
ghost use Rattle.cap_tree.specs.Rows.{IsAt, queues_of};
ghost use Rattle.cap_tree.specs.Spot.{IsPosition, path_at};
ghost use Rattle.cap_asks.specs.Apps.{KeepsNumbers, ask_room, HasRooms, UsesRoom, position_of};
ghost use Rattle.cap_commit.specs.ClusterState.{AreOutOfReach, FollowsWaiting, IsRowOf};
ghost use Rattle.cap_laws.specs.Reservations.{kept_by_ask};
ghost use Rattle.cap_commit.specs.Owners.{TakesEndRoom, TakesLeaver, owns, containers_owned, containers_named};

use crate::following::{follow_app, settle, wake};
use crate::limits::{Limits, limits_of};
use crate::owner::Owner;
use crate::queue_report::report_of;
use cap_asks::{Apps, Position};
use cap_model::{
    Ask, Cause, Config, End, HeartbeatReply, NoMemory, PathText, QueueReport, Reported, ShortText,
};
use cap_nodes::{Container, Nodes};
use cap_tree::{Found, QueueTree};
use cap_vector::{Resource, Sum, round_up};
use std::alloc::Global;
use std::marker::Model;

/// The cluster of K resources: the tree of its queues, its limits, its applications, and its nodes with their containers. Contracts
/// see it as the flat cluster, and beside it the rows of the tree and the accounts of the applications.
pub struct Cluster<const K: usize> {
    pub(crate) tree: Box<QueueTree<K, Global>>,
    limits: Limits<K>,
    pub(crate) apps: Apps<K>,
    pub(crate) nodes: Nodes<K>,
    // Whether an application that waits may be left out of the tree, since no present node could take any of its asks.
    pub(crate) asleep: bool,
}

impl<const K: usize> Drop for Cluster<K> {
    fn drop(self) {
        let Cluster {
            tree: _,
            limits: _,
            apps: _,
            nodes: _,
            asleep: _,
        } = self;
    }
}

impl<const K: usize> Model for Cluster<K> {
    ghost use Rattle.std.specs.Coded.{codes};
    ghost use Rattle.cap_tree.specs.Queue.{users_code};
    ghost use Rattle.cap_commit.specs.ClusterState.{ClusterState, cluster_of, IsCluster};

    ghost Value = { ClusterState K };

    ghost coded = { Prim.hlevel (codes, users_code) };

    ghost view = { λ c. cluster_of (record {
      rows = c.tree.value;
      limits = c.limits;
      apps = c.apps;
      nodes = c.nodes;
    }) };

    ghost invariant = { λ c. IsCluster {K = K} c.asleep (record {
      rows = c.tree.value;
      limits = c.limits;
      apps = c.apps;
      nodes = c.nodes;
    }) };
}

impl<const K: usize> Cluster<K> {
    /// The cluster that settings open: their queues and limits, and nothing else.
    pub fn from_config(alloc: Global, config: &Config<K>) -> Result<Cluster<K>, NoMemory>
        ensures { IfOk result (λ cluster. cluster.flat ≡ opened_cluster config.now) }
    {
        let limits = limits_of(config);
        let tree = match QueueTree::from_config(alloc, config) {
            Ok(tree) => tree,
            Err(NoMemory) => return Err(NoMemory),
        };
        let Ok(tree) = Box::new(alloc, tree) else {
            return Err(NoMemory);
        };
        Ok(Cluster {
            tree,
            limits,
            apps: Apps::new(alloc),
            nodes: Nodes::new(alloc),
            asleep: false,
        })
    }

    /// Its queues. Each shows what the cluster uses in it and under it and how many applications wait there, and a leaf which of its own
    /// wait and what its users use. An application that waits may be left out where no present node could take any of its asks.
    pub fn tree(&self) -> &QueueTree<K, Global>
        ensures rows { result.now ≡ self.now.rows }
        ensures queues { queues_of self.now.rows ≡ self.now.flat.settings.queues }
        ensures tied { All (IsRowOf self.now.flat) self.now.rows }
        ensures waiting { FollowsWaiting true self.now.flat.nodes.present
            self.now.flat.apps.active self.now.rows }
        ensures resources { K ≤ resources_max }
    {
        &*self.tree
    }

    /// Its limits.
    pub fn settings(&self) -> &Limits<K>
        ensures minimum { result.now.minimum_allocation
            ≡ self.now.flat.settings.minimum_allocation }
        ensures maximum { result.now.maximum_allocation
            ≡ self.now.flat.settings.maximum_allocation }
        ensures apps { result.now.application_limit ≡ self.now.flat.settings.application_limit }
    {
        &self.limits
    }

    /// Its active applications. Each knows where its leaf is in the tree. What their impossible asks want could be taken by no node that
    /// is present.
    pub fn apps(&self) -> &Apps<K>
        ensures table { result.now.table ≡ self.now.flat.apps }
        ensures accounts { result.now.accounts ≡ self.now.accounts }
        ensures placed { All
            (λ app. IsAt self.now.rows app.leaf (position_of app.number self.now.accounts))
            result.now.table.active }
        ensures impossible { AreOutOfReach self.now.flat.nodes.present result.now.impossible }
        ensures few { length self.now.flat.apps.active ≤ applications_max }
        ensures resources { K ≤ resources_max }
    {
        &self.apps
    }

    /// Its nodes, with the containers that are live on them and the reservations, each on a node that is present and holds no other.
    pub fn nodes(&self) -> &Nodes<K>
        ensures value { result.now ≡ self.now.flat.nodes }
        ensures numbers { HasDistinctNumbers self.now.flat }
        ensures apart { AreApart self.now.flat.nodes.reserved }
        ensures present { All (λ r. IsSome (node_in result.now r.node)) result.now.reserved }
        ensures resources { K ≤ resources_max }
    {
        &self.nodes
    }

    /// What an operator sees of the queue of this path, none where there is none.
    pub fn report(&self, path: &[u8]) -> Option<QueueReport<K>>
        ensures found { is_some result ≡ is_some (queue_at self.now.flat path.now) }
        ensures report { IfSome result (λ r. r ≡ queue_report self.now.flat path.now) }
    {
        let tree = &*self.tree;
        match tree.find(path) {
            Found::Missing => None,
            Found::Leaf(position) => {
                let running = tree.running(&position);
                Some(report_of(tree.row(&position), running, true))
            }
            Found::Parent(position) => {
                let running = tree.running(&position);
                Some(report_of(tree.row(&position), running, false))
            }
        }
    }

    /// What all applications use, in MiB, vcores and GPUs: the use of `root`.
    pub fn root_use(&self) -> Sum<K>
        ensures { result ≡ queue_use self.now.flat root_path }
    {
        let tree = &*self.tree;
        tree.used()
    }

    /// Sets the own state of the queue at this position, and nothing else.
    pub fn set_state(&mut self, position: &Position, running: bool)
        requires { IsPosition self.old.rows position.now.items }
        ensures flat { self.new.flat ≡
            after_set_queue_state self.old.flat (path_at position.now.items self.old.rows) running }
        ensures accounts { self.new.accounts ≡ self.old.accounts }
    {
        let tree = &mut *self.tree;
        tree.set_state(position, running);
    }

    /// All settings become these, of the same queues: each queue takes its capacity, maximum capacity, user limit factor and own
    /// state, and the cluster the bounds of one container and the limit of active applications. The queues stay in their order, and
    /// all that is used, asked for and reserved stays, also above a lowered limit. It takes no memory.
    pub fn set_settings(&mut self, config: &Config<K>)
        requires { has_its_queues self.old.flat config.now ≡ true }
        ensures flat { self.new.flat ≡ with_settings config.now self.old.flat }
        ensures accounts { self.new.accounts ≡ self.old.accounts }
    {
        self.limits = limits_of(config);
        let tree = &mut *self.tree;
        tree.set_limits(config);
    }

    /// An application enters the leaf queue of this path, which is at this position, for a user, under the next number. `NoMemory`
    /// changes nothing.
    pub fn add_app(
        &mut self,
        path: &PathText,
        position: Position,
        user: &ShortText,
    ) -> Result<u64, NoMemory>
        requires position { IsAt self.old.rows path.now position.items }
        requires free { submit_refusal self.old.flat path.now ≡ None }
        ensures number { IfOk result (λ number. number ≡ self.old.flat.apps.next) }
        ensures ok { OnOk result (self.new.flat ≡ after_submit self.old.flat path.now user.now) }
        ensures err { OnErr result (self.new ≡ self.old) }
    {
        self.apps.numbers_rise();
        let number = self.apps.submit(path, position, user)?;
        let Some(app) = self.apps.app(number) else {
            unreachable!()
        };
        let tree = &mut *self.tree;
        let Ok(()) = tree.enter(app.position(), user) else {
            self.apps.take_back();
            return Err(NoMemory);
        };
        Ok(number)
    }

    /// The master of an active application has reported.
    pub fn register(&mut self, number: u64)
        ensures flat { self.new.flat ≡ after_register_master self.old.flat number }
        ensures room { UsesRoom number 0 0 0 self.old.accounts self.new.accounts }
    {
        self.apps.numbers_rise();
        self.apps.register(number);
        let tree = &mut *self.tree;
        let is_left = follow_app(tree, &self.apps, number);
        self.asleep = self.asleep | is_left;
    }

    /// Makes room for so many more asks, grants and ends of an active application, so that it takes them with no memory. `NoMemory`
    /// takes no room away, and does not come where there is room for all.
    pub fn room(
        &mut self,
        number: u64,
        asks: usize,
        grants: usize,
        ends: usize,
    ) -> Result<(), NoMemory>
        requires { IsSome (app_at self.old.flat number) }
        ensures flat { self.new.flat ≡ self.old.flat }
        ensures rows { self.new.rows ≡ self.old.rows }
        ensures stays { UsesRoom number 0 0 0 self.old.accounts self.new.accounts }
        ensures ok { OnOk result (HasRooms number asks grants ends self.new.accounts) }
        ensures succeeds { HasRooms number asks grants ends self.old.accounts → IsOk result }
    {
        self.apps.room(number, asks, grants, ends)
    }

    /// Puts an ask of an active application, rounded, in place of the one of its key; a count of 0 takes the key away. Where the
    /// resource or the place changes, all reservations of the key are dropped, else the newest that are more than it counts. It
    /// needs room that `room` made.
    pub fn put_ask(&mut self, number: u64, ask: &Ask<K>)
        requires { 1 ≤ ask_room number self.old.accounts }
        ensures flat { self.new.flat ≡
            after_ask number self.old.flat (rounded_ask K self.old.flat.settings ask.now) }
        ensures room { UsesRoom number 1 0 0 self.old.accounts self.new.accounts }
    {
        let resource = round_up(
            &ask.resource(),
            &self.limits.minimum_allocation,
            &self.limits.maximum_allocation,
        );
        let ask = ask.with_resource(&resource);
        self.drop_unwanted(number, &ask);
        self.apps.numbers_rise();
        let impossible = !self.nodes.may_take(&ask.place(), &ask.resource());
        self.apps.put_ask(number, &ask, impossible);
        let tree = &mut *self.tree;
        let is_left = follow_app(tree, &self.apps, number);
        self.asleep = self.asleep | is_left;
    }

    /// Drops the reservations of its key that an ask of an application, already rounded, does not leave.
    fn drop_unwanted(&mut self, number: u64, ask: &Ask<K>)
        ensures flat { self.new.flat ≡
            with_reserved (kept_by_ask number ask.now self.old.flat) self.old.flat }
        ensures accounts { self.new.accounts ≡ self.old.accounts }
    {
        if self.nodes.reservation_count() == 0 {
            return;
        }
        let left = self.apps.reservations_left(number, ask);
        self.keep_first(number, &ask.key(), left);
    }

    /// Reports to an active application the oldest grants and ends that wait, at most 64 of each: its response id moves on, and the
    /// reply, whose numbers are the result, is kept. Where no application has the number, nothing changes.
    pub fn tell(&mut self, number: u64, ignored: u16) -> Reported
        ensures told { IfSome (app_at self.old.flat number)
            (λ app. self.new.flat ≡
            with_app number (after_telling app.response ignored) self.old.flat) }
        ensures unknown { app_at self.old.flat number ≡ None → self.new.flat ≡ self.old.flat }
        ensures rows { self.new.rows ≡ self.old.rows }
        ensures room { UsesRoom number 0 0 0 self.old.accounts self.new.accounts }
        ensures reply { IsSome (app_at self.old.flat number)
            → KeepsNumbers number self.new.flat.apps result }
    {
        self.apps.numbers_rise();
        self.apps.tell(number, ignored)
    }

    /// An active application ends with all that it has: its containers, its reservations, its asks and what was not reported to it. The
    /// result is how many containers ended.
    pub fn finish(&mut self, number: u64) -> u32
        requires { IsSome (app_at self.old.flat number) }
        ensures ended { result ≡ length (containers_of self.old.flat.nodes number) }
        ensures finished { self.new.flat ≡ after_finish_master self.old.flat number }
        ensures room { TakesLeaver number self.old.accounts self.new.accounts }
    {
        let ended = self.end_all(Owner::Application(number), Cause::Released);
        self.unreserve_app(number);
        self.apps.numbers_rise();
        let Some(app) = self.apps.app(number) else {
            unreachable!()
        };
        let tree = &mut *self.tree;
        settle(tree, app.position(), number, false);
        tree.leave(app.position(), app.user());
        self.apps.finish(number);
        ended
    }

    /// Ends all live containers of an owner, in order of number, for this cause, which is to be reported to their applications. The
    /// result is how many ended.
    pub fn end_all(&mut self, owner: Owner, cause: Cause) -> u32
        ensures count { result ≡ length (containers_owned owner self.old.flat) }
        ensures ended { self.new.flat ≡
            after_ends cause (containers_owned owner self.old.flat) self.old.flat }
        ensures none { containers_owned owner self.new.flat ≡ [] }
        ensures room { TakesEndRoom self.old.accounts self.new.accounts }
    {
        let mut ended = 0;
        while let Some(container) = self.first_of(owner) {
            self.end(&container, cause);
            ended += 1;
        }
        ended
    }

    /// Ends the live containers of an owner that the numbers name, one after the other, for this cause, which is to be reported
    /// to their applications. The result is how many of the numbers name none: one that is not live, another owner's, or one that an earlier
    /// number named.
    pub fn end_named(&mut self, owner: Owner, numbers: &[u64], cause: Cause) -> u16
        requires { length numbers.now ≤ 1024 }
        ensures ended { self.new.flat ≡
            after_ends cause (containers_named owner numbers.now self.old.flat) self.old.flat }
        ensures ignored { result + length (containers_named owner numbers.now self.old.flat)
            ≡ length numbers.now }
        ensures room { TakesEndRoom self.old.accounts self.new.accounts }
    {
        let mut ignored = 0;
        for number in numbers {
            match self.nodes.container(*number) {
                Some(container) if owner.has(&container) => self.end(&container, cause),
                _ => ignored += 1,
            }
        }
        ignored
    }

    /// The live container of an owner with the least number, none where there is none. All that are live have numbers from 1 that rise
    /// and are below the next, and no more are live than 65,536.
    fn first_of(&self, owner: Owner) -> Option<Container<K>>
        ensures first { result ≡ find (owns owner) self.now.flat.nodes.live }
        ensures numbers { HasDistinctNumbers self.now.flat }
        ensures few { length self.now.flat.nodes.live ≤ live_max }
        ensures resources { K ≤ resources_max }
    {
        match owner {
            Owner::Application(app) => self.nodes.next_of_app(app, 0),
            Owner::Node(node) => self.nodes.next_on_node(node, 0),
        }
    }

    /// A live container ends: what it had is given back at every level of its queue, and the cause is to be reported to its application.
    pub fn end(&mut self, container: &Container<K>, cause: Cause)
        requires { find (λ c. c.number == container.now.number) self.old.flat.nodes.live
            ≡ Some container.now }
        ensures ended { self.new.flat ≡ after_ends cause (container.now ∷ []) self.old.flat }
        ensures room { UsesRoom container.now.app 0 0 1 self.old.accounts self.new.accounts }
    {
        let Some(app) = self.apps.app(container.app()) else {
            unreachable!()
        };
        let tree = &mut *self.tree;
        tree.give_back(app.position(), app.user(), &container.resource());
        self.nodes.lift(container);
        let end = End {
            container: container.number(),
            cause,
        };
        self.apps.add_end(container.app(), &end);
    }

    /// Takes a node in under the next number, of a total in MiB, vcores and GPUs. Applications wait again of whose asks it could take one.
    /// `NoMemory` changes nothing.
    pub fn add_node(
        &mut self,
        host: &ShortText,
        rack: &ShortText,
        total: &Resource<K>,
    ) -> Result<u64, NoMemory>
        requires { register_node_refusal self.old.flat host.now total.now ≡ None }
        ensures number { IfOk result (λ number. number ≡ self.old.flat.nodes.next_node) }
        ensures ok { OnOk result
            (self.new.flat ≡ after_register_node self.old.flat host.now rack.now total.now) }
        ensures err { OnErr result (self.new ≡ self.old) }
        ensures accounts { self.new.accounts ≡ self.old.accounts }
    {
        let number = self.nodes.register(host, rack, total)?;
        self.apps.node_came(host, rack, total);
        if self.asleep {
            let tree = &mut *self.tree;
            self.asleep = wake(tree, &self.apps);
        }
        Ok(number)
    }

    /// A present node has answered a heartbeat, in which so many named containers were not live there, and keeps the reply, which is
    /// the result.
    pub fn beat(&mut self, number: u64, ignored: u16) -> HeartbeatReply
        requires { IsSome (node_at self.old.flat number) }
        ensures flat { self.new.flat ≡ with_node number
            (after_beat ignored (length (containers_on self.old.flat.nodes number))) self.old.flat }
        ensures rows { self.new.rows ≡ self.old.rows }
        ensures accounts { self.new.accounts ≡ self.old.accounts }
        ensures reply { option_and_then (λ node. node.kept) (node_at self.new.flat number)
            ≡ Some result }
    {
        self.nodes.beat(number, ignored)
    }

    /// A present node on which no container is live is taken out, and its reservation is dropped.
    pub fn drop_node(&mut self, number: u64)
        requires present { IsSome (node_at self.old.flat number) }
        requires empty { containers_on self.old.flat.nodes number ≡ [] }
        ensures flat { self.new.flat ≡ without_node number self.old.flat }
        ensures accounts { self.new.accounts ≡ self.old.accounts }
    {
        self.unreserve_node(number);
        self.nodes.gone(number);
    }
}
