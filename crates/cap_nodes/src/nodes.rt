//! The nodes, the live containers on them, and the reservations (`Nodes`).
ghost use Rattle.std.specs.Prelude.{◌≡◌, ◌+◌, ◌<◌, ◌≤◌, ◌==◌, ◌&&◌, nat_lt, [], ◌∷◌, IsSome, Some, IfOk, IfSome, OnOk, OnErr, bytes_eq, length, map, find, filter, not, true, false, is_none, option_and_then, option_map};
ghost use Rattle.std.specs.List.{All, list_any, slice_get};
ghost use Rattle.std.specs.Option.{option_copied};
ghost use Rattle.cap_vector.specs.Vector.{Fits, IsWithin, amount_max, less, plus};
ghost use Rattle.cap_base.specs.Limits.{live_max, nodes_max, number_end};
ghost use Rattle.cap_base.specs.Amounts.{fits};
ghost use Rattle.cap_model.specs.Bounds.{AreApart};
ghost use Rattle.cap_base.specs.Members.{IsRising};
ghost use Rattle.cap_model.specs.RegisterNode.{sum_of_totals, add_node};
ghost use Rattle.cap_model.specs.Flat.{no_nodes, node_in, container_in, containers_on, is_for};
ghost use Rattle.cap_model.specs.Events.{add_reservation};
ghost use Rattle.cap_model.specs.Ending.{complete};
ghost use Rattle.cap_model.specs.NodeGone.{remove_node};
ghost use Rattle.cap_model.specs.Uses.{held_on};
ghost use Rattle.cap_nodes.specs.Tables.{could_take, free_on, IsLoadIn, IsSound};
ghost use Rattle.cap_nodes.specs.Loads.{add_container, new_reservation, reservation_of, after_beat_of, made_after};

use crate::change::Change;
use crate::containers::Containers;
use crate::load::Load;
use crate::node::Node;
use crate::present::Present;
use crate::reserved::Reserved;
use cap_model::{
    Container, HeartbeatReply, Key, LIVE_MAX, NUMBER_END, NoMemory, Reservation, ShortText,
};
use cap_vector::{Resource, checked_add, minus};
use std::alloc::Global;
use std::marker::Model;

/// The nodes that are present and the containers that are live on them, each in order of number, and the reservations in order of
/// making. Contracts see them as the table of the flat cluster. A reservation is kept in a table of its own as a container that
/// is not live, whose number is its place in the order of making, with how many there are for each key of an application; and a
/// present node has the one that it holds beside it.
#[derive(Drop)]
pub struct Nodes<const K: usize> {
    present: Present<K>,
    live: Containers<K>,
    reserved: Reserved<K>,
    total: Resource<K>,
}

impl<const K: usize> Model for Nodes<K> {
    ghost use Rattle.std.specs.Prelude.{◌≡◌, [], map};
    ghost use Rattle.cap_model.specs.Flat.{NodeTable};
    ghost use Rattle.cap_model.specs.RegisterNode.{sum_of_totals};
    ghost use Rattle.cap_base.specs.Members.{IsRising};
    ghost use Rattle.cap_vector.specs.Vector.{IsWithin, amount_max};
    ghost use Rattle.cap_nodes.specs.Loads.{AreTied, HaveReservations, reservation_of};

    ghost Value = { NodeTable };

    ghost view = { λ n. record {
      present = map (λ p. p.node) n.present.loads;
      live = n.live.containers;
      reserved = map reservation_of n.reserved.containers;
      next_node = n.present.next;
      next_container = n.live.next;
    } };

    ghost invariant = { λ n. AreTied K n.present.loads n.live.containers
        × (n.total ≡ sum_of_totals K (map (λ p. p.node) n.present.loads))
        × IsRising 1 (map (λ p. p.node.number) n.present.loads) n.present.next
        × IsWithin amount_max n.total
        × HaveReservations (map reservation_of n.reserved.containers) n.present.loads };
}

impl<const K: usize> Nodes<K> {
    /// No node and no container; both will be numbered from 1 on. It takes no memory.
    pub fn new(alloc: Global) -> Nodes<K>
        ensures { result ≡ no_nodes }
    {
        Nodes {
            present: Present::new(alloc),
            live: Containers::new(alloc),
            reserved: Reserved::new(alloc),
            total: Resource::zero(),
        }
    }

    /// The node of this number, none where none is present. What the live containers on each hold fits its total, each live
    /// container is on one of them, and they have at most 2^40 together in each resource.
    pub fn node(&self, number: u64) -> Option<&Node<K>>
        ensures found { option_copied result ≡ node_in self.now number }
        ensures held { All (λ node. fits (held_on K self.now node.number) node.total ≡ true)
            self.now.present }
        ensures homes { All (λ c. IsSome (node_in self.now c.node)) self.now.live }
        ensures totals { IsWithin amount_max (sum_of_totals K self.now.present) }
    {
        match self.present.get(number) {
            Some(load) => Some(load.node()),
            None => None,
        }
    }

    /// The node of this number with what it has left and the reservation that it holds, none where none is present.
    pub fn load(&self, number: u64) -> Option<&Load<K>>
        ensures node { option_map (λ load. load.node) (option_copied result)
            ≡ node_in self.now number }
        ensures load { IfSome (option_copied result) (IsLoadIn K self.now) }
    {
        self.present.get(number)
    }

    /// What the node of this number has left, in MiB, vcores and GPUs: its total without what is live on it. None where none is present.
    pub fn free_of(&self, number: u64) -> Option<Resource<K>>
        ensures { result ≡ option_map (λ node. less node.total (held_on K self.now number))
            (node_in self.now number) }
    {
        match self.load(number) {
            Some(load) => Some(load.free()),
            None => None,
        }
    }

    /// The node at an index, in order of number, with what it has left and the reservation that it holds.
    pub fn nth(&self, index: usize) -> &Load<K>
        requires { index < length self.now.present }
        ensures at { slice_get self.now.present index ≡ Some result.now.node }
        ensures found { node_in self.now result.now.node.number ≡ Some result.now.node }
        ensures load { IsLoadIn K self.now result.now }
    {
        self.present.nth(index)
    }

    /// The numbers of the nodes rise from 1 and are below the next, and so are those of the live containers. This does nothing: it
    /// is there for what its clauses say.
    pub fn numbers_rise(&self)
        ensures nodes { IsRising 1 (map (λ node. node.number) self.now.present) self.now.next_node }
        ensures containers { IsRising 1 (map (λ c. c.number) self.now.live)
            self.now.next_container }
    {
        self.live.numbers_rise();
    }

    /// How many nodes are present.
    pub fn count(&self) -> usize
        ensures value { result ≡ length self.now.present }
        ensures few { result ≤ nodes_max }
    {
        self.present.count()
    }

    /// What all nodes have together, in MiB, vcores and GPUs.
    pub fn total(&self) -> Resource<K>
        ensures value { result ≡ sum_of_totals K self.now.present }
        ensures within { IsWithin amount_max (sum_of_totals K self.now.present) }
    {
        self.total
    }

    /// The number of the next node.
    pub fn next_node(&self) -> u64
        ensures { result ≡ self.now.next_node }
    {
        self.present.next()
    }

    /// The number of the next container.
    pub fn next_container(&self) -> u64
        ensures { result ≡ self.now.next_container }
    {
        self.live.next()
    }

    /// Whether a present node has the host.
    pub fn is_host_taken(&self, host: &[u8]) -> bool
        ensures { result ≡ list_any (λ node. bytes_eq node.host host.now) self.now.present }
    {
        self.present.is_host_taken(host)
    }

    /// Whether a present node might take an ask of this place and size, in MiB, vcores and GPUs: false only where none could, not even
    /// one that is empty. It looks at no node.
    pub fn may_take(&self, place: &ShortText, resource: &Resource<K>) -> bool
        ensures { result ≡ false →
            All (λ node. could_take place.now resource.now node ≡ false) self.now.present }
    {
        self.present.may_take(place, resource)
    }

    /// The live container of this number, none where none is live. Each is on a present node.
    pub fn container(&self, number: u64) -> Option<Container<K>>
        ensures found { result ≡ container_in self.now number }
        ensures own { IfSome result (λ c. container_in self.now c.number ≡ Some c) }
        ensures homes { All (λ c. IsSome (node_in self.now c.node)) self.now.live }
    {
        self.live.get(number)
    }

    /// How many reservations there are.
    pub fn reservation_count(&self) -> usize
        ensures { result ≡ length self.now.reserved }
    {
        self.reserved.made().count()
    }

    /// The reservation that a node holds, the oldest where it holds several, none where it holds none.
    pub fn reservation_on(&self, node: u64) -> Option<Reservation<K>>
        ensures { result ≡ find (λ r. r.node == node) self.now.reserved }
    {
        match self.present.get(node) {
            Some(load) => load.reservation(),
            None => self.oldest_for(node),
        }
    }

    /// The oldest reservation for a node of a number, present or not, none where there is none.
    fn oldest_for(&self, node: u64) -> Option<Reservation<K>>
        ensures { result ≡ find (λ r. r.node == node) self.now.reserved }
    {
        let reserved = self.reserved.made();
        if reserved.count() == 0 {
            return None;
        }
        reserved.numbers_rise();
        let Some(container) = reserved.next_on_node(node, 0) else {
            return None;
        };
        Some(reservation_of(&container))
    }

    /// The oldest reservation for an application, none where there is none.
    pub fn reservation_of_app(&self, app: u64) -> Option<Reservation<K>>
        ensures { result ≡ find (λ r. r.app == app) self.now.reserved }
    {
        let reserved = self.reserved.made();
        reserved.numbers_rise();
        let Some(container) = reserved.next_of_app(app, 0) else {
            return None;
        };
        Some(reservation_of(&container))
    }

    /// The reservation for a key of an application that so many older ones for this key come before, none where there are no more
    /// than so many. It looks at the reservations for the application alone, and at none where none is found.
    pub fn reservation_for(&self, app: u64, key: &Key, older: u32) -> Option<Reservation<K>>
        ensures { result ≡ slice_get (filter (is_for app key.now) self.now.reserved) older }
    {
        if self.reserved_for(app, key) <= older {
            return None;
        }
        let Some(container) = self.reserved.made().nth_for(app, key, older) else {
            return None;
        };
        Some(reservation_of(&container))
    }

    /// The reservation for a key of an application that was made next after the one that a node holds, none where there is none. It
    /// looks at the later reservations for the application alone.
    pub fn reservation_after(&self, app: u64, key: &Key, node: u64) -> Option<Reservation<K>>
        ensures { result ≡ find (is_for app key.now) (made_after node self.now.reserved) }
    {
        let reserved = self.reserved.made();
        reserved.numbers_rise();
        let Some(earlier) = reserved.next_on_node(node, 0) else {
            return None;
        };
        let Some(container) = reserved.next_for(app, key, earlier.number()) else {
            return None;
        };
        Some(reservation_of(&container))
    }

    /// How many reservations there are for a key of an application. It looks at none of them.
    pub fn reserved_for(&self, app: u64, key: &Key) -> u32
        ensures { result ≡ length (filter (is_for app key.now) self.now.reserved) }
    {
        self.reserved.count_for(app, key)
    }

    /// How many containers are live.
    pub fn live_count(&self) -> usize
        ensures value { result ≡ length self.now.live }
        ensures few { result ≤ live_max }
    {
        self.live.count()
    }

    /// How many containers are live on a node: 0 where the node is not present.
    pub fn live_on(&self, number: u64) -> u32
        ensures { result ≡ length (containers_on self.now number) }
    {
        match self.present.get(number) {
            Some(load) => load.live(),
            None => 0,
        }
    }

    /// Takes a node in under the next number, which is the result, of a total in MiB, vcores and GPUs, with no container.
    /// `NoMemory` changes nothing.
    pub fn register(
        &mut self,
        host: &ShortText,
        rack: &ShortText,
        total: &Resource<K>,
    ) -> Result<u64, NoMemory>
        requires few { length self.old.present < nodes_max }
        requires numbered { self.old.next_node < number_end }
        requires within { IsWithin amount_max (plus (sum_of_totals K self.old.present) total.now) }
        ensures ok { IfOk result (λ number. (number ≡ self.old.next_node)
            × (self.new ≡ add_node host.now rack.now total.now self.old)) }
        ensures err { OnErr result (self.new ≡ self.old) }
    {
        let Some(sum) = checked_add(&self.total, total) else {
            unreachable!()
        };
        let reservation = self.oldest_for(self.present.next());
        let number = match self.present.push(host, rack, total, &reservation) {
            Ok(number) => number,
            Err(_) => return Err(NoMemory),
        };
        self.total = sum;
        Ok(number)
    }

    /// A container of this resource, in MiB, vcores and GPUs, becomes live on a present node that has room for it, for the key
    /// of an application, under the next number, which is the result. `NoMemory` changes nothing. What is true of every table is
    /// known of the new one.
    pub fn place(
        &mut self,
        app: u64,
        key: &Key,
        node: u64,
        resource: &Resource<K>,
    ) -> Result<u64, NoMemory>
        requires present { IsSome (node_in self.old node) }
        requires room { Fits resource.now (free_on K self.old node) }
        requires numbered { self.old.next_container < number_end }
        requires few { length self.old.live < live_max }
        ensures ok { IfOk result (λ number. (number ≡ self.old.next_container)
            × (self.new ≡ add_container app key.now node resource.now self.old)) }
        ensures err { OnErr result (self.new ≡ self.old) }
        ensures sound { IsSound K self.new }
    {
        let number = match self.live.push(app, key, node, resource) {
            Ok(number) => number,
            Err(_) => return Err(NoMemory),
        };
        self.present.change(node, Change::Hold(resource));
        Ok(number)
    }

    /// A live container ends: its node has its resource back.
    pub fn lift(&mut self, container: &Container<K>)
        requires { container_in self.old container.now.number ≡ Some container.now }
        ensures { self.new ≡ complete (container.now ∷ []) self.old }
    {
        self.live.numbers_rise();
        self.live.remove(container.number());
        self.present
            .change(container.node(), Change::Lift(&container.resource()));
    }

    /// A node keeps this much, in MiB, vcores and GPUs, for the ask of a key of an application, after all other reservations.
    /// `NoMemory` changes nothing; it is also answered where there are 65,536 reservations, or 2^62 were made. The nodes and
    /// their containers stay, so that what is true of every table is known.
    pub fn reserve(
        &mut self,
        app: u64,
        key: &Key,
        node: u64,
        resource: &Resource<K>,
    ) -> Result<(), NoMemory>
        ensures ok { OnOk result (self.new ≡
            add_reservation (new_reservation app key.now node resource.now) self.old) }
        ensures err { OnErr result (self.new ≡ self.old) }
        ensures sound { IsSound K self.new }
    {
        let reserved = self.reserved.made();
        if reserved.count() >= LIVE_MAX || reserved.next() >= NUMBER_END {
            return Err(NoMemory);
        }
        match self.reserved.push(app, key, node, resource) {
            Ok(_) => {}
            Err(_) => return Err(NoMemory),
        }
        let reservation = Reservation {
            app,
            key: *key,
            node,
            resource: *resource,
        };
        self.present.change(node, Change::Reserve(&reservation));
        Ok(())
    }

    /// Drops the reservation that a node holds. Where it holds none, nothing changes.
    pub fn unreserve(&mut self, node: u64)
        requires { AreApart self.old.reserved }
        ensures { self.new ≡ record self.old
            { reserved = filter (λ r. not (r.node == node)) self.old.reserved } }
    {
        let reserved = self.reserved.made();
        reserved.numbers_rise();
        if let Some(container) = reserved.next_on_node(node, 0) {
            self.reserved.remove(container.number());
            self.present.change(node, Change::Unreserve);
        }
    }

    /// One more heartbeat of a present node is answered, of which so many ends named no container that was live there: the response
    /// id moves on, and the reply, which is the result, is kept. It has how many are live there now.
    pub fn beat(&mut self, number: u64, ignored: u16) -> HeartbeatReply
        requires { IsSome (node_in self.old number) }
        ensures table { self.new ≡ after_beat_of number ignored self.old }
        ensures kept { option_and_then (λ node. node.kept) (node_in self.new number) ≡ Some result }
    {
        self.present.beat(number, ignored)
    }

    /// A present node on which no container is live is taken out, and its total with it.
    pub fn gone(&mut self, number: u64)
        requires present { IsSome (node_in self.old number) }
        requires empty { containers_on self.old number ≡ [] }
        ensures { self.new ≡ remove_node number self.old }
    {
        let Some(load) = self.present.get(number) else {
            unreachable!()
        };
        self.total = minus(&self.total, &load.node().total());
        self.present.remove(number);
    }

    /// The live container of an application with the least number above `after`, none where there is none.
    pub fn next_of_app(&self, app: u64, after: u64) -> Option<Container<K>>
        ensures { result ≡ find (λ c. c.app == app && nat_lt after c.number) self.now.live }
    {
        self.live.next_of_app(app, after)
    }

    /// The live container on a node with the least number above `after`, none where there is none.
    pub fn next_on_node(&self, node: u64, after: u64) -> Option<Container<K>>
        ensures { result ≡ find (λ c. c.node == node && nat_lt after c.number) self.now.live }
    {
        self.live.next_on_node(node, after)
    }
}

/// The reservation that a container of the table of reservations is.
fn reservation_of<const K: usize>(container: &Container<K>) -> Reservation<K>
    ensures { result ≡ reservation_of container.now }
{
    Reservation {
        app: container.app(),
        key: container.key(),
        node: container.node(),
        resource: container.resource(),
    }
}
