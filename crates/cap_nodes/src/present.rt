//! The nodes that are present, found by number and by index (`Present`).
ghost use Rattle.std.specs.Prelude.{◌≡◌, ◌+◌, ◌<◌, ◌≤◌, [], Some, None, option_and_then, ◌==◌, IsSome, IfSome, IfOk, OnOk, OnErr, bytes_eq, length, filter, not, false};
ghost use Rattle.std.specs.List.{All, list_any, slice_get};
ghost use Rattle.std.specs.Option.{option_copied};
ghost use Rattle.cap_base.specs.Limits.{nodes_max, number_end};
ghost use Rattle.cap_vector.specs.Vector.{Fits};
ghost use Rattle.cap_nodes.specs.Changes.{Counts, MayChange, changed_by};
ghost use Rattle.cap_nodes.specs.Loads.{load_at, beaten_load, add_load, with_load};
ghost use Rattle.cap_nodes.specs.Tables.{could_take};

use crate::change::Change;
use crate::load::Load;
use crate::node::Node;
use crate::places::Places;
use cap_model::{HeartbeatReply, NoMemory, Reservation, ShortText};
use cap_vector::{Resource, fits};
use indexmap::IndexMap;
use std::alloc::Global;
use std::marker::Model;

/// The nodes that are present, in order of number, and the number of the next. Each host and each rack that a node has is found by
/// hash, and no node has more of a resource than the greatest amount of it. The blank load holds nothing: that it lies in the table
/// makes the size of a load known wherever the table is.
#[derive(Drop)]
pub(crate) struct Present<const K: usize> {
    loads: IndexMap<u64, Load<K>>,
    next: u64,
    blank: Load<K>,
    places: Places,
    greatest: Resource<K>,
}

impl<const K: usize> Model for Present<K> {
    ghost use Rattle.std.specs.HashMap.{values};
    ghost use Rattle.cap_nodes.specs.Loads.{IsNumbered, LoadTable};
    ghost use Rattle.cap_nodes.specs.Places.{ArePlaces, AreWithin};
    ghost use Rattle.cap_base.specs.Limits.{nodes_max};

    ghost Value = { LoadTable };

    ghost view = { λ t. record { loads = values t.loads; next = t.next } };

    ghost invariant = { λ t. IsNumbered (λ p. p.node.number) nodes_max t.loads.entries t.next
        × ArePlaces t.places (values t.loads) × AreWithin t.greatest (values t.loads) };
}

impl<const K: usize> Present<K> {
    /// No node; the first will be number 1. It takes no memory.
    pub(crate) fn new(alloc: Global) -> Present<K>
        ensures { result ≡ record { loads = []; next = 1 } }
    {
        Present {
            loads: IndexMap::new(alloc),
            next: 1,
            blank: Load::blank(),
            places: Places::new(alloc),
            greatest: Resource::zero(),
        }
    }

    /// The node of this number, none where none is present.
    pub(crate) fn get(&self, number: u64) -> Option<&Load<K>>
        ensures { option_copied result ≡ load_at self.now.loads number }
    {
        self.loads.get(&number)
    }

    /// The node at an index, in order of number.
    pub(crate) fn nth(&self, index: usize) -> &Load<K>
        requires { index < length self.now.loads }
        ensures at { slice_get self.now.loads index ≡ Some result.now }
        ensures own { load_at self.now.loads result.now.node.number ≡ Some result.now }
    {
        &self.loads[index]
    }

    /// How many there are.
    pub(crate) fn count(&self) -> usize
        ensures value { result ≡ length self.now.loads }
        ensures few { result ≤ nodes_max }
    {
        self.loads.len()
    }

    /// The number of the next.
    pub(crate) fn next(&self) -> u64
        ensures { result ≡ self.now.next }
    {
        self.next
    }

    /// Whether one has the host.
    pub(crate) fn is_host_taken(&self, host: &[u8]) -> bool
        ensures { result ≡ list_any (λ p. bytes_eq p.node.host host.now) self.now.loads }
    {
        let places = &self.places;
        let Some(host) = ShortText::new(host) else {
            return false;
        };
        places.has_host(&host)
    }

    /// Whether a node might take an ask of this place and size: false only where none could, not even one that is empty. It looks at
    /// no node.
    pub(crate) fn may_take(&self, place: &ShortText, resource: &Resource<K>) -> bool
        ensures { result ≡ false →
            All (λ p. could_take place.now resource.now p.node ≡ false) self.now.loads }
    {
        if !fits(resource, &self.greatest) {
            return false;
        }
        self.places.has(place)
    }

    /// One more, with no container and this reservation, under the next number. `NoMemory` changes nothing.
    pub(crate) fn push(
        &mut self,
        host: &ShortText,
        rack: &ShortText,
        total: &Resource<K>,
        reservation: &Option<Reservation<K>>,
    ) -> Result<u64, NoMemory>
        requires few { length self.old.loads < nodes_max }
        requires numbered { self.old.next < number_end }
        ensures ok { IfOk result (λ number. (number ≡ self.old.next)
            × (self.new ≡ add_load K host.now rack.now total.now reservation.now self.old)) }
        ensures err { OnErr result (self.new ≡ self.old) }
    {
        let number = self.next;
        let load = Load {
            node: Node::new(number, host, rack, total),
            held: Resource::zero(),
            live: 0,
            reservation: *reservation,
        };
        match self.loads.reserve(1) {
            Ok(()) => {}
            Err(_) => return Err(NoMemory),
        }
        match self.places.add(host, rack) {
            Ok(()) => {}
            Err(_) => return Err(NoMemory),
        }
        let Ok(_) = self.loads.insert(number, load) else {
            unreachable!()
        };
        self.greatest = greater(&self.greatest, total);
        self.next = number + 1;
        Ok(number)
    }

    /// A node changes. Where none of this number is present, nothing changes.
    pub(crate) fn change(&mut self, number: u64, change: Change<'_, K>)
        requires { IfSome (load_at self.old.loads number) (MayChange change) }
        ensures loads { self.new ≡ with_load number (changed_by change.entry) self.old }
        ensures count { IfSome (load_at self.old.loads number) (Counts change.entry) }
    {
        let Some(load) = self.loads.get_mut(&number) else {
            return;
        };
        load.change(change);
    }

    /// One more heartbeat of a node is answered, of which so many ends named no container that was live there. The result is the
    /// reply, which is kept.
    pub(crate) fn beat(&mut self, number: u64, ignored: u16) -> HeartbeatReply
        requires { IsSome (load_at self.old.loads number) }
        ensures loads { self.new ≡ with_load number (beaten_load ignored) self.old }
        ensures kept { option_and_then (λ p. p.node.kept) (load_at self.new.loads number)
            ≡ Some result }
    {
        match self.loads.get_mut(&number) {
            Some(load) => load.beat(ignored),
            None => unreachable!(),
        }
    }

    /// A node is taken out. Where none of this number is present, nothing changes.
    pub(crate) fn remove(&mut self, number: u64)
        ensures { self.new ≡ record self.old
            { loads = filter (λ p. not (p.node.number == number)) self.old.loads } }
    {
        let Some(load) = self.loads.get(&number) else {
            return;
        };
        let node = load.node();
        let host = *node.host();
        let rack = *node.rack();
        self.places.remove(&host, &rack);
        self.loads.shift_remove(&number);
    }
}

/// The greater of two amounts of each resource.
fn greater<const K: usize>(a: &Resource<K>, b: &Resource<K>) -> Resource<K>
    ensures first { Fits a.now result }
    ensures second { Fits b.now result }
{
    let firsts = a.amounts();
    let seconds = b.amounts();
    let mut amounts = [0; K];
    for k in 0..K {
        amounts[k] = firsts[k].max(seconds[k]);
    }
    let Some(greater) = Resource::new(amounts) else {
        unreachable!()
    };
    greater
}
