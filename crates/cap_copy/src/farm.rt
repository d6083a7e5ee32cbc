//! What a proposal looks at in a snapshot (`Farm`).
ghost use Rattle.std.specs.Prelude.{◌≡◌, ◌+◌, ◌<◌, ◌≤◌, length, slice_index};
ghost use Rattle.cap_farm.specs.Ring.{ring_index};

use crate::ranges::index_of;
use crate::snapshot::Snapshot;
use cap_farm::{Farm, wrapped};
use cap_model::{Ask, Key, Reservation, ShortText, takes_place};
use cap_vector::{Resource, fits};
use std::alloc::Allocator;

impl<const K: usize, B: Allocator + Copy> Farm<K> for Snapshot<K, B> {
    ghost use Rattle.cap_copy.specs.Snapshot.{app_nth, sight_in};

    type App = u64;

    ghost sight = { sight_in K };

    ghost shown = { λ seen app. app_nth seen.waiting app };

    ghost has = { λ seen app. app < length seen.waiting };

    ghost served = { λ seen app. app < length seen.waiting };

    fn node_count(&self) -> usize {
        self.nodes.len()
    }

    fn next_unreserved(&self, first: usize, turn: usize) -> usize {
        // It goes on with the first node where it comes to the end of the list.
        let next = past_reserved(&self.skips, first, turn);
        past_reserved(&self.skips, first, next)
    }

    fn next_reserved(&self, first: usize, turn: usize, end: usize) -> usize {
        let count = self.nodes.len();
        for next in turn..end {
            let node = &self.nodes[wrapped(first, next, count)];
            if node.reservation().is_some() {
                return next;
            }
        }
        end
    }

    fn next_fit(&self, first: usize, turn: usize, _ask: &Ask<K>) -> usize {
        past_reserved(&self.skips, first, turn)
    }

    fn number(&self, index: usize) -> u64 {
        self.nodes[index].number()
    }

    fn fits_free(&self, index: usize, resource: &Resource<K>) -> bool {
        fits(resource, self.nodes[index].free())
    }

    fn fits_total(&self, index: usize, resource: &Resource<K>) -> bool {
        fits(resource, self.nodes[index].total())
    }

    fn is_at(&self, index: usize, place: &ShortText) -> bool {
        let node = &self.nodes[index];
        takes_place(place, node.host(), node.rack())
    }

    fn reservation(&self, index: usize) -> Option<Reservation<K>> {
        self.nodes[index].reservation()
    }

    fn first_app(&self) -> Option<u64> {
        self.tree.first_served()
    }

    fn next_app(&self, last: u64) -> Option<u64> {
        let app = &self.apps[last as usize];
        self.tree.next_served(last, app.position().as_slice())
    }

    fn app_of(&self, number: u64) -> Option<u64> {
        let Some(index) = index_of(&self.apps, number) else {
            return None;
        };
        Some(index as u64)
    }

    fn app_number(&self, of: u64) -> u64 {
        self.apps[of as usize].number()
    }

    fn ask_count(&self, of: u64) -> usize {
        let range = self.apps[of as usize].range();
        range.end - range.start
    }

    fn ask(&self, of: u64, index: usize) -> &Ask<K> {
        let range = self.apps[of as usize].range();
        self.asks[range.start + index].ask()
    }

    fn ask_of(&self, of: u64, key: &Key) -> Option<&Ask<K>> {
        let range = self.apps[of as usize].range();
        for index in range.start..range.end {
            let ask = self.asks[index].ask();
            if ask.key().is_same(key) {
                return Some(ask);
            }
        }
        None
    }

    fn wanted(&self, of: u64, index: usize) -> u32 {
        let range = self.apps[of as usize].range();
        self.asks[range.start + index].wanted()
    }

    fn stays_within(&self, of: u64, old: &Resource<K>, new: &Resource<K>) -> bool {
        let app = &self.apps[of as usize];
        self.tree
            .stays_within(app.position().as_slice(), app.used(), old, new)
    }

    fn is_shut(&self, _of: u64) -> bool {
        // A snapshot serves one turn, which looks at each ask once: to take the least of them would be one more look at each.
        false
    }

    fn next_possible(&self, _of: u64, from: usize) -> usize {
        // Nor is an ask passed over here: a snapshot keeps nothing that tells it without a look at the ask.
        from
    }

    fn live(&self) -> usize {
        self.live
    }

    fn next_container(&self) -> u64 {
        self.next_container
    }
}

/// A turn of the ring from the node at index `first` on, from `turn` on and no further than the end of the list of nodes: so many
/// later as the node at `turn` may be skipped with those after it.
fn past_reserved(skips: &[usize], first: usize, turn: usize) -> usize
    requires first { first < length skips.now }
    requires turn { turn ≤ length skips.now }
    ensures later { turn ≤ result }
    ensures within { result ≤ length skips.now }
    ensures few { turn < length skips.now → result
        ≤ turn + slice_index skips.now (ring_index first turn (length skips.now)) }
{
    let count = skips.len();
    if turn == count {
        return turn;
    }
    let skip = skips[wrapped(first, turn, count)];
    turn + skip.min(count - turn)
}
