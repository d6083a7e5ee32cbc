//! A queue as a snapshot keeps it: its settings, its use and the shares of that, without its users, and what waits there (`SeenQueue`).
ghost use Rattle.std.specs.Prelude.{◌≡◌};
ghost use Rattle.std.specs.Ordering.{nat_cmp};
ghost use Rattle.std.specs.Cmp.Lexicographic.{slice_cmp};
ghost use Rattle.cap_vector.specs.Vector.{amounts_exchanged};
ghost use Rattle.cap_base.specs.LimitTests.{fits_user_limit};
ghost use Rattle.cap_copy.specs.SeenTree.{waiting_at, waiting_below};

use cap_model::NoMemory;
use cap_tree::{Change, CopyIn, InMaximum, Marked, Queue, Served, Test, TreeItem, fits_in_maximum};
use cap_vector::{Resource, Shares, Sum, cmp_shares, fits_exchanged};
use http_server::Log;
use smallvec::SmallVec;
use std::alloc::{Allocator, Global};
use std::cmp::Ordering;
use std::marker::Model;

/// A queue without its users, and marks of what waits there, which are 1 + an index, or 0: of the first at the queue and of the last.
/// Contracts see the queue that it was copied from, and the marks.
#[derive(Drop)]
pub(crate) struct SeenQueue<const K: usize, B: Allocator> {
    name: SmallVec<u8, 24, B>,
    guaranteed: Resource<K>,
    maximum: Option<Resource<K>>,
    factor: u64,
    used: Sum<K>,
    shares: Shares<K>,
    first: u32,
    last: u32,
    waits: bool,
    // This is for contracts alone, and takes no room.
    source: Log<Queue<K, Global>, u8>,
}

impl<const K: usize, B: Allocator> Model for SeenQueue<K, B> {
    ghost use Rattle.std.specs.Coded.{codes};
    ghost use Rattle.cap_tree.specs.Queue.{users_code};
    ghost use Rattle.cap_copy.specs.SeenTree.{IsSeen, SeenQueue as Seen, queue_in};

    ghost Value = { Seen };

    ghost coded = { Prim.hlevel (codes, users_code) };

    ghost view = { λ q. record {
      queue = queue_in q.source.items;
      first = q.first;
      last = q.last;
      waits = q.waits;
    } };

    ghost invariant = { λ q. IsSeen (queue_in q.source.items) q.name.items q.guaranteed q.maximum
        q.factor q.used q.shares };
}

impl<const K: usize, B: Allocator> TreeItem for SeenQueue<K, B> {
    ghost use Rattle.cap_tree.specs.Queue.{of_queue, of_users};
    ghost use Rattle.cap_copy.specs.SeenTree.{seen_cmp};

    ghost name = { λ q. q.queue.name };

    ghost stored = { λ q. of_queue q.queue };

    ghost own = { λ q. of_users q.queue };

    ghost waits = { λ q. q.waits };

    ghost order = { seen_cmp };

    fn name(&self) -> &[u8] {
        self.name.as_slice()
    }
}

impl<const K: usize, B: Allocator + Copy> CopyIn<SeenQueue<K, B>, B> for Queue<K, Global> {
    ghost use Rattle.std.specs.Prelude.{refl};
    ghost use Rattle.cap_copy.specs.SeenTree.{not_waiting};

    ghost copied = { not_waiting };

    fn copy_in(&self, alloc: B) -> Result<SeenQueue<K, B>, NoMemory> {
        let Ok(name) = SmallVec::from_slice(alloc, self.name()) else {
            return Err(NoMemory);
        };
        Ok(SeenQueue {
            name,
            guaranteed: self.guaranteed(),
            maximum: self.maximum(),
            factor: self.factor(),
            used: self.used(),
            shares: self.shares(),
            first: 0,
            last: 0,
            waits: false,
            source: Log::new().and(self, &0),
        })
    }

    ghost name_copied = { λ x. refl };

    ghost stored_copied = { λ x m. refl };

    ghost own_copied = { λ x m. refl };
}

impl<const K: usize, B: Allocator> Served for SeenQueue<K, B> {
    ghost use Rattle.std.proofs.lemmas.Cmp.{on_total};
    ghost use Rattle.cap_tree.specs.ServiceLaws.{queue_cmp_total, same_name};

    fn cmp_served(&self, other: &SeenQueue<K, B>) -> Ordering {
        // Queues that are used alike are frequent, and need no products.
        if self.used == other.used && self.guaranteed == other.guaranteed {
            return self.cmp_name(other);
        }
        let order = cmp_shares(&self.shares, &other.shares);
        if order.is_ne() {
            return order;
        }
        self.cmp_name(other)
    }

    ghost total = { on_total (λ q. q.queue) queue_cmp_total };

    ghost names = { λ x y. same_name x.queue y.queue };
}

impl<const K: usize, B: Allocator> Marked for SeenQueue<K, B> {
    ghost mark = { λ q. q.first };

    fn mark(&self) -> u64 {
        self.first as u64
    }

    fn waits(&self) -> bool {
        self.waits
    }
}

impl<'a, const K: usize, B: Allocator> Test<SeenQueue<K, B>> for InMaximum<'a, K> {
    ghost use Rattle.cap_tree.specs.Queue.{stays_in_maximum};

    ghost passes = { λ t. λ q. stays_in_maximum t.old.now t.new.now q.queue };

    fn passes(&self, item: &SeenQueue<K, B>) -> bool {
        fits_in_maximum(&item.maximum, &item.used, self.old, self.new)
    }
}

impl<const K: usize, B: Allocator> SeenQueue<K, B> {
    /// Which of two names is the lesser in byte order.
    fn cmp_name(&self, other: &SeenQueue<K, B>) -> Ordering
        ensures { result ≡ slice_cmp nat_cmp self.now.queue.name other.now.queue.name }
    {
        self.name.as_slice().cmp(other.name.as_slice())
    }

    /// The mark of the last that waits at it, 0 where nothing does so.
    pub(crate) fn last(&self) -> u32
        ensures { result ≡ self.now.last }
    {
        self.last
    }

    /// Something waits at it or below it.
    fn mark_above(&mut self)
        ensures { self.new ≡ waiting_below self.old }
    {
        self.waits = true;
    }

    /// What has that mark waits at it, after all that do so.
    fn mark_at(&mut self, mark: u32)
        ensures { self.new ≡ waiting_at mark self.old }
    {
        self.first = if self.first == 0 { mark } else { self.first };
        self.last = mark;
        self.waits = true;
    }

    /// Whether one who uses so much in it stays within its user limit with `old` taken away and `new` added.
    pub(crate) fn stays_in_user_limit(
        &self,
        used: &Sum<K>,
        old: &Resource<K>,
        new: &Resource<K>,
    ) -> bool
        ensures { result ≡ fits_user_limit self.now.queue.factor self.now.queue.guaranteed
            (amounts_exchanged old.now new.now used.now) }
    {
        fits_exchanged(used, old, new, self.factor, &self.guaranteed)
    }
}

/// What has that mark waits at a queue, after all that do so.
#[derive(Drop)]
pub(crate) struct Wait {
    pub(crate) mark: u32,
}

impl<const K: usize, B: Allocator> Change<SeenQueue<K, B>> for Wait {
    ghost use Rattle.std.specs.Prelude.{refl};
    ghost use Rattle.cap_tree.specs.Queue.{of_queue, of_users};
    ghost use Rattle.cap_tree.specs.QueueLaws.{none_fits, same_number};
    ghost use Rattle.cap_copy.specs.SeenTree.{waiting_at, waiting_below};

    ghost old = { λ c m. 0 };

    ghost new = { λ c m. 0 };

    ghost above = { λ c. waiting_below };

    ghost at = { λ c. waiting_at c.mark };

    ghost can = { λ c q. Unit {0} };

    ghost grows = { λ c q. ⊥ };

    fn change_above(&self, item: &mut SeenQueue<K, B>) {
        item.mark_above();
    }

    fn change_at(&self, item: &mut SeenQueue<K, B>) -> Result<(), NoMemory> {
        item.mark_at(self.mark);
        Ok(())
    }

    ghost name_above = { λ c x. refl };

    ghost name_at = { λ c x. refl };

    ghost stored_above = { λ c x m. same_number (of_queue x.queue m) };

    ghost stored_at = { λ c x m. same_number (of_queue x.queue m) };

    ghost own_above = { λ c x m. refl };

    ghost own_at = { λ c x m h. same_number (of_users x.queue m) };

    ghost old_fits = { λ c x m h. none_fits (of_users x.queue m) };
}
