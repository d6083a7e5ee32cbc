//! The changes of a tree, each at one queue and those above it: what a user counts is moved, or a queue's state or settings are set.
ghost use Rattle.std.specs.Prelude.{◌≡◌};

use crate::branch::{Change, Test};
use crate::count::Part;
use crate::queue::Queue;
use cap_base::{NoMemory, QueueRow, ShortText};
use std::alloc::Allocator;

/// Takes an old part away from what is counted of a user in a leaf, of the leaf and of each queue above it, and adds a new one.
#[derive(Drop)]
pub(crate) struct Move<'a, const K: usize> {
    pub(crate) user: &'a ShortText,
    pub(crate) old: Part<K>,
    pub(crate) new: Part<K>,
}

impl<'a, const K: usize, A: Allocator> Change<Queue<K, A>> for Move<'a, K> {
    ghost use Rattle.std.specs.Prelude.{refl};
    ghost use Rattle.cap_tree.specs.Count.{IsPart, of_count};
    ghost use Rattle.cap_tree.specs.Queue.{MayGrow, count_in, moved_above, moved_at, queue_count, user_row};
    ghost use Rattle.cap_tree.specs.QueueLaws.{moved_above_own, moved_at_queue, moved_own, moved_queue, own_fits};

    ghost old = { λ c. of_count c.old };

    ghost new = { λ c. of_count c.new };

    ghost above = { λ c. moved_above c.old c.new };

    ghost at = { λ c. moved_at K c.user.now c.old c.new };

    ghost can = { λ c q. IsPart c.old (count_in K (user_row c.user.now q.users)) };

    ghost grows = { λ c. MayGrow c.user.now c.old c.new };

    fn change_above(&self, item: &mut Queue<K, A>) {
        item.move_below(&self.old, &self.new);
    }

    fn change_at(&self, item: &mut Queue<K, A>) -> Result<(), NoMemory> {
        item.move_user(self.user, &self.old, &self.new)
    }

    ghost name_above = { λ c x. refl };

    ghost name_at = { λ c x. refl };

    ghost stored_above = { λ c x. moved_queue c.old c.new x };

    ghost stored_at = { λ c x. moved_at_queue K c.user.now c.old c.new x };

    ghost own_above = { λ c x. moved_above_own c.old c.new x };

    ghost own_at = { λ c x m h. moved_own K c.user.now c.old c.new x m h };

    ghost old_fits = { λ c x m h. own_fits K c.user.now c.old c.new x m h };
}

/// A queue's own state is set.
#[derive(Drop)]
pub(crate) struct SetState {
    pub(crate) running: bool,
}

impl<const K: usize, A: Allocator> Change<Queue<K, A>> for SetState {
    ghost use Rattle.std.specs.Prelude.{refl};
    ghost use Rattle.cap_tree.specs.Queue.{with_running, of_queue, of_users};
    ghost use Rattle.cap_tree.specs.QueueLaws.{none_fits, same_after, same_number, same_running_own};

    ghost old = { λ c m. 0 };

    ghost new = { λ c m. 0 };

    ghost above = { λ c x. x };

    ghost at = { λ c. with_running c.running };

    ghost can = { λ c q. Unit {0} };

    ghost grows = { λ c q. ⊥ };

    fn change_above(&self, _item: &mut Queue<K, A>) {}

    fn change_at(&self, item: &mut Queue<K, A>) -> Result<(), NoMemory> {
        item.set_running(self.running);
        Ok(())
    }

    ghost name_above = { λ c x. refl };

    ghost name_at = { λ c x. refl };

    ghost stored_above = { λ c x m. same_number (of_queue x m) };

    ghost stored_at = { λ c x m. same_after c.running x m };

    ghost own_above = { λ c x m. refl };

    ghost own_at = { λ c x m h. same_running_own c.running x m };

    ghost old_fits = { λ c x m h. none_fits (of_users x m) };
}

/// A queue takes the settings of a row.
#[derive(Drop)]
pub(crate) struct SetSettings<'a, const K: usize> {
    pub(crate) row: &'a QueueRow<K>,
}

impl<'a, const K: usize, A: Allocator> Change<Queue<K, A>> for SetSettings<'a, K> {
    ghost use Rattle.std.specs.Prelude.{refl};
    ghost use Rattle.cap_tree.specs.Queue.{of_queue, of_users, with_settings};
    ghost use Rattle.cap_tree.specs.QueueLaws.{none_fits, same_counts, same_number, same_settings_own};

    ghost old = { λ c m. 0 };

    ghost new = { λ c m. 0 };

    ghost above = { λ c x. x };

    ghost at = { λ c. with_settings c.row.now };

    ghost can = { λ c q. Unit {0} };

    ghost grows = { λ c q. ⊥ };

    fn change_above(&self, _item: &mut Queue<K, A>) {}

    fn change_at(&self, item: &mut Queue<K, A>) -> Result<(), NoMemory> {
        item.set_settings(self.row);
        Ok(())
    }

    ghost name_above = { λ c x. refl };

    ghost name_at = { λ c x. refl };

    ghost stored_above = { λ c x m. same_number (of_queue x m) };

    ghost stored_at = { λ c x m. same_counts c.row.now x m };

    ghost own_above = { λ c x m. refl };

    ghost own_at = { λ c x m h. same_settings_own c.row.now x m };

    ghost old_fits = { λ c x m h. none_fits (of_users x m) };
}

/// An application waits at a queue.
#[derive(Drop)]
pub(crate) struct Wait {
    pub(crate) number: u64,
}

impl<const K: usize, A: Allocator> Change<Queue<K, A>> for Wait {
    ghost use Rattle.std.specs.Prelude.{refl};
    ghost use Rattle.cap_tree.specs.Measure.{one_waiting};
    ghost use Rattle.cap_tree.specs.Queue.{IsFree, of_users, waiting_above, waiting_more};
    ghost use Rattle.cap_tree.specs.QueueLaws.{none_fits, own_more, waits_above_own, waits_at, waits_more};

    ghost old = { λ c m. 0 };

    ghost new = { λ c. one_waiting };

    ghost above = { λ c. waiting_above };

    ghost at = { λ c. waiting_more c.number };

    ghost can = { λ c q. IsFree c.number q };

    ghost grows = { λ c q. ⊥ };

    fn change_above(&self, item: &mut Queue<K, A>) {
        item.wait_above();
    }

    fn change_at(&self, item: &mut Queue<K, A>) -> Result<(), NoMemory> {
        item.wait_at(self.number);
        Ok(())
    }

    ghost name_above = { λ c x. refl };

    ghost name_at = { λ c x. refl };

    ghost stored_above = { λ c x m. waits_more x m };

    ghost stored_at = { λ c x m. waits_at c.number x m };

    ghost own_above = { λ c x m. waits_above_own x m };

    ghost own_at = { λ c x m h. own_more c.number x m };

    ghost old_fits = { λ c x m h. none_fits (of_users x m) };
}

/// An application that waited at a queue does so no more.
#[derive(Drop)]
pub(crate) struct Serve {
    pub(crate) number: u64,
}

impl<const K: usize, A: Allocator> Change<Queue<K, A>> for Serve {
    ghost use Rattle.std.specs.Prelude.{refl};
    ghost use Rattle.cap_base.specs.Members.{IsIn};
    ghost use Rattle.cap_tree.specs.Measure.{one_waiting};
    ghost use Rattle.cap_tree.specs.Numbers.{AreNumbers};
    ghost use Rattle.cap_tree.specs.Queue.{served_above, waiting_less};
    ghost use Rattle.cap_tree.specs.QueueLaws.{one_own, own_less, served_above_own, served_at, waits_less};

    ghost old = { λ c. one_waiting };

    ghost new = { λ c m. 0 };

    ghost above = { λ c. served_above };

    ghost at = { λ c. waiting_less c.number };

    ghost can = { λ c q. AreNumbers q.waiting × IsIn c.number q.waiting };

    ghost grows = { λ c q. ⊥ };

    fn change_above(&self, item: &mut Queue<K, A>) {
        item.serve_above();
    }

    fn change_at(&self, item: &mut Queue<K, A>) -> Result<(), NoMemory> {
        item.serve_at(self.number);
        Ok(())
    }

    ghost name_above = { λ c x. refl };

    ghost name_at = { λ c x. refl };

    ghost stored_above = { λ c x m. waits_less x m };

    ghost stored_at = { λ c x m. served_at c.number x m };

    ghost own_above = { λ c x m. served_above_own x m };

    ghost own_at = { λ c x m h. own_less c.number x m h.0 h.1 };

    ghost old_fits = { λ c x m h. one_own c.number x m h.0 h.1 };
}

/// Whether a queue's own state is RUNNING.
#[derive(Drop)]
pub(crate) struct Running;

impl<const K: usize, A: Allocator> Test<Queue<K, A>> for Running {
    ghost passes = { λ t q. q.running };

    fn passes(&self, item: &Queue<K, A>) -> bool {
        item.is_running()
    }
}
