//! The tree of queues, seen as the list of its rows (`QueueTree`): its reads, and its changes at a queue.
ghost use Rattle.std.specs.Prelude.{◌≡◌, ◌<◌, ◌≤◌, ◌+◌, ◌==◌, length, ◌++◌, ◌∷◌, [], map, None, Some, false, true, IfErr, IfOk, IfSome, MatchOption, OnOk, OnErr, ◌⊎◌};
ghost use Rattle.std.specs.List.{All};
ghost use Rattle.cap_vector.specs.Vector.{IsWithin, amounts_exchanged, sum_max};
ghost use Rattle.cap_base.specs.Limits.{factor_max, number_end, queues_max};
ghost use Rattle.cap_base.specs.Trees.{depth, has_same_paths};
ghost use Rattle.cap_base.specs.Cascade.{holds_of};
ghost use Rattle.cap_tree.specs.Branch.{AreSpots};
ghost use Rattle.cap_tree.specs.Growth.{IsGrowing};
ghost use Rattle.cap_tree.specs.Limits.{over_limit};
ghost use Rattle.cap_tree.specs.Paths.{TreeFitsInMemory};
ghost use Rattle.cap_tree.specs.Count.{IsPart};
ghost use Rattle.cap_tree.specs.Queue.{IsUnused, MayGive, MayLeave, count_in, stays_in_user_limit, use_of};
ghost use Rattle.cap_tree.specs.Rows.{AreRows, FindsQueue, HasRoomAtRoot, active_in, applied_row, entered_row, is_running, left_row, lowered_row, moved_rows, queues_of, root_use, served_row, used_at, user_row_at, waiting_row, with_row, with_row_of_path, with_state};
ghost use Rattle.cap_tree.specs.Service.{HasNoChildAfter, IsNextChild};
ghost use Rattle.cap_tree.specs.Spot.{IsPosition, item_at, path_at};
ghost use Rattle.cap_tree.specs.Waiting.{HasNoWaiter, HasRoomAt, IsNextWaiter, waiting_at, waits_in};
ghost use Rattle.cap_base.specs.Members.{IsIn};

use crate::branch::{Branch, Marked};
use crate::change::{Move, Running, Serve, SetSettings, SetState, Wait};
use crate::count::Part;
use crate::found::{Found, Kind, Path};
use crate::over_limit::{InMaximum, OverLimit};
use crate::queue::Queue;
use cap_base::{Config, NoMemory, QueueRow, ShortText};
use cap_vector::{Resource, Sum};
use smallvec::SmallVec;
use std::alloc::Allocator;
use std::cmp::Ordering;
use std::marker::Model;

/// A tree of queues. Each queue keeps what is used and active in it and under it, and a leaf its users. Contracts see the
/// list of rows, each queue before those under it.
#[derive(Drop)]
pub struct QueueTree<const K: usize, A: Allocator> {
    root: Branch<Queue<K, A>, A>,
    start: Path<A>,
}

impl<const K: usize, A: Allocator> Model for QueueTree<K, A> {
    ghost use Rattle.std.specs.Prelude.{List};
    ghost use Rattle.std.specs.Coded.{codes};
    ghost use Rattle.cap_tree.specs.Queue.{users_code};
    ghost use Rattle.cap_tree.specs.Rows.{IsQueueTree, Row};

    ghost Value = { List Row };

    ghost coded = { Prim.hlevel (codes, users_code) };

    ghost view = { λ t. t.root };

    ghost invariant = { λ t. IsQueueTree t.root t.start };
}

impl<const K: usize, A: Allocator + Copy> QueueTree<K, A> {
    /// The tree of the settings' queues, with nothing in it. An error means that an allocation failed.
    pub fn from_config(alloc: A, config: &Config<K>) -> Result<QueueTree<K, A>, NoMemory>
        requires { TreeFitsInMemory K.row A.row A.Allocator }
        ensures queues { IfOk result (λ tree. queues_of tree ≡ config.now.queues) }
        ensures unused { IfOk result (λ tree. All (λ r. IsUnused K r.item) tree) }
    {
        let [first, others @ ..] = config.queues() else {
            unreachable!()
        };
        let queue = match Queue::new(alloc, &first.path(), first) {
            Ok(queue) => queue,
            Err(NoMemory) => return Err(NoMemory),
        };
        let mut root = Branch::leaf(alloc, queue);
        match add_all(alloc, &mut root, others) {
            Ok(()) => {}
            Err(NoMemory) => return Err(NoMemory),
        }
        root.sort_waiting();
        Ok(QueueTree {
            root,
            start: SmallVec::new(alloc),
        })
    }

    /// An equal tree under another allocator. An error means that an allocation failed.
    pub fn copy_in<B: Allocator + Copy>(&self, alloc: B) -> Result<QueueTree<K, B>, NoMemory>
        ensures { IfOk result (λ tree. tree ≡ self.now) }
    {
        match self.root.copy_in(alloc) {
            Ok(root) => Ok(QueueTree {
                root,
                start: SmallVec::new(alloc),
            }),
            Err(NoMemory) => Err(NoMemory),
        }
    }

    /// The queues, with those under each. And what `find` says of every tree.
    pub fn root(&self) -> &Branch<Queue<K, A>, A>
        ensures queues { result.now ≡ self.now }
        ensures rows { AreRows self.now }
    {
        &self.root
    }

    /// What is found at a dotted path. It takes no memory, and looks only at the queues on the way and at their siblings. And what
    /// is true of every tree: each path is there once and each queue before those under it, at most 15 levels under the root, a
    /// position leads to another exactly where the path is the other's or begins it before a dot, and a queue has the last name of
    /// its path.
    pub fn find(&self, path: &[u8]) -> Found<A>
        ensures found { FindsQueue path.now self.now result }
        ensures rows { AreRows self.now }
    {
        let mut position = SmallVec::new(*self.start.allocator());
        match self.root.find(path, &mut position) {
            None => Found::Missing,
            Some(Kind::Leaf) => Found::Leaf(position),
            Some(Kind::Parent) => Found::Parent(position),
        }
    }

    /// Whether the queue and all above it are RUNNING.
    pub fn running(&self, path: &Path<A>) -> bool
        requires { IsPosition self.now path.now.items }
        ensures { result ≡ is_running self.now (path_at path.now.items self.now) }
    {
        self.root.first_failing(path.as_slice(), &Running).is_none()
    }

    /// Sets the queue's own state, and nothing else.
    pub fn set_state(&mut self, path: &Path<A>, running: bool)
        requires { IsPosition self.old path.now.items }
        ensures { self.new ≡ map (with_state (path_at path.now.items self.old) running) self.old }
    {
        let change = SetState { running };
        let Ok(()) = self.root.change(path.as_slice(), &change) else {
            unreachable!()
        };
    }

    /// Whether the queues of the settings have exactly the paths of the queues of the tree. It takes no memory.
    pub fn same_paths(&self, config: &Config<K>) -> bool
        ensures { result ≡ has_same_paths config.now.queues (queues_of self.now) }
    {
        let queues = config.queues();
        for queue in queues {
            let path = queue.path();
            if let Found::Missing = self.find(path.as_bytes()) {
                return false;
            }
        }
        self.has_count(queues.len())
    }

    /// Whether it has so many queues. And what is true of every tree, as `find` says it.
    fn has_count(&self, count: usize) -> bool
        ensures is { result ≡ (length self.now == count) }
        ensures rows { AreRows self.now }
    {
        let Some(left) = self.root.count_down(count) else {
            return false;
        };
        left == 0
    }

    /// Sets the settings of the queue at a position to those of a row of its path, and nothing else.
    fn set_row(&mut self, path: &Path<A>, row: &QueueRow<K>)
        requires position { IsPosition self.old path.now.items }
        requires path { path_at path.now.items self.old ≡ row.now.path }
        requires factor { row.now.factor ≤ factor_max }
        ensures { self.new ≡ map (with_row row.now) self.old }
    {
        let change = SetSettings { row };
        let Ok(()) = self.root.change(path.as_slice(), &change) else {
            unreachable!()
        };
    }

    /// Sets the settings of each queue to those of the row of its path: what it is guaranteed, its maximum, its user limit factor
    /// and its own state. What is counted stays. It takes no memory.
    pub fn set_limits(&mut self, config: &Config<K>)
        requires { has_same_paths config.now.queues (queues_of self.old) ≡ true }
        ensures { self.new ≡ map (with_row_of_path config.now.queues) self.old }
    {
        let rows = config.queues();
        for row in rows {
            let path = row.path();
            match self.find(path.as_bytes()) {
                Found::Leaf(position) => self.set_row(&position, row),
                Found::Parent(position) => self.set_row(&position, row),
                Found::Missing => unreachable!(),
            }
        }
    }

    /// Takes an old part away from what is counted of a user in the leaf, of the leaf and of each queue above it, and adds a new
    /// one. `NoMemory` changes nothing, and comes only where the user has no row, or more applications are active.
    fn change(&mut self, path: &Path<A>, change: &Move<'_, K>) -> Result<(), NoMemory>
        requires position { IsPosition self.old path.now.items }
        requires fits { IsPart change.now.old
            (count_in K (user_row_at path.now.items change.now.user.now self.old)) }
        requires within { HasRoomAtRoot change.now.old change.now.new self.old }
        ensures ok { OnOk result (self.new ≡ moved_rows K path.now.items
            change.now.user.now change.now.old change.now.new self.old) }
        ensures err { OnErr result (self.new ≡ self.old) }
        ensures grows { OnErr result
            ((user_row_at path.now.items change.now.user.now self.old ≡ None)
            ⊎ (change.now.old.active < change.now.new.active)) }
    {
        match self.root.change(path.as_slice(), change) {
            Ok(()) => {}
            Err(NoMemory) => return Err(NoMemory),
        }
        Ok(())
    }

    /// One more application of the user becomes active in the leaf: it counts there, at each queue above, and for the user, and there is
    /// room for it among those that wait. `NoMemory` changes nothing.
    pub fn enter(&mut self, path: &Path<A>, user: &ShortText) -> Result<(), NoMemory>
        requires position { IsPosition self.old path.now.items }
        requires few { active_in self.old < number_end }
        ensures ok { OnOk result
            (self.new ≡ map (entered_row K (path_at path.now.items self.old) user.now) self.old) }
        ensures err { OnErr result (self.new ≡ self.old) }
    {
        let change = Move {
            user,
            old: Part::zero(),
            new: Part::app(),
        };
        self.change(path, &change)
    }

    /// One application of the user in the leaf is active no more: it counts neither there nor at the queues above nor for the user,
    /// who has no row any more after the last.
    pub fn leave(&mut self, path: &Path<A>, user: &ShortText)
        requires { MayLeave (user_row_at path.now.items user.now self.old) }
        ensures { self.new ≡ map (left_row K (path_at path.now.items self.old) user.now) self.old }
    {
        let change = Move {
            user,
            old: Part::app(),
            new: Part::zero(),
        };
        let Ok(()) = self.change(path, &change) else {
            unreachable!()
        };
    }

    /// The user gives so much, in MiB, vcores and GPUs, of its use in the leaf back: the use of the leaf, of each queue above
    /// and of the user falls by it.
    pub fn give_back(&mut self, path: &Path<A>, user: &ShortText, r: &Resource<K>)
        requires { MayGive r.now (user_row_at path.now.items user.now self.old) }
        ensures { self.new ≡
            map (lowered_row K (path_at path.now.items self.old) user.now r.now) self.old }
    {
        let change = Move {
            user,
            old: Part::use_alone(r),
            new: Part::zero(),
        };
        let Ok(()) = self.change(path, &change) else {
            unreachable!()
        };
    }

    /// The user's use in the leaf changes from `old` to `new`, in MiB, vcores and GPUs: `old` is taken away and `new` added, at
    /// the leaf, at each queue above and for the user. It takes no memory.
    pub fn apply(&mut self, path: &Path<A>, user: &ShortText, old: &Resource<K>, new: &Resource<K>)
        requires may { MayGive old.now (user_row_at path.now.items user.now self.old) }
        requires within { IsWithin sum_max (amounts_exchanged old.now new.now (root_use self.old)) }
        ensures { self.new ≡
            map (applied_row K (path_at path.now.items self.old) user.now old.now new.now)
            self.old }
    {
        let change = Move {
            user,
            old: Part::use_alone(old),
            new: Part::use_alone(new),
        };
        let Ok(()) = self.change(path, &change) else {
            unreachable!()
        };
    }

    /// Whether the user's use in the leaf may change from `old` to `new`, in MiB, vcores and GPUs: with `old` taken away and
    /// `new` added, the use of each queue from `root` down to the leaf is within its maximum, and the user's within the user
    /// limit of the leaf. The error is the first of these limits that would be passed.
    pub fn accept(
        &self,
        path: &Path<A>,
        user: &ShortText,
        old: &Resource<K>,
        new: &Resource<K>,
    ) -> Result<(), OverLimit>
        requires { IsPosition self.now path.now.items }
        ensures ok { OnOk result
            (over_limit K path.now.items user.now old.now new.now self.now ≡ None) }
        ensures err { IfErr result (λ e.
            over_limit K path.now.items user.now old.now new.now self.now ≡ Some e) }
        ensures rows { AreRows self.now }
    {
        let test = InMaximum { old, new };
        if let Some(level) = self.root.first_failing(path.as_slice(), &test) {
            return Err(OverLimit::Maximum { level });
        }
        if !self.stays_in_user_limit(path, user, old, new) {
            return Err(OverLimit::User);
        }
        Ok(())
    }

    /// Whether the user stays within the user limit of the leaf, with `old` taken away and `new` added.
    fn stays_in_user_limit(
        &self,
        path: &Path<A>,
        user: &ShortText,
        old: &Resource<K>,
        new: &Resource<K>,
    ) -> bool
        requires { IsPosition self.now path.now.items }
        ensures { result ≡ holds_of (stays_in_user_limit K user.now old.now new.now)
            (item_at path.now.items self.now) }
    {
        let leaf = self.root.get(path.as_slice());
        leaf.stays_in_user_limit(user, old, new)
    }

    /// How many applications are active in all.
    pub fn active(&self) -> u64
        ensures { result ≡ active_in self.now }
    {
        self.root.item().active()
    }

    /// What is used in all, in MiB, vcores and GPUs: the use of `root`. And what is true of every tree, as `find` says it.
    pub fn used(&self) -> Sum<K>
        ensures all { result ≡ root_use self.now }
        ensures rows { AreRows self.now }
    {
        self.root.item().used()
    }

    /// The queue.
    pub fn row(&self, path: &Path<A>) -> &Queue<K, A>
        requires { IsPosition self.now path.now.items }
        ensures { item_at path.now.items self.now ≡ Some result.now }
    {
        self.root.get(path.as_slice())
    }

    /// The index of the child of the queue that is served next after that child, and of the first where none is named: the
    /// less full child first, and of two that are as full the lesser name in byte order. None where no child is left. It takes
    /// no memory.
    pub fn next_child(&self, path: &Path<A>, after: Option<u32>) -> Option<u32>
        requires position { IsPosition self.now path.now.items }
        requires after { IfSome after (λ i. IsPosition self.now (path.now.items ++ i ∷ [])) }
        ensures { MatchOption result (HasNoChildAfter self.now path.now.items after)
            (IsNextChild self.now path.now.items after) }
    {
        self.root.next_child(path.as_slice(), after)
    }

    /// An application of the leaf waits there from now on. It takes no memory: the room was made when the application entered.
    pub fn wait(&mut self, path: &Path<A>, number: u64)
        requires number { 1 ≤ number }
        requires other { ¬ IsIn number (waiting_at path.now.items self.old) }
        requires room { HasRoomAt path.now.items self.old }
        requires few { waits_in self.old < number_end }
        ensures { self.new ≡ map (waiting_row number (path_at path.now.items self.old)) self.old }
    {
        let change = Wait { number };
        let Ok(()) = self.root.change(path.as_slice(), &change) else {
            unreachable!()
        };
    }

    /// An application that waited at the queue does so no more.
    pub fn serve(&mut self, path: &Path<A>, number: u64)
        requires { IsIn number (waiting_at path.now.items self.old) }
        ensures { self.new ≡ map (served_row number (path_at path.now.items self.old)) self.old }
    {
        let change = Serve { number };
        let Ok(()) = self.root.change(path.as_slice(), &change) else {
            unreachable!()
        };
    }

    /// Whether an application waits at the queue.
    pub fn has_waiting(&self, path: &Path<A>, number: u64) -> bool
        requires { IsPosition self.now path.now.items }
        ensures there { result ≡ true → IsIn number (waiting_at path.now.items self.now) }
        ensures absent { result ≡ false → ¬ IsIn number (waiting_at path.now.items self.now) }
    {
        self.root.get(path.as_slice()).has_waiting(number)
    }

    /// The application that is served first of those that wait: at the first level below `root` where two queues differ, that under the
    /// less full queue, of two that are as full the lesser name in byte order, and of two at one queue the lesser number. None where none
    /// waits. It goes level by level to the least full child in which something waits, and takes no memory.
    pub fn first_served(&self) -> Option<u64>
        ensures { MatchOption result (HasNoWaiter self.now None) (IsNextWaiter self.now None) }
    {
        if !self.root.top().waits() {
            return None;
        }
        Some(self.root.first_waiting())
    }

    /// The application that is served next after one that waits at a queue. None where none is left. It takes no memory.
    pub fn next_served(&self, path: &Path<A>, number: u64) -> Option<u64>
        requires { IsIn number (waiting_at path.now.items self.now) }
        ensures { MatchOption result (HasNoWaiter self.now (Some (path.now.items, number)))
            (IsNextWaiter self.now (Some (path.now.items, number))) }
    {
        self.root.places_differ();
        let position = path.as_slice();
        match self.root.get(position).waiting_after(number) {
            Some(next) => Some(next),
            None => self.root.next_waiting(position),
        }
    }

    /// What is used in the queue and under it, in MiB, vcores and GPUs.
    pub fn use_of(&self, path: &Path<A>) -> Sum<K>
        requires { IsPosition self.now path.now.items }
        ensures { result ≡ used_at path.now.items self.now }
    {
        self.root.get(path.as_slice()).used()
    }

    /// What a user uses in the leaf, in MiB, vcores and GPUs: 0 of each where the user has no row. A copy of the cluster asks for each
    /// application that waits.
    #[inline(always)]
    pub fn user_use(&self, path: &Path<A>, user: &ShortText) -> Sum<K>
        requires { IsPosition self.now path.now.items }
        ensures { result ≡ use_of K (user_row_at path.now.items user.now self.now) }
    {
        self.root.get(path.as_slice()).user_use(user)
    }
}

/// Adds a queue for each row, each under the one that its path names.
fn add_all<const K: usize, A: Allocator + Copy>(
    alloc: A,
    root: &mut Branch<Queue<K, A>, A>,
    rows: &[QueueRow<K>],
) -> Result<(), NoMemory>
    requires growing { IsGrowing K root.old rows.now }
    requires few { length root.old + length rows.now ≤ queues_max }
    requires tree { AreSpots (λ q. q.name) root.old }
    ensures tree { AreSpots (λ q. q.name) root.new }
    ensures grown { OnOk result (IsGrowing K root.new []) }
    ensures queues { OnOk result (queues_of root.new ≡ queues_of root.old ++ rows.now) }
{
    for row in rows {
        let path = row.path();
        let levels = depth(path.as_bytes()) - 1;
        let queue = match Queue::new(alloc, &path, row) {
            Ok(queue) => queue,
            Err(NoMemory) => return Err(NoMemory),
        };
        match root.add(alloc, levels, queue) {
            Ok(()) => {}
            Err(NoMemory) => return Err(NoMemory),
        }
    }
    Ok(())
}

/// How far down the queue of a path is: the dots of the path.
fn depth(path: &[u8]) -> usize
    ensures { result ≡ depth path.now }
{
    path.iter().filter(|b| **b == b'.').count()
}
