//! One queue of the tree (`Queue`): its settings, what is used and active in it and under it, a leaf's users by hash.
ghost use Rattle.std.specs.Prelude.{◌≡◌, ◌<◌, ◌≤◌, ◌⊎◌, None, false, true, IfOk, OnOk, OnErr, bytes_eq, length, vec_capacity};
ghost use Rattle.std.specs.FinMap.{from_entries};
ghost use Rattle.std.specs.Option.{option_copied};
ghost use Rattle.indexmap.specs.IndexMap.{get};
ghost use Rattle.cap_vector.specs.Fullness.{shares};
ghost use Rattle.cap_base.specs.Paths.{name_of};
ghost use Rattle.cap_tree.specs.Count.{IsPart, MayMove};
ghost use Rattle.cap_base.specs.Members.{IsIn};
ghost use Rattle.cap_tree.specs.Measure.{Measure};
ghost use Rattle.cap_tree.specs.Numbers.{AreNumbers, IsNextNumber, IsPlaceOf};
ghost use Rattle.cap_tree.specs.Queue.{IsUnused, HasSettingsOf, MayGrow, active_of, count_in, moved_above, moved_at, of_queue, of_users, queue_count, served_above, stays_in_maximum, stays_in_user_limit, use_of, user_row, waiting_above, waiting_less, waiting_more, with_count, with_running, with_settings};

use crate::branch::{CopyIn, Marked, Served, TreeItem};
use crate::count::{Part, Total, moved};
use crate::over_limit::fits_in_maximum;
use cap_base::{NoMemory, PathText, QueueRow, ShortText};
use cap_vector::{Resource, Shares, Sum, cmp_shares, fits_exchanged};
use indexmap::IndexMap;
use std::alloc::Allocator;
use std::cmp::Ordering;
use std::hash::{BuildHasherDefault, FoldHasher};
use std::marker::Model;

/// Up to how many users of a queue are looked at one after the other.
const FEW_USERS: usize = 4;

type Users<const K: usize, A> = IndexMap<ShortText, Total<K>, BuildHasherDefault<FoldHasher>, A>;

/// A queue: its settings, and what is used and active in it and under it. Contracts see it as the record of these and of
/// what is counted of each of its own users, in no order. The shares of its use are kept, since each comparison asks for them.
#[derive(Drop)]
pub struct Queue<const K: usize, A: Allocator> {
    name: Vec<u8, A>,
    guaranteed: Resource<K>,
    maximum: Option<Resource<K>>,
    factor: u64,
    running: bool,
    count: Total<K>,
    shares: Shares<K>,
    users: Users<K, A>,
    // The numbers of the applications that wait at it, in order, with room for all that are active there; and how many wait at it
    // and under it.
    waiting: Vec<u64, A>,
    waits: u64,
}

impl<const K: usize, A: Allocator> Model for Queue<K, A> {
    ghost use Rattle.std.specs.Coded.{codes};
    ghost use Rattle.std.specs.FinMap.{from_entries};
    ghost use Rattle.std.specs.Prelude.{vec_capacity};
    ghost use Rattle.cap_tree.specs.Queue.{IsKept, Queue as Row, users_code};

    ghost Value = { Row };

    ghost coded = { Prim.hlevel (codes, users_code) };

    ghost view = { λ q. record {
      name = q.name.items;
      guaranteed = q.guaranteed;
      maximum = q.maximum;
      factor = q.factor;
      running = q.running;
      used = q.count.used;
      active = q.count.active;
      users = from_entries q.users.entries;
      waiting = q.waiting.items;
      waits = q.waits;
    } };

    ghost invariant = { λ q. IsKept q.count.used q.guaranteed q.shares
        (from_entries q.users.entries) (vec_capacity q.waiting) };
}

impl<const K: usize, A: Allocator> TreeItem for Queue<K, A> {
    ghost use Rattle.std.specs.Prelude.{nat_lt};
    ghost use Rattle.cap_tree.specs.Queue.{of_queue, of_users};
    ghost use Rattle.cap_tree.specs.Service.{queue_cmp};

    ghost name = { λ q. q.name };

    ghost stored = { of_queue };

    ghost own = { of_users };

    ghost waits = { λ q. nat_lt 0 q.waits };

    ghost order = { queue_cmp };

    fn name(&self) -> &[u8] {
        &self.name
    }
}

impl<const K: usize, A: Allocator, B: Allocator + Copy> CopyIn<Queue<K, B>, B> for Queue<K, A> {
    ghost use Rattle.std.specs.Prelude.{refl};

    ghost copied = { λ q. q };

    fn copy_in(&self, alloc: B) -> Result<Queue<K, B>, NoMemory> {
        let Ok(name) = Vec::from_slice(alloc, &self.name) else {
            return Err(NoMemory);
        };
        let users = match copy_users(alloc, &self.users) {
            Ok(users) => users,
            Err(NoMemory) => return Err(NoMemory),
        };
        let waiting = match copy_numbers(alloc, &self.waiting) {
            Ok(waiting) => waiting,
            Err(NoMemory) => return Err(NoMemory),
        };
        Ok(Queue {
            name,
            guaranteed: self.guaranteed,
            maximum: self.maximum,
            factor: self.factor,
            running: self.running,
            count: self.count,
            shares: self.shares,
            users,
            waiting,
            waits: self.waits,
        })
    }

    ghost name_copied = { λ x. refl };

    ghost stored_copied = { λ x m. refl };

    ghost own_copied = { λ x m. refl };
}

impl<const K: usize, A: Allocator> Served for Queue<K, A> {
    ghost use Rattle.cap_tree.specs.ServiceLaws.{queue_cmp_total, same_name};

    fn cmp_served(&self, other: &Queue<K, A>) -> Ordering {
        let order = cmp_shares(&self.shares, &other.shares);
        if order.is_ne() {
            return order;
        }
        self.name.as_slice().cmp(other.name.as_slice())
    }

    ghost total = { queue_cmp_total };

    ghost names = { same_name };
}

impl<const K: usize, A: Allocator> Marked for Queue<K, A> {
    ghost use Rattle.cap_tree.specs.Numbers.{first_number};

    ghost mark = { λ q. first_number q.waiting };

    fn mark(&self) -> u64 {
        match self.waiting.first() {
            None => 0,
            Some(number) => *number,
        }
    }

    fn waits(&self) -> bool {
        self.waits > 0
    }
}

impl<const K: usize, A: Allocator + Copy> Queue<K, A> {
    /// The queue of a row of the settings, with nothing in it.
    pub(crate) fn new(alloc: A, path: &PathText, row: &QueueRow<K>) -> Result<Queue<K, A>, NoMemory>
        requires { path.now ≡ row.now.path }
        ensures { IfOk result (λ q. HasSettingsOf row.now q × IsUnused K q) }
    {
        let Ok(name) = Vec::from_slice(alloc, last_name(path.as_bytes())) else {
            return Err(NoMemory);
        };
        let guaranteed = row.guaranteed();
        let count = Total::zero();
        Ok(Queue {
            name,
            guaranteed,
            maximum: row.maximum(),
            factor: row.factor(),
            running: row.is_running(),
            count,
            shares: Shares::of(&count.used, &guaranteed),
            users: IndexMap::new(alloc),
            waiting: Vec::new(alloc),
            waits: 0,
        })
    }
}

impl<const K: usize, A: Allocator> Queue<K, A> {
    /// What it is guaranteed, in MiB, vcores and GPUs.
    pub fn guaranteed(&self) -> Resource<K>
        ensures { result ≡ self.now.guaranteed }
    {
        self.guaranteed
    }

    /// Up to where it may grow, in MiB, vcores and GPUs. None where nothing bounds it.
    pub fn maximum(&self) -> Option<Resource<K>>
        ensures { result ≡ self.now.maximum }
    {
        self.maximum
    }

    /// Its user limit factor.
    pub fn factor(&self) -> u64
        ensures { result ≡ self.now.factor }
    {
        self.factor
    }

    /// Whether its own state is RUNNING.
    pub fn is_running(&self) -> bool
        ensures { result ≡ self.now.running }
    {
        self.running
    }

    /// What is used in it and under it, in MiB, vcores and GPUs.
    pub fn used(&self) -> Sum<K>
        ensures { result ≡ self.now.used }
    {
        self.count.used
    }

    /// The shares of its guarantee that are used in it and under it.
    pub fn shares(&self) -> Shares<K>
        ensures { result ≡ shares self.now.used self.now.guaranteed }
    {
        self.shares
    }

    /// How many applications are active in it and under it.
    pub fn active(&self) -> u64
        ensures { result ≡ self.now.active }
    {
        self.count.active
    }

    /// What a user uses in it, in MiB, vcores and GPUs: 0 of each where the user has no row.
    #[inline(always)]
    pub fn user_use(&self, user: &ShortText) -> Sum<K>
        ensures { result ≡ use_of K (user_row user.now self.now.users) }
    {
        match row_of(&self.users, user) {
            None => Sum::zero(),
            Some(count) => count.used,
        }
    }

    /// How many applications of a user are active in it: 0 where the user has no row.
    pub fn user_active(&self, user: &ShortText) -> u64
        ensures { result ≡ (count_in K (user_row user.now self.now.users)).active }
    {
        self.user(user).active
    }

    /// What is counted of a user: nothing where the user has no row.
    fn user(&self, user: &ShortText) -> Total<K>
        ensures { result ≡ count_in K (user_row user.now self.now.users) }
    {
        match row_of(&self.users, user) {
            None => Total::zero(),
            Some(count) => *count,
        }
    }

    /// Whether it stays within its maximum with `old` taken away and `new` added: always where nothing bounds it.
    pub(crate) fn stays_in_maximum(&self, old: &Resource<K>, new: &Resource<K>) -> bool
        ensures { result ≡ stays_in_maximum old.now new.now self.now }
    {
        fits_in_maximum(&self.maximum, &self.count.used, old, new)
    }

    /// Whether a user stays within its user limit with `old` taken away and `new` added.
    pub(crate) fn stays_in_user_limit(
        &self,
        user: &ShortText,
        old: &Resource<K>,
        new: &Resource<K>,
    ) -> bool
        ensures { result ≡ stays_in_user_limit K user.now old.now new.now self.now }
    {
        let used = self.user_use(user);
        fits_exchanged(&used, old, new, self.factor, &self.guaranteed)
    }

    /// Takes an old part away from what is counted in it and under it, and adds a new one.
    pub(crate) fn move_below(&mut self, old: &Part<K>, new: &Part<K>)
        requires fits { IsPart old.now (queue_count self.old) }
        requires within { MayMove old.now new.now (queue_count self.old) }
        ensures { self.new ≡ moved_above old.now new.now self.old }
    {
        let count = moved(&self.count, old, new);
        self.shares = Shares::of(&count.used, &self.guaranteed);
        self.count = count;
    }

    /// Takes an old part away from what is counted of a user and of the queue, and adds a new one. `NoMemory` changes nothing, and
    /// comes only where the user has no row, or more applications are active.
    pub(crate) fn move_user(
        &mut self,
        user: &ShortText,
        old: &Part<K>,
        new: &Part<K>,
    ) -> Result<(), NoMemory>
        requires fits { IsPart old.now (count_in K (user_row user.now self.old.users)) }
        requires within { MayMove old.now new.now (queue_count self.old) }
        requires sums { (m : Measure) → of_users self.old m ≤ of_queue self.old m }
        ensures ok { OnOk result (self.new ≡ moved_at K user.now old.now new.now self.old) }
        ensures err { OnErr result (self.new ≡ self.old) }
        ensures grows { OnErr result (MayGrow user.now old.now new.now self.old) }
    {
        let own = moved(&self.user(user), old, new);
        let count = moved(&self.count, old, new);
        match make_room(&mut self.waiting, old.active, new.active, count.active) {
            Ok(()) => {}
            Err(NoMemory) => return Err(NoMemory),
        }
        match set_user(&mut self.users, user, own) {
            Ok(()) => {}
            Err(NoMemory) => return Err(NoMemory),
        }
        self.shares = Shares::of(&count.used, &self.guaranteed);
        self.count = count;
        Ok(())
    }

    /// One more waits at a queue under it.
    pub(crate) fn wait_above(&mut self)
        requires { self.old.waits < 18446744073709551615 }
        ensures { self.new ≡ waiting_above self.old }
    {
        self.waits += 1;
    }

    /// An application of its own waits at it. It takes no memory.
    pub(crate) fn wait_at(&mut self, number: u64)
        requires few { self.old.waits < 18446744073709551615 }
        requires numbers { AreNumbers self.old.waiting }
        requires other { ¬ IsIn number self.old.waiting }
        requires room { length self.old.waiting < active_of self.old.users }
        ensures { self.new ≡ waiting_more number self.old }
    {
        let place = place_of(&self.waiting, number);
        let Ok(()) = self.waiting.insert(place, number) else {
            unreachable!()
        };
        self.waits += 1;
    }

    /// One that waited at a queue under it does so no more.
    pub(crate) fn serve_above(&mut self)
        requires { 1 ≤ self.old.waits }
        ensures { self.new ≡ served_above self.old }
    {
        self.waits -= 1;
    }

    /// An application that waited at it does so no more.
    pub(crate) fn serve_at(&mut self, number: u64)
        requires some { 1 ≤ self.old.waits }
        requires numbers { AreNumbers self.old.waiting }
        requires there { IsIn number self.old.waiting }
        ensures { self.new ≡ waiting_less number self.old }
    {
        let place = place_of(&self.waiting, number);
        self.waiting.remove(place - 1);
        self.waits -= 1;
    }

    /// Whether an application waits at it.
    pub(crate) fn has_waiting(&self, number: u64) -> bool
        requires { AreNumbers self.now.waiting }
        ensures there { result ≡ true → IsIn number self.now.waiting }
        ensures absent { result ≡ false → ¬ IsIn number self.now.waiting }
    {
        let waiting = self.waiting.as_slice();
        let place = place_of(waiting, number);
        if place == 0 {
            return false;
        }
        waiting[place - 1] == number
    }

    /// The number that waits at it next after that one.
    pub(crate) fn waiting_after(&self, number: u64) -> Option<u64>
        requires { AreNumbers self.now.waiting }
        ensures { IsNextNumber number self.now.waiting result }
    {
        let waiting = self.waiting.as_slice();
        let place = place_of(waiting, number);
        waiting.get(place).copied()
    }

    /// Sets its settings to those of a row. What is counted of it stays.
    pub(crate) fn set_settings(&mut self, row: &QueueRow<K>)
        ensures { self.new ≡ with_settings row.now self.old }
    {
        let guaranteed = row.guaranteed();
        self.shares = Shares::of(&self.count.used, &guaranteed);
        self.guaranteed = guaranteed;
        self.maximum = row.maximum();
        self.factor = row.factor();
        self.running = row.is_running();
    }

    /// Sets its own state.
    pub(crate) fn set_running(&mut self, running: bool)
        ensures { self.new ≡ with_running running self.old }
    {
        self.running = running;
    }
}

/// Sets what is counted of a user: where that is nothing, the user has no row any more. `NoMemory` changes nothing, and comes only
/// where the user has no row.
fn set_user<const K: usize, A: Allocator>(
    users: &mut Users<K, A>,
    user: &ShortText,
    count: Total<K>,
) -> Result<(), NoMemory>
    ensures ok { OnOk result (from_entries users.new.entries
        ≡ with_count user.now count.entry (from_entries users.old.entries)) }
    ensures err { OnErr result (users.new.entries ≡ users.old.entries) }
    ensures absent { OnErr result (user_row user.now (from_entries users.old.entries) ≡ None) }
{
    if count.is_zero() {
        users.swap_remove(user);
        return Ok(());
    }
    match users.insert(*user, count) {
        Ok(_) => {}
        Err(_) => return Err(NoMemory),
    }
    Ok(())
}

/// Room for so many numbers in all, where more come than go. `NoMemory` changes nothing, and comes only there.
fn make_room<A: Allocator>(
    numbers: &mut Vec<u64, A>,
    go: u64,
    come: u64,
    count: u64,
) -> Result<(), NoMemory>
    ensures items { numbers.new.items ≡ numbers.old.items }
    ensures room { vec_capacity numbers.old ≤ vec_capacity numbers.new }
    ensures ok { OnOk result ((come ≤ go) ⊎ (count ≤ vec_capacity numbers.new)) }
    ensures err { OnErr result (go < come) }
{
    if come <= go {
        return Ok(());
    }
    let more = (count as usize).saturating_sub(numbers.len());
    match numbers.reserve(more) {
        Ok(()) => {}
        Err(_) => return Err(NoMemory),
    }
    Ok(())
}

/// The same numbers under another allocator, with as much room. The error means that an allocation failed.
fn copy_numbers<A: Allocator, B: Allocator + Copy>(
    alloc: B,
    numbers: &Vec<u64, A>,
) -> Result<Vec<u64, B>, NoMemory>
    ensures items { IfOk result (λ copy. copy.items ≡ numbers.now.items) }
    ensures room { IfOk result (λ copy. vec_capacity numbers.now ≤ vec_capacity copy) }
{
    let Ok(mut copy) = Vec::with_capacity(alloc, numbers.capacity()) else {
        return Err(NoMemory);
    };
    let Ok(()) = copy.extend_from_slice(numbers) else {
        return Err(NoMemory);
    };
    Ok(copy)
}

/// The same users under another allocator, with room for all at once. The error means that an allocation failed.
fn copy_users<const K: usize, A: Allocator, B: Allocator + Copy>(
    alloc: B,
    users: &Users<K, A>,
) -> Result<Users<K, B>, NoMemory>
    ensures { IfOk result (λ copy. copy.entries ≡ users.now.entries) }
{
    let Ok(mut copy) = IndexMap::with_capacity(alloc, users.len()) else {
        return Err(NoMemory);
    };
    for (user, count) in users.iter() {
        let Ok(_) = copy.insert(*user, *count) else {
            return Err(NoMemory);
        };
    }
    Ok(copy)
}

/// The row of a user, none where the user has none. Of a few users each is looked at, which costs less than a hash.
#[inline(always)]
fn row_of<'a, const K: usize, A: Allocator>(
    users: &'a Users<K, A>,
    user: &ShortText,
) -> Option<&'a Total<K>>
    ensures { option_copied result ≡ get bytes_eq users.now user.now }
{
    if users.len() > FEW_USERS {
        return hashed_row(users, user);
    }
    for index in 0..users.len() {
        if let Some((name, count)) = users.get_index(index) {
            if name == user {
                return Some(count);
            }
        }
    }
    None
}

/// The same by the user's hash. It is a call of its own, so that a look at a few users costs nothing that only a hash needs.
#[inline(never)]
fn hashed_row<'a, const K: usize, A: Allocator>(
    users: &'a Users<K, A>,
    user: &ShortText,
) -> Option<&'a Total<K>>
    ensures { option_copied result ≡ get bytes_eq users.now user.now }
{
    users.get(user)
}

/// How many numbers in order are not greater than that one, by a binary search.
fn place_of(numbers: &[u64], number: u64) -> usize
    requires { AreNumbers numbers.now }
    ensures { IsPlaceOf number numbers.now result }
{
    let mut low = 0;
    let mut high = numbers.len();
    while low < high {
        let middle = low + (high - low) / 2;
        if number < numbers[middle] {
            high = middle;
        } else {
            low = middle + 1;
        }
    }
    low
}

/// The last name of a dotted path.
fn last_name(path: &[u8]) -> &[u8]
    ensures { result.now ≡ name_of path.now }
{
    let mut start = path.len();
    while start > 0 && path[start - 1] != b'.' {
        start -= 1;
    }
    &path[start..]
}
