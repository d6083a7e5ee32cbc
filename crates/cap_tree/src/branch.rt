//! A tree of items over any allocator, seen as a list of its spots (`Branch`): changed, tested, copied and walked.
ghost use Rattle.std.specs.Prelude.{◌≡◌, ◌+◌, ◌-◌, ◌<◌, ◌≤◌, ◌==◌, ◌∷◌, [], ℕ, List, Some, Bool, true, IfSome, IfOk, OnOk, OnErr, MatchOption, if◌then◌else◌, map, length, ◌++◌};
ghost use Rattle.std.specs.List.{All};
ghost use Rattle.std.specs.Cmp.{IsTotalOrder};
ghost use Rattle.std.specs.Option.{option_copied};
ghost use Rattle.std.specs.declared.cmp.Ordering.{Ordering};
ghost use Rattle.std.specs.declared.cmp.Ordering.TheVariants.{Equal};
ghost use Rattle.cap_tree.specs.Measure.{Measure, MayChange};
ghost use Rattle.cap_tree.specs.Spot.{HoldsOfItem, IsAdded, IsPosition, along, change_along, first, first_failing, has_below, item_at, made_of, spots};
ghost use Rattle.cap_tree.specs.Finding.{IsFound, IsStart, is_parent};
ghost use Rattle.cap_base.specs.Cascade.{holds_of};
ghost use Rattle.cap_tree.specs.Branch.{AreSpots, IsBranch, root_count};
ghost use Rattle.cap_tree.specs.Service.{AreApart, AreSorted, HasNoneAfter, HasPathsOnce, HasOrderOfOthers, IsFirstAfter, IsOrderOf, IsPlaceAfter, IsTakenOut, IsTop, child_item, children_at, is_after, is_before, kid_items, that_pass};
ghost use Rattle.cap_tree.specs.Walk.{AreMarked, HasNoMarkAfter, HasNoMarkBelow, IsFirstMark, IsMarkAfter, IsMarkBelow, mark_at, place_cmp};

use crate::found::{Kind, Path};
use cap_base::NoMemory;
use std::alloc::Allocator;
use std::cmp::Ordering;
use std::marker::Model;

/// What a branch holds: a name, counts of what is its own and all below, whether something waits at it or below it, and its place in
/// the order of service.
pub trait TreeItem {
    ghost name: { Self → List ℕ };

    ghost stored: { Self → Measure → ℕ };

    ghost own: { Self → Measure → ℕ };

    ghost waits: { Self → Bool };

    ghost order: { Self → Self → Ordering };

    /// Its name among its siblings.
    fn name(&self) -> &[u8]
        ensures { result.now ≡ name self.now };
}

/// A change of an item and of those above it, which takes an old count away and adds a new one.
pub trait Change<T: TreeItem> {
    ghost old: { Self → Measure → ℕ };

    ghost new: { Self → Measure → ℕ };

    ghost above: { Self → T → T };

    ghost at: { Self → T → T };

    ghost can: { Self → T → Type 0 };

    ghost grows: { Self → T → Type 0 };

    /// Changes an item above the one that is changed. It takes no memory.
    fn change_above(&self, item: &mut T)
        requires fits { (m : Measure) → old self.now m ≤ T.stored item.old m }
        requires within { MayChange (T.stored item.old) (old self.now) (new self.now) }
        ensures { item.new ≡ above self.now item.old };

    /// Changes the item itself. `NoMemory` changes nothing, and comes only where the item grows.
    fn change_at(&self, item: &mut T) -> Result<(), NoMemory>
        requires can { can self.now item.old }
        requires within { MayChange (T.stored item.old) (old self.now) (new self.now) }
        requires sums { (m : Measure) → T.own item.old m ≤ T.stored item.old m }
        ensures ok { OnOk result (item.new ≡ at self.now item.old) }
        ensures err { OnErr result (item.new ≡ item.old) }
        ensures grows { OnErr result (grows self.now item.old) };

    ghost name_above: { (c : Self) (x : T) → T.name (above c x) ≡ T.name x };

    ghost name_at: { (c : Self) (x : T) → T.name (at c x) ≡ T.name x };

    ghost stored_above: { (c : Self) (x : T) (m : Measure) →
        T.stored (above c x) m ≡ (T.stored x m - old c m) + new c m };

    ghost stored_at: { (c : Self) (x : T) (m : Measure) →
        T.stored (at c x) m ≡ (T.stored x m - old c m) + new c m };

    ghost own_above: { (c : Self) (x : T) (m : Measure) → T.own (above c x) m ≡ T.own x m };

    ghost own_at: { (c : Self) (x : T) (m : Measure) → can c x →
        T.own (at c x) m ≡ (T.own x m - old c m) + new c m };

    ghost old_fits: { (c : Self) (x : T) (m : Measure) → can c x → old c m ≤ T.own x m };
}

/// A test of an item.
pub trait Test<T> {
    ghost passes: { Self → T → Bool };

    /// Whether an item passes it.
    fn passes(&self, item: &T) -> bool
        ensures { result ≡ passes self.now item.now };
}

/// A copy of an item under another allocator.
pub trait CopyIn<U: TreeItem, B: Allocator>: TreeItem {
    ghost copied: { Self → U };

    /// The copy. An error means that an allocation failed.
    fn copy_in(&self, alloc: B) -> Result<U, NoMemory>
        ensures { IfOk result (λ copy. copy ≡ copied self.now) };

    ghost name_copied: { (x : Self) → U.name (copied x) ≡ Self.name x };

    ghost stored_copied: { (x : Self) (m : Measure) → U.stored (copied x) m ≡ Self.stored x m };

    ghost own_copied: { (x : Self) (m : Measure) → U.own (copied x) m ≡ Self.own x m };
}

/// An item that knows its place in the order of service.
pub trait Served: TreeItem {
    /// Which of two siblings is served first: the lesser.
    fn cmp_served(&self, other: &Self) -> Ordering
        ensures { result ≡ Self.order self.now other.now };

    ghost total: { IsTotalOrder Self.order };

    ghost names: { (x y : Self) → Self.order x y ≡ Equal → Self.name x ≡ Self.name y };
}

/// An item with a mark of what waits at it, 0 for nothing.
pub trait Marked: Served {
    ghost mark: { Self → ℕ };

    /// The mark, which is 0 where nothing waits at it.
    fn mark(&self) -> u64
        ensures { result ≡ mark self.now };

    /// Whether something waits at it or below it.
    fn waits(&self) -> bool
        ensures { result ≡ Self.waits self.now };
}

/// Whether something waits at an item or below it.
#[derive(Drop)]
struct Waits;

impl<T: Marked> Test<T> for Waits {
    ghost passes = { λ t x. T.waits x };

    fn passes(&self, item: &T) -> bool {
        item.waits()
    }
}

/// It passes every item.
#[derive(Drop)]
struct Every;

impl<T> Test<T> for Every {
    ghost use Rattle.std.specs.Prelude.{true};

    ghost passes = { λ t x. true };

    fn passes(&self, _item: &T) -> bool {
        true
    }
}

/// An item, with the trees under it.
#[derive(Drop)]
pub struct Branch<T: TreeItem, A: Allocator> {
    item: T,
    children: Vec<Branch<T, A>, A>,
    // Indexes of the children that were added, in the order of their names, which no proof knows: a search looks there first, and then at all.
    names: Vec<u32, A>,
    // Where it is sorted, indexes of the children in which something waits, in the order of service. There is room for all children.
    order: Vec<u32, A>,
    is_sorted: bool,
}

impl<T: TreeItem, A: Allocator> Model for Branch<T, A> {
    ghost use Rattle.std.specs.Prelude.{◌≡◌, List, length, true, ℕ};
    ghost use Rattle.std.specs.Coded.{coded_list};
    ghost use Rattle.std.proofs.Common.{arith};
    ghost use Rattle.cap_tree.specs.Branch.{IsBranch};
    ghost use Rattle.cap_tree.specs.Service.{IsOrderOf, kid_items, that_pass};
    ghost use Rattle.cap_tree.specs.Spot.{Spot, spot_code, spots, most_le-length-below};

    ghost Value = { List (Spot T) };

    ghost coded = { coded_list (spot_code T.code) };

    ghost view = { λ b. spots T.name b.item b.children.items };

    ghost invariant = { λ b. IsBranch T.name T.stored T.own b.item b.children.items
        × (b.is_sorted ≡ true
        → IsOrderOf T.order (that_pass T.waits (kid_items b.children.items))
        (length b.children.items) b.order.items) };

    ghost size = { length };

    ghost size_decreases = { λ b h. Prim.omega
        (arith, most_le-length-below (T.name b.item) 0 b.children.items) };
}

impl<T: TreeItem + Drop, A: Allocator + Copy> Branch<T, A> {
    /// A tree of that item alone.
    pub fn leaf(alloc: A, item: T) -> Branch<T, A>
        requires { (m : Measure) → T.stored item m ≡ T.own item m }
        ensures { result ≡ spots T.name item [] }
    {
        Branch {
            item,
            children: Vec::new(alloc),
            names: Vec::new(alloc),
            order: Vec::new(alloc),
            is_sorted: false,
        }
    }

    /// Adds the item as the last child of the queue so many levels down on the way to the last queue. `NoMemory` changes
    /// nothing, and comes only where an allocation fails.
    pub fn add(&mut self, alloc: A, levels: usize, item: T) -> Result<(), NoMemory>
        requires stored { (m : Measure) → T.stored item m ≡ 0 }
        requires own { (m : Measure) → T.own item m ≡ 0 }
        requires few { length self.old ≤ 4294967295 }
        ensures ok { OnOk result (IsAdded levels (T.name item) item self.old self.new) }
        ensures err { OnErr result (self.new ≡ self.old) }
        ensures kept { (m : Measure) →
            root_count T.stored self.new m ≡ root_count T.stored self.old m }
        ensures tree { AreSpots T.name self.new }
    {
        if levels == 0 {
            return self.add_child(alloc, item);
        }
        match self.children.last_mut() {
            Some(last) => {
                self.is_sorted = false;
                last.add(alloc, levels - 1, item)
            }
            None => self.add_child(alloc, item),
        }
    }

    /// Adds the item as the last child of the first. `NoMemory` changes nothing.
    fn add_child(&mut self, alloc: A, item: T) -> Result<(), NoMemory>
        requires stored { (m : Measure) → T.stored item m ≡ 0 }
        requires own { (m : Measure) → T.own item m ≡ 0 }
        requires few { length self.old ≤ 4294967295 }
        ensures ok { OnOk result (IsAdded 0 (T.name item) item self.old self.new) }
        ensures err { OnErr result (self.new ≡ self.old) }
        ensures kept { (m : Measure) →
            root_count T.stored self.new m ≡ root_count T.stored self.old m }
        ensures tree { AreSpots T.name self.new }
    {
        self.is_sorted = false;
        self.order.clear();
        match self.children.reserve(1) {
            Ok(()) => {}
            Err(_) => return Err(NoMemory),
        }
        match self.order.reserve(self.children.len() + 1) {
            Ok(()) => {}
            Err(_) => return Err(NoMemory),
        }
        let place = place_of(&self.children, &self.names, item.name());
        match self.names.insert(place, self.children.len() as u32) {
            Ok(()) => {}
            Err(_) => return Err(NoMemory),
        }
        self.children.push_reserved(Branch::leaf(alloc, item));
        Ok(())
    }

    /// Changes the item that the steps lead to, and those above it. Children that were sorted stay so: one is moved at each level. `NoMemory`
    /// changes nothing, and comes only where that item grows.
    pub fn change<C: Change<T>>(&mut self, steps: &[u32], change: &C) -> Result<(), NoMemory>
    where
        T: Marked,
        requires once { HasPathsOnce self.old }
        requires can { HoldsOfItem (C.can change.now) (item_at steps.now self.old) }
        requires within { MayChange (root_count T.stored self.old)
            (C.old change.now) (C.new change.now) }
        ensures changed { OnOk result
            (self.new ≡
            map (change_along (C.above change.now) (C.at change.now) steps.now) self.old) }
        ensures unchanged { OnErr result (self.new ≡ self.old) }
        ensures grows { OnErr result
            (HoldsOfItem (C.grows change.now) (item_at steps.now self.old)) }
        ensures fitted { (m : Measure) → C.old change.now m ≤ root_count T.stored self.old m }
        ensures moved { OnOk result ((m : Measure) →
            root_count T.stored self.new m
            ≡ (root_count T.stored self.old m - C.old change.now m) + C.new change.now m) }
    {
        match steps {
            [] => change.change_at(&mut self.item),
            [i, rest @ ..] => {
                let was_sorted = self.is_sorted;
                self.is_sorted = false;
                let child = &mut self.children[*i as usize];
                match child.change(rest, change) {
                    Err(NoMemory) => {
                        self.is_sorted = was_sorted;
                        Err(NoMemory)
                    }
                    Ok(()) => {
                        change.change_above(&mut self.item);
                        self.is_sorted = move_child(
                            &self.children,
                            was_sorted,
                            &mut self.order,
                            *i,
                        );
                        Ok(())
                    }
                }
            }
        }
    }

    /// The item of the root.
    pub fn item(&self) -> &T
        ensures { first self.now ≡ Some result.now }
    {
        &self.item
    }

    /// What is left of a number after 1 is taken away for each item of the tree. None where there are more items.
    pub fn count_down(&self, count: usize) -> Option<usize>
        ensures { MatchOption result (count < length self.now)
            (λ left. left + length self.now ≡ count) }
    {
        let children = self.children.len();
        if count == 0 {
            return None;
        }
        let mut left = count - 1;
        for i in 0..children {
            let child = &self.children[i];
            let Some(rest) = child.count_down(left) else {
                return None;
            };
            left = rest;
        }
        Some(left)
    }

    /// The item that the steps lead to.
    pub fn get(&self, steps: &[u32]) -> &T
        requires { IsPosition self.now steps.now }
        ensures { item_at steps.now self.now ≡ Some result.now }
    {
        match steps {
            [] => &self.item,
            [i, rest @ ..] => {
                let child = &self.children[*i as usize];
                child.get(rest)
            }
        }
    }

    /// The least level on the way that the steps lead, from the root as level 0, whose item does not pass the test.
    pub fn first_failing<C: Test<T>>(&self, steps: &[u32], test: &C) -> Option<usize>
        requires { IsPosition self.now steps.now }
        ensures level { result ≡ first_failing (C.passes test.now) (along steps.now self.now) }
        ensures within { IfSome result (λ level. level ≤ length steps.now) }
    {
        if !test.passes(&self.item) {
            return Some(0);
        }
        match steps {
            [] => None,
            [i, rest @ ..] => {
                let child = &self.children[*i as usize];
                match child.first_failing(rest, test) {
                    None => None,
                    Some(level) => Some(level + 1),
                }
            }
        }
    }

    /// Whether it has children.
    fn kind(&self) -> Kind
        ensures { is_parent result ≡ has_below [] self.now }
    {
        if self.children.is_empty() {
            Kind::Leaf
        } else {
            Kind::Parent
        }
    }

    /// Whether the item at the dotted path has children, and its position, in an empty one with all its room. None where no item
    /// has the path. It takes no memory. At each level it looks first at the child that a search by names finds.
    pub fn find(&self, path: &[u8], position: &mut Path<A>) -> Option<Kind>
        requires once { HasPathsOnce self.now }
        requires short { All (λ s. length s.position ≤ 15) self.now }
        requires start { IsStart position.old }
        ensures { IsFound path.now self.now position.new result }
    {
        let Some(rest) = path.strip_prefix(self.item.name()) else {
            return None;
        };
        let below = match rest {
            [] => return Some(self.kind()),
            [first, below @ ..] => {
                if *first != b'.' {
                    return None;
                }
                below
            }
        };
        if self.children.is_empty() {
            return None;
        }
        let guess = guess(&self.children, &self.names, below);
        for turn in 0..self.children.len() + 1 {
            let i = looked_at(turn, guess);
            let child = &self.children[i];
            if let Some(kind) = child.find(below, position) {
                let Ok(()) = position.insert(0, i as u32) else {
                    unreachable!()
                };
                return Some(kind);
            }
        }
        None
    }

    /// A copy of the tree under another allocator, the children of an item in one piece of memory, with room for their order. The error
    /// means that an allocation failed.
    pub fn copy_in<U: TreeItem + Drop, B: Allocator + Copy>(
        &self,
        alloc: B,
    ) -> Result<Branch<U, B>, NoMemory>
    where
        T: CopyIn<U, B>,
        ensures { IfOk result (λ copy. copy ≡ map (made_of T.copied) self.now) }
    {
        let item = match self.item.copy_in(alloc) {
            Ok(item) => item,
            Err(NoMemory) => return Err(NoMemory),
        };
        let Ok(mut children) = Vec::with_capacity(alloc, self.children.len()) else {
            return Err(NoMemory);
        };
        let Ok(order) = Vec::with_capacity(alloc, self.children.len()) else {
            return Err(NoMemory);
        };
        for child in &self.children {
            match child.copy_in(alloc) {
                Ok(copy) => children.push_reserved(copy),
                Err(NoMemory) => return Err(NoMemory),
            }
        }
        Ok(Branch {
            item,
            children,
            names: Vec::new(alloc),
            order,
            is_sorted: false,
        })
    }

    /// Its own item, which is above all others.
    pub fn top(&self) -> &T
        ensures { IsTop T.name result.now self.now }
    {
        &self.item
    }

    /// The index of the child that is served next after that one, the first where none is named, under the item that the steps
    /// lead to. None where no child is left. It takes no memory.
    pub fn next_child(&self, steps: &[u32], after: Option<u32>) -> Option<u32>
    where
        T: Served,
        requires position { IsPosition self.now steps.now }
        requires after { IfSome after (λ i. IsPosition self.now (steps.now ++ i ∷ [])) }
        ensures { MatchOption result
            (HasNoneAfter T.order (children_at steps.now self.now) after)
            (IsFirstAfter T.order (children_at steps.now self.now) after) }
    {
        match steps {
            [] => self.next_below(&Every, after),
            [i, rest @ ..] => {
                let child = &self.children[*i as usize];
                child.next_child(rest, after)
            }
        }
    }

    /// The index of the child of its own item that is served next after that one, the first where none is named, of those that pass
    /// the test.
    fn next_below<C: Test<T>>(&self, test: &C, after: Option<u32>) -> Option<u32>
    where
        T: Served,
        requires { IfSome after (λ i.
            holds_of (C.passes test.now) (item_at (i ∷ []) self.now) ≡ true) }
        ensures { MatchOption result
            (HasNoneAfter T.order (that_pass (C.passes test.now) (children_at [] self.now)) after)
            (IsFirstAfter T.order (that_pass (C.passes test.now) (children_at [] self.now)) after) }
    {
        let last = self.child(after);
        let mut next = None;
        for i in 0..self.children.len() {
            let child = self.children[i].top();
            if test.passes(child) && is_after(child, last) && is_before(child, self.child(next)) {
                next = Some(i as u32);
            }
        }
        next
    }

    /// The item of the child with that index, if one is named.
    fn child(&self, index: Option<u32>) -> Option<&T>
        requires { IfSome index (λ i. IsPosition self.now (i ∷ [])) }
        ensures { option_copied result ≡ child_item self.now index }
    {
        match index {
            None => None,
            Some(i) => Some(self.children[i as usize].top()),
        }
    }

    /// The index of the child of its own item that is served next after that one, the first where none is named, of those in which
    /// something waits. Where the children are sorted, it costs a binary search, else a look at each.
    fn next_that_waits(&self, after: Option<u32>) -> Option<u32>
    where
        T: Marked,
        requires { IfSome after (λ i. holds_of T.waits (item_at (i ∷ []) self.now) ≡ true) }
        ensures { MatchOption result
            (HasNoneAfter T.order (that_pass T.waits (children_at [] self.now)) after)
            (IsFirstAfter T.order (that_pass T.waits (children_at [] self.now)) after) }
    {
        if !self.is_sorted {
            return self.next_below(&Waits, after);
        }
        let place = match self.child(after) {
            None => 0,
            Some(last) => place_after(&self.children, &self.order, last, self.order.len()),
        };
        self.order.get(place).copied()
    }

    /// Sorts the children of each item in which something waits by the order of service, for `first_waiting` and `next_waiting`. It takes no
    /// memory; where there is no room, children stay as they were.
    pub fn sort_waiting(&mut self)
    where
        T: Marked,
        requires once { HasPathsOnce self.old }
        ensures { self.new ≡ self.old }
    {
        for i in 0..self.children.len() {
            self.children[i].sort_waiting();
        }
        self.is_sorted = sort_children(&self.children, &mut self.order);
    }

    /// The mark that is served first: its own item's, or else the first in the first child in which something waits.
    pub fn first_waiting(&self) -> u64
    where
        T: Marked,
        requires once { HasPathsOnce self.now }
        requires marked { AreMarked T.mark T.waits self.now }
        requires some { holds_of T.waits (item_at [] self.now) ≡ true }
        ensures { IsFirstMark T.order T.mark self.now result }
    {
        let mark = self.item.mark();
        if mark != 0 {
            return mark;
        }
        let Some(child) = self.next_that_waits(None) else {
            unreachable!()
        };
        self.children[child as usize].first_waiting()
    }

    /// The mark that is served first of those in the children after that one. None where nothing waits in these.
    fn first_below(&self, after: Option<u32>) -> Option<u64>
    where
        T: Marked,
        requires once { HasPathsOnce self.now }
        requires marked { AreMarked T.mark T.waits self.now }
        requires after { IfSome after (λ i.
            holds_of T.waits (item_at (i ∷ []) self.now) ≡ true) }
        ensures { MatchOption result
            (HasNoMarkBelow T.order T.mark self.now after)
            (IsMarkBelow T.order T.mark self.now after) }
    {
        match self.next_that_waits(after) {
            None => None,
            Some(child) => Some(self.children[child as usize].first_waiting()),
        }
    }

    /// The mark that is served next after the one of the item that the steps lead to. None where none is left.
    pub fn next_waiting(&self, after: &[u32]) -> Option<u64>
    where
        T: Marked,
        requires once { HasPathsOnce self.now }
        requires marked { AreMarked T.mark T.waits self.now }
        requires after { 1 ≤ mark_at T.mark after.now self.now }
        ensures { MatchOption result
            (HasNoMarkAfter T.order T.mark self.now after.now)
            (IsMarkAfter T.order T.mark self.now after.now) }
    {
        match after {
            [] => self.first_below(None),
            [i, rest @ ..] => {
                let child = &self.children[*i as usize];
                match child.next_waiting(rest) {
                    Some(mark) => Some(mark),
                    None => self.first_below(Some(*i)),
                }
            }
        }
    }

    /// No two items are alike in the order of service. It does nothing.
    pub fn places_differ(&self)
    where
        T: Served,
        requires { HasPathsOnce self.now }
        ensures { (p q : List ℕ) → IsPosition self.now p → IsPosition self.now q →
            place_cmp T.order self.now p q ≡ Equal → p ≡ q }
    {
        let _ = &self.item;
    }
}

/// The index of the child that a search looks at in a turn: a guess first, and then each child.
fn looked_at(turn: usize, guess: usize) -> usize
    ensures { result ≡ if turn == 0 then guess else turn - 1 }
{
    if turn == 0 { guess } else { turn - 1 }
}

/// A child that may have the first name of a dotted path: the one that is found in the order of names, else the first.
fn guess<T: TreeItem + Drop, A: Allocator + Copy>(
    children: &[Branch<T, A>],
    names: &[u32],
    path: &[u8],
) -> usize
    requires { 1 ≤ length children.now }
    ensures { result < length children.now }
{
    let place = place_of(children, names, first_name(path));
    match names.get(place) {
        Some(index) if (*index as usize) < children.len() => *index as usize,
        _ => 0,
    }
}

/// How many of the children of these indexes, which are in the order of names, have a lesser name, by a binary search.
fn place_of<T: TreeItem + Drop, A: Allocator + Copy>(
    children: &[Branch<T, A>],
    names: &[u32],
    name: &[u8],
) -> usize
    ensures { result ≤ length names.now }
{
    let mut low = 0;
    let mut high = names.len();
    while low < high {
        let middle = low + (high - low) / 2;
        if is_named_before(children, names[middle], name) {
            low = middle + 1;
        } else {
            high = middle;
        }
    }
    low
}

/// Whether the child of an index has a lesser name: false where there is none.
fn is_named_before<T: TreeItem + Drop, A: Allocator + Copy>(
    children: &[Branch<T, A>],
    index: u32,
    name: &[u8],
) -> bool {
    match children.get(index as usize) {
        Some(child) => child.top().name().cmp(name).is_lt(),
        None => false,
    }
}

/// The first name of a dotted path.
fn first_name(path: &[u8]) -> &[u8] {
    match path.iter().position(|byte| *byte == b'.') {
        Some(end) => &path[..end],
        None => path,
    }
}

/// Puts the indexes of the children in which something waits in the order of service. Whether there was room for all.
fn sort_children<T: Marked + Drop, A: Allocator + Copy>(
    children: &[Branch<T, A>],
    order: &mut Vec<u32, A>,
) -> bool
    requires apart { AreApart T.order (kid_items children.now) }
    requires few { length children.now ≤ 4294967295 }
    ensures { result ≡ true → IsOrderOf T.order (that_pass T.waits (kid_items children.now))
        (length children.now) order.new.items }
{
    order.clear();
    let mut last = 0;
    for i in 0..children.len() {
        let child = children[i].top();
        if child.waits() {
            last = place_after(children, order, child, last);
            match order.insert(last, i as u32) {
                Ok(()) => {}
                Err(_) => return false,
            }
        }
    }
    true
}

/// Puts the index of a child that was changed where the child belongs among those in which something waits, where the others are in the order
/// of service. Whether all are in order now: they were, and there was room.
fn move_child<T: Marked + Drop, A: Allocator + Copy>(
    children: &[Branch<T, A>],
    was_sorted: bool,
    order: &mut Vec<u32, A>,
    index: u32,
) -> bool
    requires apart { AreApart T.order (kid_items children.now) }
    requires index { index < length children.now }
    requires others { was_sorted ≡ true → HasOrderOfOthers T.order
        (that_pass T.waits (kid_items children.now)) (length children.now) index order.old.items }
    ensures { result ≡ true → IsOrderOf T.order (that_pass T.waits (kid_items children.now))
        (length children.now) order.new.items }
{
    if !was_sorted {
        return false;
    }
    let old = take_out(order, index);
    let child = children[index as usize].top();
    if !child.waits() {
        return true;
    }
    let place = place_after(children, order, child, old);
    match order.insert(place, index) {
        Ok(()) => true,
        Err(_) => false,
    }
}

/// Takes an index out of an order, if it is there: the place that it had, and else that after the last.
fn take_out<A: Allocator>(order: &mut Vec<u32, A>, index: u32) -> usize
    ensures { IsTakenOut index order.old.items order.new.items }
{
    for place in 0..order.len() {
        if order[place] == index {
            order.remove(place);
            return place;
        }
    }
    order.len()
}

/// How many of the children in the order of service are not served after that item, by a binary search. It looks at a guess first, where
/// that is in the order, and from there on in ever greater steps: so of queues that follow one another each costs two comparisons.
fn place_after<T: Marked + Drop, A: Allocator + Copy>(
    children: &[Branch<T, A>],
    order: &[u32],
    item: &T,
    guess: usize,
) -> usize
    requires { AreSorted T.order (that_pass T.waits (kid_items children.now)) order.now }
    ensures { IsPlaceAfter T.order (that_pass T.waits (kid_items children.now)) item.now
        order.now result }
{
    let mut low = 0;
    let mut high = order.len();
    let mut near = guess;
    let mut step = 1usize;
    while low < high {
        let middle = place_within(low, high, near);
        near = near.saturating_add(step);
        step = step.saturating_add(step);
        if item
            .cmp_served(children[order[middle] as usize].top())
            .is_lt()
        {
            high = middle;
        } else {
            low = middle + 1;
        }
    }
    low
}

/// A place of a range: the one given where it is in the range, and else the middle one.
fn place_within(low: usize, high: usize, near: usize) -> usize
    requires { low < high }
    ensures { (low ≤ result) × (result < high) }
{
    if low <= near && near < high {
        near
    } else {
        low + (high - low) / 2
    }
}

/// Whether an item is served after that one: always where there is none.
fn is_after<T: Served>(item: &T, last: Option<&T>) -> bool
    ensures { result ≡ is_after T.order item.now (option_copied last.entry) }
{
    match last {
        None => true,
        Some(last) => last.cmp_served(item).is_lt(),
    }
}

/// Whether an item is served before that one: always where there is none.
fn is_before<T: Served>(item: &T, next: Option<&T>) -> bool
    ensures { result ≡ is_before T.order item.now (option_copied next.entry) }
{
    match next {
        None => true,
        Some(next) => item.cmp_served(next).is_lt(),
    }
}
