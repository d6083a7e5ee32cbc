//! A fault and what it is about, beyond its line and its kind (`DetailedFault`, `Detail`).
ghost use Rattle.std.specs.Prelude.{◌≡◌, find};
ghost use Rattle.std.specs.Option.{option_map, option_copied};
ghost use Rattle.cap_config.specs.Index.{IsIndex};
ghost use Rattle.cap_base.specs.properties.Keys.{parts_at_last_dot};
ghost use Rattle.cap_config.specs.Details.{detailed, earlier, has_key, same_queue, allocation_detail, unlisted, unlisted_at, over_maximum, over_own, limit_of, over_parent, over_above, over_capacity, over_some};

use crate::allocation::{maximum_allocation, minimum_allocation};
use crate::guarantees::added_below;
use crate::index::{Index, entry_at};
use crate::key::split_last_dot;
use crate::queues::{amounts_at, guaranteed, maximum, missing_path};
use crate::setting::same_setting;
use cap_base::properties::{ConfigFault, ConfigFaultKind, Entry, Key, Setting, Value};
use cap_base::{PathText, RESOURCES, ShortText};
use cap_vector::Resource;
use std::alloc::{AllocError, AllocFailed};

/// The first fault of a text, and what it is about.
#[derive(Clone, Copy, Debug)]
pub struct DetailedFault {
    pub fault: ConfigFault,
    pub detail: Detail,
}

/// What there is to say of a fault beyond its line and its kind.
#[derive(Clone, Copy, Debug)]
pub enum Detail {
    /// Nothing.
    Plain,
    /// An earlier line that sets the same property.
    Earlier(usize),
    /// The property whose value has another form or range.
    Form(Setting),
    /// The first path, from `root` on, that is not listed by the queue above it.
    Unlisted(PathText),
    /// Amounts in MiB, vcores and GPUs, of which at least one is over its limit.
    Over {
        limit: Limit,
        amounts: [u64; RESOURCES],
        most: [u64; RESOURCES],
    },
}

/// What amounts are compared with.
#[derive(Clone, Copy, Debug)]
pub enum Limit {
    /// The maximum allocation, for a minimum allocation.
    MaximumAllocation,
    /// The queue's own maximum capacity, for a capacity.
    OwnMaximum,
    /// The maximum capacity that a queue has from one above, for a capacity.
    InheritedMaximum,
    /// The maximum capacity of the queue above, its own or inherited, for a maximum capacity.
    MaximumAbove,
    /// The queue's capacity, for the sum of the capacities of the queues below.
    OwnCapacity,
}

/// The fault of this kind at this line, with its detail.
pub fn detailed(line: usize, kind: ConfigFaultKind, detail: Detail) -> DetailedFault
    ensures { result ≡ detailed line kind detail }
{
    DetailedFault {
        fault: ConfigFault { line, kind },
        detail,
    }
}

impl From<AllocError> for DetailedFault {
    ghost use Rattle.std.specs.Prelude.{◌≡◌};
    ghost use Rattle.cap_config.specs.Details.{no_room};

    ghost from_gives = { λ _ e. e ≡ no_room };

    fn from(e: AllocError) -> DetailedFault {
        DetailedFault {
            fault: ConfigFault::from(e),
            detail: Detail::Plain,
        }
    }
}

impl<T: Drop> From<AllocFailed<T>> for DetailedFault {
    ghost use Rattle.std.specs.Prelude.{◌≡◌};
    ghost use Rattle.cap_config.specs.Details.{no_room};

    ghost from_gives = { λ _ e. e ≡ no_room };

    fn from(e: AllocFailed<T>) -> DetailedFault {
        DetailedFault {
            fault: ConfigFault::from(e),
            detail: Detail::Plain,
        }
    }
}

/// The line among the entries so far that sets the property of this key.
pub fn earlier(entries: &[Entry], key: &Key) -> Detail
    ensures { result ≡ earlier entries.now key.now }
{
    match set_by(entries, key) {
        Some(entry) => Detail::Earlier(entry.line),
        None => Detail::Plain,
    }
}

fn set_by<'e, 't>(entries: &'e [Entry<'t>], key: &Key) -> Option<&'e Entry<'t>>
    ensures { option_copied result ≡ find (has_key key.now) entries.now }
{
    entries.iter().find(|entry| has_key(entry, key))
}

fn has_key(entry: &Entry, key: &Key) -> bool
    ensures { result ≡ has_key key.now entry.now }
{
    same_setting(entry.setting, key.setting) && same_queue(&entry.queue, &key.queue)
}

fn same_queue(a: &Option<PathText>, b: &Option<PathText>) -> bool
    ensures { result ≡ same_queue a.now b.now }
{
    match (a, b) {
        (Some(a), Some(b)) => a.as_bytes() == b.as_bytes(),
        (None, None) => true,
        _ => false,
    }
}

/// A minimum allocation over the maximum allocation.
#[tactic(auto, unfolding(crate::specs::Details::allocation_detail))]
pub fn allocation_detail(entries: &[Entry]) -> Detail
    ensures { result ≡ allocation_detail entries.now }
{
    Detail::Over {
        limit: Limit::MaximumAllocation,
        amounts: minimum_allocation(entries),
        most: maximum_allocation(entries),
    }
}

/// Amounts over a limit, if there is one.
fn over_some(
    limit: Limit,
    amounts: &Resource<RESOURCES>,
    most: Option<Resource<RESOURCES>>,
) -> Detail
    ensures { result ≡ over_some limit amounts.now most }
{
    match most {
        Some(most) => Detail::Over {
            limit,
            amounts: amounts.amounts(),
            most: most.amounts(),
        },
        None => Detail::Plain,
    }
}

/// The queue that is not listed on the way to a queue.
pub fn unlisted(index: &Index, queue: &Option<PathText>) -> Detail
    requires { IsIndex index.now }
    ensures { result ≡ unlisted index.now.entries.now queue.now }
{
    match queue {
        Some(path) => unlisted_at(missing_path(index, path.as_bytes())),
        None => Detail::Plain,
    }
}

#[tactic(auto, unfolding(crate::specs::Details::unlisted_at))]
fn unlisted_at(path: Option<&[u8]>) -> Detail
    ensures { result ≡ unlisted_at (option_map (λ path. path.now) path.entry) }
{
    let Some(bytes) = path else {
        return Detail::Plain;
    };
    match PathText::new(bytes) {
        Some(path) => Detail::Unlisted(path),
        None => Detail::Plain,
    }
}

/// A capacity over the maximum capacity of its queue.
pub fn over_maximum(index: &Index, entry: &Entry) -> Detail
    requires { IsIndex index.now }
    ensures { result ≡ over_maximum index.now.entries.now entry.now.queue entry.now.value }
{
    match (&entry.value, &entry.queue) {
        (Value::Amounts(amounts), Some(path)) => over_own(index, path.as_bytes(), amounts),
        _ => Detail::Plain,
    }
}

#[tactic(auto, unfolding(crate::specs::Details::over_own))]
fn over_own(index: &Index, path: &[u8], amounts: &Resource<RESOURCES>) -> Detail
    requires { IsIndex index.now }
    ensures { result ≡ over_own index.now.entries.now path.now amounts.now }
{
    let own = amounts_at(entry_at(&index.maximum_capacity, path));
    over_some(limit_of(own), amounts, maximum(index, path))
}

/// What the capacity of a queue is compared with that has this maximum capacity of its own.
fn limit_of(own: Option<Resource<RESOURCES>>) -> Limit
    ensures { result ≡ limit_of own }
{
    match own {
        Some(_) => Limit::OwnMaximum,
        None => Limit::InheritedMaximum,
    }
}

/// A maximum capacity over that of the queue above, or capacities that add up to more than that of the queue above.
pub fn over_parent(index: &Index, entry: &Entry) -> Detail
    requires { IsIndex index.now }
    ensures { result ≡ over_parent index.now.entries.now entry.now.queue entry.now.value }
{
    match (&entry.value, &entry.queue) {
        (Value::Amounts(amounts), Some(path)) => over_above(index, amounts, path.as_bytes()),
        (Value::Names(names), Some(path)) => over_capacity(index, path, names.names()),
        _ => Detail::Plain,
    }
}

fn over_above(index: &Index, amounts: &Resource<RESOURCES>, path: &[u8]) -> Detail
    requires { IsIndex index.now }
    ensures { result ≡ over_above index.now.entries.now amounts.now (parts_at_last_dot path.now) }
{
    match split_last_dot(path) {
        Some((parent, _)) => over_some(Limit::MaximumAbove, amounts, maximum(index, parent)),
        None => Detail::Plain,
    }
}

fn over_capacity(index: &Index, path: &PathText, names: &[ShortText]) -> Detail
    requires { IsIndex index.now }
    ensures { result ≡ over_capacity index.now.entries.now path.now names.now }
{
    Detail::Over {
        limit: Limit::OwnCapacity,
        amounts: added_below(index, path, names),
        most: guaranteed(index, path.as_bytes()).amounts(),
    }
}
