//! The tests of capacities and maximum capacities, each of a queue's own and of those of the queue above.
ghost use Rattle.std.specs.Prelude.{◌≡◌, ◌+◌, find};
ghost use Rattle.std.specs.Option.{option_copied};
ghost use Rattle.cap_vector.specs.Vector.{amount, by_amount};
ghost use Rattle.cap_base.specs.Limits.{resources};
ghost use Rattle.cap_config.specs.Details.{added_below, capped};
ghost use Rattle.cap_config.specs.Index.{IsIndex};
ghost use Rattle.cap_base.specs.properties.Tests.{exceeds, exceeds_limit, is_over_limit, is_over_maximum, is_over_parts, is_overspent, is_over_parent};
ghost use Rattle.cap_base.specs.properties.Keys.{parts_at_last_dot};

use crate::index::{Index, child_bytes};
use crate::key::split_last_dot;
use crate::queues::{guaranteed, is_root, maximum};
use crate::setting::same_setting;
use cap_base::properties::{Entry, Setting, Value};
use cap_base::{PathText, RESOURCES, ShortText};
use cap_vector::Resource;

/// The first entry that guarantees a queue more than its maximum capacity, own or inherited.
pub fn over_maximum_entry<'e, 't>(index: &Index<'e, 't>) -> Option<&'e Entry<'t>>
    requires { IsIndex index.now }
    ensures { option_copied result
        ≡ find (is_over_maximum index.now.entries.now) index.now.entries.now }
{
    let mut entries = index.entries.iter();
    entries.find(|entry| is_over_maximum(index, entry))
}

fn is_over_maximum(index: &Index, entry: &Entry) -> bool
    requires { IsIndex index.now }
    ensures { result ≡ is_over_maximum index.now.entries.now entry.now }
{
    same_setting(entry.setting, Setting::Capacity) && is_over_limit(index, entry)
}

fn is_over_limit(index: &Index, entry: &Entry) -> bool
    requires { IsIndex index.now }
    ensures { result ≡ is_over_limit index.now.entries.now entry.now.queue entry.now.value }
{
    match (&entry.value, &entry.queue) {
        (Value::Amounts(amounts), Some(path)) => {
            exceeds_limit(amounts, maximum(index, path.as_bytes()))
        }
        _ => false,
    }
}

fn exceeds_limit(amounts: &Resource<RESOURCES>, limit: Option<Resource<RESOURCES>>) -> bool
    ensures { result ≡ exceeds_limit amounts.now limit }
{
    match limit {
        Some(most) => exceeds(amounts.amounts(), most.amounts()),
        None => false,
    }
}

/// Whether an amount is more than the other's.
fn exceeds(a: [u64; RESOURCES], b: [u64; RESOURCES]) -> bool
    ensures { result ≡ exceeds a b }
{
    for k in 0..RESOURCES {
        if b[k] < a[k] {
            return true;
        }
    }
    false
}

/// The first entry that sets a maximum capacity over that of the queue above, or lists queues below one other than root
/// whose capacities add up to more than its own.
pub fn over_parent_entry<'e, 't>(index: &Index<'e, 't>) -> Option<&'e Entry<'t>>
    requires { IsIndex index.now }
    ensures { option_copied result
        ≡ find (is_over_parent index.now.entries.now) index.now.entries.now }
{
    let mut entries = index.entries.iter();
    entries.find(|entry| is_over_parent(index, entry))
}

fn is_over_parent(index: &Index, entry: &Entry) -> bool
    requires { IsIndex index.now }
    ensures { result ≡ is_over_parent index.now.entries.now entry.now }
{
    match (&entry.value, &entry.queue) {
        (Value::Amounts(amounts), Some(path)) => {
            same_setting(entry.setting, Setting::MaximumCapacity)
                && is_over_parts(index, amounts, path.as_bytes())
        }
        (Value::Names(names), Some(path)) => is_overspent(index, path, names.names()),
        _ => false,
    }
}

fn is_over_parts(index: &Index, amounts: &Resource<RESOURCES>, path: &[u8]) -> bool
    requires { IsIndex index.now }
    ensures { result ≡ is_over_parts index.now.entries.now amounts.now
        (parts_at_last_dot path.now) }
{
    match split_last_dot(path) {
        Some((parent, _)) => exceeds_limit(amounts, maximum(index, parent)),
        None => false,
    }
}

fn is_overspent(index: &Index, path: &PathText, names: &[ShortText]) -> bool
    requires { IsIndex index.now }
    ensures { result ≡ is_overspent index.now.entries.now path.now names.now }
{
    if is_root(path.as_bytes()) {
        return false;
    }
    let sums = added_below(index, path, names);
    exceeds(sums, guaranteed(index, path.as_bytes()).amounts())
}

/// The sums of the capacities of the queues of these names below a queue, each at most `u64::MAX`.
pub fn added_below(index: &Index, path: &PathText, names: &[ShortText]) -> [u64; RESOURCES]
    requires { IsIndex index.now }
    ensures { result ≡ added_below index.now.entries.now path.now names.now }
{
    let mut sums = [0; RESOURCES];
    for name in names {
        let (child, len) = child_bytes(path, name);
        let more = added(sums, guaranteed(index, &child[..len]).amounts());
        sums = more;
    }
    sums
}

/// The sum of each amount.
fn added(amounts: [u64; RESOURCES], more: [u64; RESOURCES]) -> [u64; RESOURCES]
    ensures { result ≡ by_amount resources (λ k. capped (amount amounts k + amount more k)) }
{
    let mut sums = [0; RESOURCES];
    for k in 0..RESOURCES {
        sums[k] = amounts[k].saturating_add(more[k]);
    }
    sums
}
