//! The queues that lines set up: which there are, and the names below, capacity, maximum, factor and state of each.
ghost use Rattle.std.specs.Prelude.{◌≡◌, ◌≤◌, None, length, count_by};
ghost use Rattle.std.specs.Option.{option_copied, option_map};
ghost use Rattle.std.specs.Str.{bytes_eq};
ghost use Rattle.cap_base.specs.properties.Keys.{root, is_dot};
ghost use Rattle.cap_config.specs.Details.{missing_path};
ghost use Rattle.cap_config.specs.Index.{IsIndex};
ghost use Rattle.cap_base.specs.properties.Rows.{factor, is_running, running_or};
ghost use Rattle.cap_base.specs.properties.Tests.{level, number_or};
ghost use Rattle.cap_base.specs.properties.Queues.{names_below, names_or_none, amounts_at, guaranteed, maximum};
ghost use Rattle.cap_base.specs.properties.Seen.{contains_bytes};

use crate::index::{Index, entry_at};
use crate::key::{ROOT, split_last_dot};
use cap_base::properties::{Entry, Value};
use cap_base::{RESOURCES, ShortText};
use cap_vector::Resource;

/// How many levels of queues there may be, root's being the first.
pub const LEVELS_MAX: usize = 16;

/// The first path, from the top on, that is not `root` and not listed by the queue above it. None where this is the path of
/// a queue.
pub fn missing_path<'a>(index: &Index, path: &'a [u8]) -> Option<&'a [u8]>
    requires { IsIndex index.now }
    ensures { option_map (λ path. path.now) result ≡
        missing_path index.now.entries.now path.now }
{
    let mut rest = path;
    let mut missing = None;
    while let Some((parent, name)) = split_last_dot(rest) {
        if !lists(index, parent, name) {
            missing = Some(rest);
        }
        rest = parent;
    }
    if is_root(rest) { missing } else { Some(rest) }
}

/// Whether a queue lists this name.
pub fn lists(index: &Index, path: &[u8], name: &[u8]) -> bool
    requires { IsIndex index.now }
    ensures { result ≡ contains_bytes (names_below index.now.entries.now path.now) name.now }
{
    has_name(entry_at(&index.queues, path), name)
}

fn has_name(entry: Option<&Entry>, name: &[u8]) -> bool
    ensures { result ≡ contains_bytes (names_or_none (option_copied entry.entry)) name.now }
{
    match entry {
        Some(entry) => match &entry.value {
            Value::Names(names) => names.has(name),
            _ => false,
        },
        None => false,
    }
}

/// The names that a queue lists.
pub fn names_below<'e, 't>(index: &Index<'e, 't>, path: &[u8]) -> &'e [ShortText]
    requires { IsIndex index.now }
    ensures { result.now ≡ names_below index.now.entries.now path.now }
{
    names_or_none(entry_at(&index.queues, path))
}

fn names_or_none<'e, 't>(entry: Option<&'e Entry<'t>>) -> &'e [ShortText]
    ensures { result.now ≡ names_or_none (option_copied entry.entry) }
{
    match entry {
        Some(entry) => match &entry.value {
            Value::Names(names) => names.names(),
            _ => &[],
        },
        None => &[],
    }
}

/// Whether this is the path of `root`.
#[tactic(auto, unfolding(cap_base::specs::properties::Keys::root))]
pub fn is_root(path: &[u8]) -> bool
    ensures { result ≡ bytes_eq path.now root }
{
    path == ROOT
}

/// How many names a path has.
pub fn level(path: &[u8]) -> usize
    ensures { result ≡ level path.now }
{
    dots(path) + 1
}

fn dots(path: &[u8]) -> usize
    ensures count { result ≡ count_by is_dot path.now }
    ensures few { result ≤ length path.now }
{
    path.iter().filter(|byte| **byte == b'.').count()
}

/// What a queue is guaranteed: its `capacity`, or nothing.
pub fn guaranteed(index: &Index, path: &[u8]) -> Resource<RESOURCES>
    requires { IsIndex index.now }
    ensures { result ≡ guaranteed index.now.entries.now path.now }
{
    match amounts_at(entry_at(&index.capacity, path)) {
        Some(amounts) => amounts,
        None => Resource::zero(),
    }
}

/// The amounts that an entry sets.
pub fn amounts_at(entry: Option<&Entry>) -> Option<Resource<RESOURCES>>
    ensures { result ≡ amounts_at None (option_copied entry.entry) }
{
    match entry {
        Some(entry) => match entry.value {
            Value::Amounts(amounts) => Some(amounts),
            _ => None,
        },
        None => None,
    }
}

/// How far a queue may grow: by its own `maximum-capacity`, or else that of the nearest queue above that has one.
pub fn maximum(index: &Index, path: &[u8]) -> Option<Resource<RESOURCES>>
    requires { IsIndex index.now }
    ensures { result ≡ maximum index.now.entries.now path.now }
{
    let mut rest = path;
    while let Some((parent, _)) = split_last_dot(rest) {
        if let Some(amounts) = amounts_at(entry_at(&index.maximum_capacity, rest)) {
            return Some(amounts);
        }
        rest = parent;
    }
    amounts_at(entry_at(&index.maximum_capacity, rest))
}

/// How many times its guarantee one user may take of a queue: its `user-limit-factor`, or 1.
pub fn factor(index: &Index, path: &[u8]) -> u64
    requires { IsIndex index.now }
    ensures { result ≡ factor index.now.entries.now path.now }
{
    number_or(entry_at(&index.user_limit_factor, path), 1)
}

/// The number that a line sets, or the default where there is no line.
pub fn number_or(entry: Option<&Entry>, default: u64) -> u64
    ensures { result ≡ number_or (option_copied entry.entry) default }
{
    match entry {
        Some(entry) => match entry.value {
            Value::Number(number) => number,
            _ => default,
        },
        None => default,
    }
}

/// Whether a queue's own state is RUNNING, which it is where no line sets it.
pub fn is_running(index: &Index, path: &[u8]) -> bool
    requires { IsIndex index.now }
    ensures { result ≡ is_running index.now.entries.now path.now }
{
    running_or(entry_at(&index.state, path))
}

fn running_or(entry: Option<&Entry>) -> bool
    ensures { result ≡ running_or (option_copied entry.entry) }
{
    match entry {
        Some(entry) => match entry.value {
            Value::Running(running) => running,
            _ => true,
        },
        None => true,
    }
}
