//! The key that the bytes of a property line spell: the queue that it is of, and its property (`key_of`).
ghost use Rattle.std.specs.Prelude.{◌≡◌, ◌++◌, ◌∷◌, [], ◌||◌, nat_eq};
ghost use Rattle.std.specs.List.{list_all, starts_with};
ghost use Rattle.std.specs.Option.{option_map};
ghost use Rattle.std.specs.Str.{bytes_eq};
ghost use Rattle.cap_base.specs.properties.Keys.{key_of, queue_key, key_at, setting_named, takes, parts_at_last_dot, path_of, root, is_name, is_name_byte, names_in};

use crate::setting::{is_of_root, spelling};
use cap_base::PathText;
use cap_base::properties::{Key, Setting};

/// The properties of the whole cluster.
const CLUSTER_SETTINGS: [Setting; 7] = [
    Setting::MaximumApplications,
    Setting::MinimumMemory,
    Setting::MinimumVcores,
    Setting::MinimumGpu,
    Setting::MaximumMemory,
    Setting::MaximumVcores,
    Setting::MaximumGpu,
];

/// The properties of one queue.
const QUEUE_SETTINGS: [Setting; 5] = [
    Setting::Queues,
    Setting::Capacity,
    Setting::MaximumCapacity,
    Setting::UserLimitFactor,
    Setting::State,
];

/// What every key of a queue begins with.
const PREFIX: &[u8] = b"yarn.scheduler.capacity.";

/// The path of the queue at the root.
pub const ROOT: &[u8] = b"root";

/// The greatest length of a queue's name, in bytes.
const NAME_MAX: usize = 64;

/// The key that these bytes spell. None where they spell none.
#[tactic(auto, unfolding(cap_base::specs::properties::Keys::key_of))]
pub fn key_of(bytes: &[u8]) -> Option<Key>
    ensures { result ≡ key_of bytes.now }
{
    match setting_named(&CLUSTER_SETTINGS, bytes) {
        Some(setting) => Some(Key {
            queue: None,
            setting,
        }),
        None => queue_key(bytes),
    }
}

/// The property among these that the bytes spell.
#[tactic(auto, unfolding(cap_base::specs::properties::Keys::setting_named))]
fn setting_named(settings: &[Setting], bytes: &[u8]) -> Option<Setting>
    ensures { result ≡ setting_named settings.now bytes.now }
{
    settings
        .iter()
        .copied()
        .find(|setting| bytes == spelling(*setting))
}

/// The key of a queue, taken apart at its last dot.
#[tactic(auto, unfolding(cap_base::specs::properties::Keys::queue_key, cap_base::specs::properties::Keys::prefix))]
fn queue_key(bytes: &[u8]) -> Option<Key>
    ensures { result ≡ queue_key bytes.now }
{
    if !bytes.starts_with(PREFIX) {
        return None;
    }
    match split_last_dot(&bytes[PREFIX.len()..]) {
        Some((path, name)) => key_at(path, setting_named(&QUEUE_SETTINGS, name)),
        None => None,
    }
}

/// The key of the queue with this path for a property. None where there is no such path, property or key.
#[tactic(auto, unfolding(cap_base::specs::properties::Keys::key_at))]
fn key_at(path: &[u8], setting: Option<Setting>) -> Option<Key>
    ensures { result ≡ key_at path.now setting }
{
    match (setting, path_of(path)) {
        (Some(setting), Some(queue)) if takes(path, setting) => Some(Key {
            queue: Some(queue),
            setting,
        }),
        _ => None,
    }
}

/// Whether the queue has this property: `root` has its queues and its state alone.
#[tactic(auto, unfolding(cap_base::specs::properties::Keys::root))]
fn takes(path: &[u8], setting: Setting) -> bool
    ensures { result ≡ takes path.now setting }
{
    path != ROOT || is_of_root(setting)
}

/// The path that these bytes are. None where they are none.
#[tactic(auto, unfolding(cap_base::specs::properties::Keys::path_of))]
fn path_of(bytes: &[u8]) -> Option<PathText>
    ensures { result ≡ path_of bytes.now }
{
    match PathText::new(bytes) {
        Some(path) if begins_with_root(bytes) && all_names(bytes) => Some(path),
        _ => None,
    }
}

/// What is before the last dot and what is after it. `None` where there is no dot.
#[tactic(auto, unfolding(cap_base::specs::properties::Keys::parts_at_last_dot))]
pub fn split_last_dot(bytes: &[u8]) -> Option<(&[u8], &[u8])>
    ensures { option_map (λ parts. (parts.0.now, parts.1.now)) result ≡
        parts_at_last_dot bytes.now }
{
    let mut end = bytes.len();
    while end > 0 {
        end -= 1;
        if bytes[end] == b'.' {
            return Some((&bytes[..end], &bytes[end + 1..]));
        }
    }
    None
}

#[tactic(auto, unfolding(cap_base::specs::properties::Keys::root))]
fn begins_with_root(bytes: &[u8]) -> bool
    ensures { result ≡ (bytes_eq bytes.now root || starts_with nat_eq bytes.now (root ++ 46 ∷ [])) }
{
    bytes == ROOT || bytes.starts_with(b"root.")
}

/// Whether the parts between the dots are names.
fn all_names(bytes: &[u8]) -> bool
    ensures { result ≡ list_all is_name (names_in bytes.now) }
{
    bytes.split(|byte| *byte == b'.').all(|name| is_name(name))
}

/// Whether this is the name of a queue: 1 to 64 letters, digits, `_` or `-` of ASCII.
#[tactic(auto, unfolding(cap_base::specs::properties::Keys::is_name))]
pub fn is_name(bytes: &[u8]) -> bool
    ensures { result ≡ is_name bytes.now }
{
    !bytes.is_empty() && bytes.len() <= NAME_MAX && all_name_bytes(bytes)
}

fn all_name_bytes(bytes: &[u8]) -> bool
    ensures { result ≡ list_all is_name_byte bytes.now }
{
    bytes.iter().all(|byte| is_name_byte(*byte))
}

fn is_name_byte(byte: u8) -> bool
    ensures { result ≡ is_name_byte byte }
{
    matches!(byte, b'a'..=b'z' | b'A'..=b'Z' | b'0'..=b'9' | b'_' | b'-')
}
