//! The entries of a text, and where those of a queue are found by its path (`Index`).
ghost use Rattle.std.specs.Prelude.{◌≡◌, ◌≤◌, IfOk, take};
ghost use Rattle.std.specs.Option.{option_map, option_copied};
ghost use Rattle.cap_base.specs.properties.Queues.{path_for, child};
ghost use Rattle.cap_config.specs.Index.{FindsAll, entry_at, IsIndex};

use crate::setting::same_setting;
use cap_base::properties::{Entry, Setting};
use cap_base::{PathText, ShortText};
use std::alloc::{AllocError, Global};
use std::collections::BTreeMap;

/// The greatest length of a path, a dot and a name, in bytes.
const CHILD_MAX: usize = 255 + 1 + 64;

/// The entries of all lines, and where to find those of a queue by its path.
#[derive(Drop)]
pub struct Index<'e, 't> {
    pub entries: &'e [Entry<'t>],
    pub queues: BTreeMap<&'e [u8], &'e Entry<'t>>,
    pub capacity: BTreeMap<&'e [u8], &'e Entry<'t>>,
    pub maximum_capacity: BTreeMap<&'e [u8], &'e Entry<'t>>,
    pub user_limit_factor: BTreeMap<&'e [u8], &'e Entry<'t>>,
    pub state: BTreeMap<&'e [u8], &'e Entry<'t>>,
}

/// The index of these entries.
pub fn index_of<'e, 't>(
    alloc: Global,
    entries: &'e [Entry<'t>],
) -> Result<Index<'e, 't>, AllocError>
    ensures { IfOk result (λ index. IsIndex index × (index.entries.now ≡ entries.now)) }
{
    Ok(Index {
        entries,
        queues: places_of(alloc, entries, Setting::Queues)?,
        capacity: places_of(alloc, entries, Setting::Capacity)?,
        maximum_capacity: places_of(alloc, entries, Setting::MaximumCapacity)?,
        user_limit_factor: places_of(alloc, entries, Setting::UserLimitFactor)?,
        state: places_of(alloc, entries, Setting::State)?,
    })
}

/// The entries of a property, by the paths of their queues.
fn places_of<'e, 't>(
    alloc: Global,
    entries: &'e [Entry<'t>],
    setting: Setting,
) -> Result<BTreeMap<&'e [u8], &'e Entry<'t>>, AllocError>
    ensures { IfOk result (λ places. FindsAll places setting entries.now) }
{
    let mut places = BTreeMap::new(alloc);
    let mut i = entries.len();
    while i > 0 {
        i -= 1;
        let entry = &entries[i];
        if let Some(path) = path_for(entry, setting) {
            places.insert(path, entry)?;
        }
    }
    Ok(places)
}

/// The path of the queue for which an entry sets this property.
fn path_for<'e, 't>(entry: &'e Entry<'t>, setting: Setting) -> Option<&'e [u8]>
    ensures { option_map (λ path. path.now) result ≡ path_for setting entry.now }
{
    if !same_setting(entry.setting, setting) {
        return None;
    }
    match &entry.queue {
        Some(path) => Some(path.as_bytes()),
        None => None,
    }
}

/// The entry for the queue at `path`. None where no line sets the property there.
pub fn entry_at<'e, 't>(
    places: &BTreeMap<&'e [u8], &'e Entry<'t>>,
    path: &[u8],
) -> Option<&'e Entry<'t>>
    ensures { option_copied result ≡ entry_at places.now path.now }
{
    match places.get(path) {
        Some(entry) => Some(*entry),
        None => None,
    }
}

/// The path of the queue with this name below another: as many of these bytes as the number says.
pub fn child_bytes(path: &PathText, name: &ShortText) -> ([u8; CHILD_MAX], usize)
    ensures path { take result.1 result.0 ≡ child path.now name.now }
    ensures len { result.1 ≤ 320 }
{
    let (parent, name) = (path.as_bytes(), name.as_bytes());
    let (dot, len) = (parent.len(), parent.len() + 1 + name.len());
    let mut bytes = [b'.'; CHILD_MAX];
    bytes[..dot].copy_from_slice(parent);
    bytes[dot + 1..len].copy_from_slice(name);
    (bytes, len)
}
