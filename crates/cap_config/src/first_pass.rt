//! The tests of each line by itself, which give the lines that set a property (`read_lines`).
ghost use Rattle.std.specs.Prelude.{◌≡◌, ◌++◌, ◌∷◌, [], List, ℕ, OnOk, IfErr};
ghost use Rattle.std.specs.List.{list_all};
ghost use Rattle.std.specs.Option.{option_map};
ghost use Rattle.std.specs.Str.Lines.{lines};
ghost use Rattle.cap_base.specs.properties.Fault.{Gives};
ghost use Rattle.cap_base.specs.properties.Seen.{HasAll};
ghost use Rattle.cap_base.specs.properties.Entries.{is_passed_over, is_printable, line_parts, key_text, entry_of, read_lines};
ghost use Rattle.cap_base.specs.properties.Keys.{key_of};
ghost use Rattle.cap_config.specs.Details.{fault_alone, line_detail, detail_at};

use crate::detail::{Detail, DetailedFault, detailed, earlier};
use crate::key::key_of;
use crate::seen::add_new;
use crate::value::value_of;
use cap_base::properties::{ConfigFaultKind, Entry};
use cap_text::{split_line, split_once, trimmed};
use std::alloc::Global;
use std::collections::HashMap;

/// The lines that set a property, in order. The first line with a fault of its own is the error.
pub fn read_lines<'t>(alloc: Global, text: &'t [u8]) -> Result<Vec<Entry<'t>>, DetailedFault>
    ensures entries { Gives (λ entries. entries.items) (fault_alone result)
        (read_lines (lines text.now)) }
    ensures detail { IfErr result
        (λ found. found.detail ≡ detail_at (lines text.now) found.fault) }
{
    let mut entries = Vec::new(alloc);
    let mut keys = HashMap::new(alloc);
    let mut rest = text;
    let mut line = 0;
    while !rest.is_empty() {
        let (bytes, after) = split_line(rest);
        line += 1;
        if !is_passed_over(bytes) {
            let entry = entry_of(alloc, &mut keys, &entries, line, bytes)?;
            entries.push(entry)?;
        }
        rest = after;
    }
    Ok(entries)
}

/// Whether the line says nothing: it is empty, or a comment.
pub fn is_passed_over(bytes: &[u8]) -> bool
    ensures { result ≡ is_passed_over bytes.now }
{
    match bytes {
        [] => true,
        [first, ..] => *first == b'#',
    }
}

/// What a line sets, where it has no fault of its own. The keys are those of the lines before, and then this one's too; the
/// entries are what those lines set.
fn entry_of<'a>(
    alloc: Global,
    keys: &mut HashMap<&'a [u8], ()>,
    entries: &[Entry],
    line: usize,
    bytes: &'a [u8],
) -> Result<Entry<'a>, DetailedFault>
    ensures entry { (before : List (List ℕ)) → HasAll keys.old before →
        Gives (λ entry. entry) (fault_alone result) (entry_of before line bytes.now) }
    ensures detail { IfErr result (λ found.
        found.detail ≡ line_detail entries.now found.fault.kind (key_of (key_text bytes.now))) }
    ensures keys { (before : List (List ℕ)) → HasAll keys.old before →
        OnOk result (HasAll keys.new (before ++ key_text bytes.now ∷ [])) }
{
    let Some((key_bytes, value_bytes)) = parts_of(bytes) else {
        return Err(detailed(line, ConfigFaultKind::BadLine, Detail::Plain));
    };
    let Some(key) = key_of(key_bytes) else {
        return Err(detailed(line, ConfigFaultKind::UnknownKey, Detail::Plain));
    };
    if !add_new(keys, key_bytes)? {
        let detail = earlier(entries, &key);
        return Err(detailed(line, ConfigFaultKind::Repeated, detail));
    }
    let Some(value) = value_of(alloc, &key, value_bytes)? else {
        let detail = Detail::Form(key.setting);
        return Err(detailed(line, ConfigFaultKind::BadValue, detail));
    };
    Ok(Entry {
        line,
        queue: key.queue,
        setting: key.setting,
        value,
    })
}

/// The key and the value of a line of printable bytes that is cut at its first `=`.
#[tactic(auto, unfolding(cap_base::specs::properties::Entries::line_parts))]
fn parts_of(bytes: &[u8]) -> Option<(&[u8], &[u8])>
    ensures { option_map (λ parts. (parts.0.now, parts.1.now)) result ≡ line_parts bytes.now }
{
    if !all_printable(bytes) {
        return None;
    }
    match split_once(bytes, b'=') {
        Some((key, value)) => Some((trimmed(key), trimmed(value))),
        None => None,
    }
}

/// Whether each byte is printable ASCII.
pub fn all_printable(bytes: &[u8]) -> bool
    ensures { result ≡ list_all is_printable bytes.now }
{
    bytes.iter().all(|byte| 0x20 <= *byte && *byte <= 0x7e)
}
