//! The names that the value of a `queues` line has, each once (`names_for`).
ghost use Rattle.std.specs.Prelude.{◌≡◌, ◌≤◌, ◌++◌, ◌∷◌, [], IfOk, true, length, count_by, nat_eq};
ghost use Rattle.cap_base.specs.properties.Seen.{HasAll};
ghost use Rattle.cap_base.specs.properties.Values.{names_for, is_next, name_under};

use crate::key::is_name;
use crate::seen::add_new;
use cap_base::ShortText;
use cap_base::properties::Names;
use cap_text::{split_once, trimmed};
use std::alloc::{AllocError, Global};
use std::collections::HashMap;

/// The greatest length of a queue's path, in bytes.
const PATH_MAX: usize = 255;

/// The names that a list for the queue at `path` has. None where a part is no name, a path would pass 255 bytes, or a
/// name is there twice. An empty list has none.
#[tactic(auto, unfolding(cap_base::specs::properties::Values::names_for, cap_base::specs::properties::Values::names_of))]
pub fn names_for<'t>(
    alloc: Global,
    path: &[u8],
    bytes: &'t [u8],
) -> Result<Option<Names<'t>>, AllocError>
    ensures { IfOk result (λ names. names ≡ names_for path.now bytes.now) }
{
    let mut names = Vec::new(alloc);
    if bytes.is_empty() {
        let set = HashMap::new(alloc);
        return Ok(Some(Names::new(names, set)));
    }
    // Room for all names at once: a map that grows moves its names again and again.
    let mut set = HashMap::with_capacity(alloc, commas(bytes) + 1)?;
    let mut rest = bytes;
    while let Some((part, after)) = split_once(rest, b',') {
        if !add_name(path, trimmed(part), &mut names, &mut set)? {
            return Ok(None);
        }
        rest = after;
    }
    if !add_name(path, trimmed(rest), &mut names, &mut set)? {
        return Ok(None);
    }
    Ok(Some(Names::new(names, set)))
}

/// How many commas there are.
pub fn commas(bytes: &[u8]) -> usize
    ensures count { result ≡ count_by (λ byte. nat_eq byte 44) bytes.now }
    ensures few { result ≤ length bytes.now }
{
    bytes.iter().filter(|byte| **byte == b',').count()
}

/// Adds a name of a list. False where it is no name or was seen before.
fn add_name<'a>(
    path: &[u8],
    bytes: &'a [u8],
    names: &mut Vec<ShortText>,
    seen: &mut HashMap<&'a [u8], ()>,
) -> Result<bool, AllocError>
    requires { HasAll seen.old names.old.items }
    ensures taken { IfOk result (λ taken. taken ≡ is_next path.now names.old.items bytes.now) }
    ensures names { IfOk result (λ taken. taken ≡ true →
        names.new.items ≡ names.old.items ++ bytes.now ∷ []) }
    ensures seen { IfOk result (λ taken. taken ≡ true → HasAll seen.new names.new.items) }
{
    let Some(name) = name_under(path, bytes) else {
        return Ok(false);
    };
    if !add_new(seen, bytes)? {
        return Ok(false);
    }
    names.push(name)?;
    Ok(true)
}

/// The name of a queue below `path`. None where it is no name, or the queue's path would pass 255 bytes.
#[tactic(auto, unfolding(cap_base::specs::properties::Values::name_under))]
fn name_under(path: &[u8], bytes: &[u8]) -> Option<ShortText>
    ensures { result ≡ name_under path.now bytes.now }
{
    if path.len() > PATH_MAX || path.len() + 1 + bytes.len() > PATH_MAX {
        return None;
    }
    match ShortText::new(bytes) {
        Some(name) if is_name(bytes) => Some(name),
        _ => None,
    }
}
