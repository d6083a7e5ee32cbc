//! The tests over the whole text, in the order of their faults, each at its least line (`whole_fault`).
ghost use Rattle.std.specs.Prelude.{◌≡◌, find, IfSome};
ghost use Rattle.std.specs.Option.{option_copied, option_map};
ghost use Rattle.cap_config.specs.Details.{whole_detail};
ghost use Rattle.cap_config.specs.Index.{IsIndex};
ghost use Rattle.cap_base.specs.properties.Tests.{line_where, cluster_entry, number_or, line_or_zero, pair_line, lesser, allocation_line, lists_none, no_child_line, is_astray, lists_deep, level, too_deep_line, listed_by, too_many_line, shape_fault, whole_fault};

use crate::detail::{
    Detail, DetailedFault, allocation_detail, detailed, over_maximum, over_parent, unlisted,
};
use crate::entry::line_of;
use crate::guarantees::{over_maximum_entry, over_parent_entry};
use crate::index::{Index, entry_at};
use crate::key::ROOT;
use crate::queues::{LEVELS_MAX, level, missing_path, number_or};
use crate::setting::same_setting;
use cap_base::properties::{ConfigFaultKind, Entry, Setting, Value};
use cap_vector::AMOUNT_MAX;

/// The greatest number of queues, root among them.
const QUEUES_MAX: usize = 1024;

/// The fault of the first test over the whole text that fails, at its least line.
#[tactic(auto, unfolding(cap_base::specs::properties::Tests::whole_fault, cap_base::specs::properties::Tests::line_where))]
pub fn whole_fault(index: &Index) -> Option<DetailedFault>
    requires { IsIndex index.now }
    ensures fault { option_map (λ found. found.fault) result
        ≡ whole_fault index.now.entries.now }
    ensures detail { IfSome result
        (λ found. found.detail ≡ whole_detail index.now.entries.now found.fault.kind) }
{
    if let Some(found) = shape_fault(index) {
        return Some(found);
    }
    match over_parent_entry(index) {
        Some(entry) => {
            let detail = over_parent(index, entry);
            Some(detailed(entry.line, ConfigFaultKind::OverParent, detail))
        }
        None => None,
    }
}

/// The first fault in the bounds of a container, in the shape of the tree and of a capacity over its maximum.
#[tactic(auto, unfolding(cap_base::specs::properties::Tests::shape_fault, cap_base::specs::properties::Tests::line_where))]
fn shape_fault(index: &Index) -> Option<DetailedFault>
    requires { IsIndex index.now }
    ensures fault { option_map (λ found. found.fault) result
        ≡ shape_fault index.now.entries.now }
    ensures detail { IfSome result
        (λ found. found.detail ≡ whole_detail index.now.entries.now found.fault.kind) }
{
    if let Some(line) = allocation_line(index.entries) {
        let detail = allocation_detail(index.entries);
        return Some(detailed(line, ConfigFaultKind::BadValue, detail));
    }
    if let Some(line) = no_child_line(index) {
        return Some(detailed(line, ConfigFaultKind::NoChild, Detail::Plain));
    }
    if let Some(entry) = astray_entry(index) {
        let detail = unlisted(index, &entry.queue);
        return Some(detailed(entry.line, ConfigFaultKind::NoSuchQueue, detail));
    }
    if let Some(line) = too_deep_line(index.entries) {
        return Some(detailed(line, ConfigFaultKind::TooDeep, Detail::Plain));
    }
    if let Some(line) = too_many_line(index.entries) {
        return Some(detailed(line, ConfigFaultKind::TooManyQueues, Detail::Plain));
    }
    if let Some(entry) = over_maximum_entry(index) {
        let detail = over_maximum(index, entry);
        return Some(detailed(entry.line, ConfigFaultKind::GuaranteeOverMaximum, detail));
    }
    None
}

/// The least line at which a maximum allocation is less than the minimum: the later of the two lines.
#[tactic(auto, unfolding(cap_base::specs::properties::Tests::allocation_line))]
fn allocation_line(entries: &[Entry]) -> Option<usize>
    ensures { result ≡ allocation_line entries.now }
{
    let memory = pair_line(
        cluster_entry(entries, Setting::MinimumMemory),
        1024,
        cluster_entry(entries, Setting::MaximumMemory),
        8192,
    );
    let vcores = pair_line(
        cluster_entry(entries, Setting::MinimumVcores),
        1,
        cluster_entry(entries, Setting::MaximumVcores),
        4,
    );
    let gpus = pair_line(
        cluster_entry(entries, Setting::MinimumGpu),
        0,
        cluster_entry(entries, Setting::MaximumGpu),
        AMOUNT_MAX,
    );
    lesser(memory, lesser(vcores, gpus))
}

fn lesser(a: Option<usize>, b: Option<usize>) -> Option<usize>
    ensures { result ≡ lesser a b }
{
    match (a, b) {
        (Some(a), Some(b)) => Some(a.min(b)),
        (Some(a), None) => Some(a),
        (None, b) => b,
    }
}

/// The entry of a property of the whole cluster.
pub fn cluster_entry<'e, 't>(entries: &'e [Entry<'t>], setting: Setting) -> Option<&'e Entry<'t>>
    ensures { option_copied result ≡ cluster_entry entries.now setting }
{
    entries
        .iter()
        .find(|entry| same_setting(entry.setting, setting))
}

/// The later of the two lines, where the maximum is less than the minimum.
fn pair_line(
    least: Option<&Entry>,
    least_default: u64,
    most: Option<&Entry>,
    most_default: u64,
) -> Option<usize>
    ensures { result ≡ pair_line (option_copied least.entry) least_default
        (option_copied most.entry) most_default }
{
    if number_or(most, most_default) < number_or(least, least_default) {
        Some(line_or_zero(least).max(line_or_zero(most)))
    } else {
        None
    }
}

fn line_or_zero(entry: Option<&Entry>) -> usize
    ensures { result ≡ line_or_zero (option_copied entry.entry) }
{
    match entry {
        Some(entry) => entry.line,
        None => 0,
    }
}

/// 0 where `root` lists no queues, or else the first line that lists none.
fn no_child_line(index: &Index) -> Option<usize>
    requires { IsIndex index.now }
    ensures { result ≡ no_child_line index.now.entries.now }
{
    let Some(_) = entry_at(&index.queues, ROOT) else {
        return Some(0);
    };
    childless_line(index.entries)
}

/// The first line that lists no queue.
#[tactic(auto, unfolding(cap_base::specs::properties::Tests::line_where))]
fn childless_line(entries: &[Entry]) -> Option<usize>
    ensures { result ≡ line_where lists_none entries.now }
{
    line_of(entries.iter().find(|entry| lists_none(entry)))
}

fn lists_none(entry: &Entry) -> bool
    ensures { result ≡ lists_none entry.now }
{
    match &entry.value {
        Value::Names(names) => names.names().is_empty(),
        _ => false,
    }
}

/// The first entry for a queue that is not in the tree.
fn astray_entry<'e, 't>(index: &Index<'e, 't>) -> Option<&'e Entry<'t>>
    requires { IsIndex index.now }
    ensures { option_copied result
        ≡ find (is_astray index.now.entries.now) index.now.entries.now }
{
    let mut entries = index.entries.iter();
    entries.find(|entry| is_astray(index, entry))
}

#[tactic(auto, using(crate::proofs::Missing::none_missing))]
fn is_astray(index: &Index, entry: &Entry) -> bool
    requires { IsIndex index.now }
    ensures { result ≡ is_astray index.now.entries.now entry.now }
{
    match &entry.queue {
        Some(path) => missing_path(index, path.as_bytes()).is_some(),
        None => false,
    }
}

/// The first line that lists queues on the level after the last.
#[tactic(auto, unfolding(cap_base::specs::properties::Tests::line_where))]
fn too_deep_line(entries: &[Entry]) -> Option<usize>
    ensures { result ≡ too_deep_line entries.now }
{
    line_of(entries.iter().find(|entry| lists_deep(entry)))
}

fn lists_deep(entry: &Entry) -> bool
    ensures { result ≡ lists_deep entry.now }
{
    match (&entry.value, &entry.queue) {
        (Value::Names(_), Some(path)) => level(path.as_bytes()) == LEVELS_MAX,
        _ => false,
    }
}

/// The line up to which more than 1,024 queues are listed.
fn too_many_line(entries: &[Entry]) -> Option<usize>
    ensures { result ≡ too_many_line entries.now }
{
    let mut count: usize = 1;
    for entry in entries {
        let listed = listed_by(entry);
        if QUEUES_MAX - count < listed {
            return Some(entry.line);
        }
        count += listed;
    }
    None
}

fn listed_by(entry: &Entry) -> usize
    ensures { result ≡ listed_by entry.now.value }
{
    match &entry.value {
        Value::Names(names) => names.names().len(),
        _ => 0,
    }
}
