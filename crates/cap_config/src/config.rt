//! The settings that lines without a fault make, with a row for each queue (`config_of`).
ghost use Rattle.std.specs.Prelude.{◌≡◌, ◌≤◌, ◌++◌, IfOk, None, OnOk, true};
ghost use Rattle.cap_vector.specs.Vector.{IsResource};
ghost use Rattle.cap_config.specs.Bounds.{are_bounded};
ghost use Rattle.cap_base.specs.Limits.{applications_max, resources};
ghost use Rattle.cap_base.specs.declared.properties.setting.Setting.TheVariants.{MaximumApplications};
ghost use Rattle.cap_base.specs.Texts.{is_text};
ghost use Rattle.cap_base.specs.properties.Queues.{child};
ghost use Rattle.cap_base.specs.properties.Tests.{cluster_entry, number_or, whole_fault};
ghost use Rattle.cap_config.specs.Index.{IsIndex};
ghost use Rattle.cap_base.specs.properties.Rows.{row_of, rows_under, settings_of};

use crate::allocation::{maximum_allocation, minimum_allocation};
use crate::index::{Index, child_bytes};
use crate::key::ROOT;
use crate::queues::{LEVELS_MAX, factor, guaranteed, is_running, maximum, names_below, number_or};
use crate::second_pass::cluster_entry;
use cap_base::properties::{Entry, Setting};
use cap_base::{Config, PathText, QueueRow, RESOURCES, ShortText};
use cap_vector::Resource;
use std::alloc::{AllocError, Global};

/// The settings that lines without a fault make. An error means that an allocation failed.
#[tactic(auto, unfolding(cap_base::specs::properties::Rows::settings_of, cap_base::specs::properties::Keys::root))]
pub fn config_of(alloc: Global, index: &Index) -> Result<Config<RESOURCES>, AllocError>
    requires index { IsIndex index.now }
    requires bounded { are_bounded index.now.entries.now ≡ true }
    requires whole { whole_fault index.now.entries.now ≡ None }
    ensures { IfOk result (λ config. config ≡ settings_of index.now.entries.now) }
{
    let mut queues = Vec::new(alloc);
    let Some(root) = PathText::new(ROOT) else {
        unreachable!()
    };
    add_queues(alloc, index, root, LEVELS_MAX, &mut queues)?;
    let entries = index.entries;
    Ok(Config::new(
        queues,
        allocation(minimum_allocation(entries)),
        allocation(maximum_allocation(entries)),
        application_limit(entries),
    ))
}

/// How many applications may be active at once.
fn application_limit(entries: &[Entry]) -> u64
    requires { are_bounded entries.now ≡ true }
    ensures value { result ≡ number_or (cluster_entry entries.now MaximumApplications) 10000 }
    ensures small { result ≤ applications_max }
{
    number_or(cluster_entry(entries, Setting::MaximumApplications), 10_000)
}

/// These amounts as a resource.
fn allocation(amounts: [u64; RESOURCES]) -> Resource<RESOURCES>
    requires { IsResource resources amounts }
    ensures { result ≡ amounts }
{
    let Some(allocation) = Resource::new(amounts) else {
        unreachable!()
    };
    allocation
}

/// Adds a queue and those under it, on at most so many levels.
fn add_queues(
    alloc: Global,
    index: &Index,
    path: PathText,
    levels: usize,
    queues: &mut Vec<QueueRow<RESOURCES>>,
) -> Result<(), AllocError>
    requires index { IsIndex index.now }
    requires bounded { are_bounded index.now.entries.now ≡ true }
    ensures { OnOk result (queues.new.items ≡ queues.old.items
        ++ rows_under levels index.now.entries.now path) }
{
    if levels == 0 {
        return Ok(());
    }
    queues.push(row_of(index, path))?;
    for name in names_below(index, path.as_bytes()) {
        let child = child_path(&path, name);
        add_queues(alloc, index, child, levels - 1, queues)?;
    }
    Ok(())
}

/// The path of the queue of this name under a queue.
fn child_path(path: &PathText, name: &ShortText) -> PathText
    requires { is_text 255 (child path.now name.now) ≡ true }
    ensures { result ≡ child path.now name.now }
{
    let (child, len) = child_bytes(path, name);
    let Some(child) = PathText::new(&child[..len]) else {
        unreachable!()
    };
    child
}

#[tactic(auto, unfolding(cap_base::specs::properties::Rows::row_of))]
fn row_of(index: &Index, path: PathText) -> QueueRow<RESOURCES>
    requires { IsIndex index.now }
    ensures { result ≡ row_of index.now.entries.now path }
{
    QueueRow::new(
        path,
        guaranteed(index, path.as_bytes()),
        maximum(index, path.as_bytes()),
        factor(index, path.as_bytes()),
        is_running(index, path.as_bytes()),
    )
}
