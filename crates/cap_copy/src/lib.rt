//! Snapshots of a cluster: what a proposal looks at, and no more, in any allocator.
#![tactic(auto)]

mod asks;
mod copied;
mod farm;
mod nodes;
mod ranges;
mod seen;
mod seen_app;
mod seen_queue;
mod seen_tree;
mod snapshot;
mod taking;
mod waiting;

pub use copied::ClusterCopy;
pub use seen_tree::SeenTree;
pub use snapshot::Snapshot;
pub use taking::copy_tree;
