//! The tree of queues: each queue keeps its running use, its active applications, and a leaf its users.
#![tactic(auto)]

mod branch;
mod change;
mod count;
mod found;
mod over_limit;
mod queue;
mod tree;

pub use branch::{Branch, Change, CopyIn, Marked, Served, Test, TreeItem};
pub use found::{Found, Path};
pub use over_limit::{InMaximum, OverLimit, fits_in_maximum};
pub use queue::Queue;
pub use tree::QueueTree;
