//! What tests of several crates need: settings and the cluster that they open, whether two clusters show the same, changes of a tree,
//! requests as frames, also of clients that do anything, an epoch, a replica that looks at it, and a count that threads wait for.
//! The spelling of frames is written by hand and shares no code with the engine.
#![tactic(auto)]

mod alike;
mod epochs;
mod looker;
mod mark;
mod random;
mod settings;
mod spelling;
mod table;
mod tree;

pub use alike::{are_alike, is_same, report_alike};
pub use epochs::{Work, epoch};
pub use looker::{Both, Looker};
pub use mark::Mark;
pub use random::RandomClient;
pub use settings::{NESTED_QUEUES, SMALL_QUEUES, TWO_QUEUES, cluster, cluster_after, make_call};
pub use spelling::{Call, WantedContainers, frame};
pub use table::first;
pub use tree::{Change, ChangeAt, change_queue, change_queues, tree_after};
