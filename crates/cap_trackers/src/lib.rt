//! The calls of node managers and operators on a cluster.
#![tactic(auto)]

mod node_calls;
mod queue_calls;
mod refreshing;

pub use crate::node_calls::{heartbeat, node_gone, register_node};
pub use crate::queue_calls::{cluster_info, queue_info, set_queue_state};
pub use crate::refreshing::{ReadSettings, refresh, refresh_with};
