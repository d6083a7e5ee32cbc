//! The nodes of a cluster, and the containers that are live on them.
#![tactic(auto)]

mod app_key;
mod change;
mod containers;
mod key_counts;
mod load;
mod node;
mod nodes;
mod owners;
mod places;
mod present;
mod reserved;

pub use cap_model::{Container, HeartbeatReply};
pub use load::Load;
pub use node::Node;
pub use nodes::Nodes;
