//! The calls of clients and application masters on a cluster.
#![tactic(auto)]

mod allocation;
mod completion;
mod registration;
mod submission;

pub use crate::allocation::allocate;
pub use crate::completion::finish_master;
pub use crate::registration::register_master;
pub use crate::submission::submit;
