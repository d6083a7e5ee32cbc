//! Lanes from eight workers to one committer: each worker puts proposals in order, and the committer takes each once.
#![tactic(auto)]

mod channel_rule;
mod committer;
mod faults;
mod item;
mod making;
mod putter;
mod putting;
mod taking;
mod view;

pub use committer::{Committer, LanesClosed};
pub use faults::PutFault;
pub use making::lanes;
pub use putter::{Ended, Putter};
