//! What a scheduler thread proposes on a live cluster.
#![tactic(auto)]

mod choice;
mod live;

pub use choice::propose_live;
