//! What a scheduler thread proposes on a snapshot of a cluster.
#![tactic(auto)]

mod choice;

pub use cap_choice::choice_is_unique;
pub use choice::propose;
