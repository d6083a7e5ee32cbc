//! What a scheduler thread proposes on whatever shows it a cluster (`propose_on`).
#![tactic(auto)]

mod admission;
mod choice;
mod laws;

pub use choice::propose_on;
pub use laws::choice_is_unique;
