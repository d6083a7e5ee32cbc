//! What a proposal looks at, whatever shows it a cluster (`Farm`).
#![tactic(auto)]

mod farm;

pub use farm::{Farm, wrapped};
