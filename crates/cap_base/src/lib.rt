//! What property lines mean, and what they and the model share: texts, limits, settings, amounts, paths, trees of queues.
//! In `proofs/` stand besides the lemmas about lists that all crates cite.
#![tactic(auto)]

pub mod laws;
mod no_memory;
pub mod properties;
mod settings;
mod text;

pub use no_memory::NoMemory;
pub use settings::{Config, QueueRow};
pub use text::{PathText, ShortText, Text};

/// How many kinds of resource the engine has: memory, in MiB, vcores, and `yarn.io/gpu`.
pub const RESOURCES: usize = 3;

const _: () = prove!(RESOURCES == 3);
