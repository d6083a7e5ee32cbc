//! The audit of a file of epochs: its lines are played on one cluster, and it is true where each of them is a step of it (`audit`).
#![tactic(auto)]

mod auditor;
mod counts;
mod entries;
mod place;
mod player;
mod reading;
mod stop;
mod words;

pub use crate::player::audit;
pub use cap_session::Counted;
