//! Applications, and what they ask for.
#![tactic(auto)]

mod app;
mod apps;
mod asks;
mod change;
mod least;
mod marks;
mod news;
mod waiting;

pub use app::{App, Position};
pub use apps::Apps;
pub use cap_model::AllocateReply;
pub use waiting::Waiting;
