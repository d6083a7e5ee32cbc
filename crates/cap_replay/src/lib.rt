//! The replay of a script of connections and workers.
#![tactic(auto)]

mod command;
mod complaint;
mod expected;
mod finish;
mod player;
mod print;
mod script;
mod settings;
mod simulation;
mod stop;

pub use cap_session::Counted;
pub use player::{replay, replay_with_words};
