//! Any order of steps over one cluster: connections open, bring bytes and end; workers copy, propose and commit.
#![tactic(auto)]

mod connection;
mod connections;
mod laws;
mod run;
mod service;
mod step;
mod worker;
mod workers;
mod world;

pub use cap_model::NoMemory;
pub use laws::{
    commits_are_exact, containers_are_used_once, made_steps_have_the_headline,
    news_is_reported_once, proposals_are_of_copies, worlds_stay_bounded,
};
pub use run::Outcome;
pub use step::{Did, Step};
pub use world::World;
