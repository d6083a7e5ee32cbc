//! The daemon: connections that are served and workers that schedule, each in a thread of its own, over one cluster.
#![tactic(auto)]

mod acceptor;
mod epoch;
mod participants;
mod rejections;
mod serving;
mod state;
mod task;
mod threads;

pub use serving::{Opened, Scheduling, Sizes, serve_on};
