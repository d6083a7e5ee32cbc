//! Sessions whose requests are answered from a cluster that threads share.
#![tactic(auto)]

mod batches;
mod sessions;

pub use sessions::{EndCause, SessionEnd, serve_session};
