//! What a daemon reads and writes, and how its threads wait: streams that wait for no client once an epoch is ending, what is kept for a client, and
//! standard input.
#![tactic(auto)]

mod backlog;
mod poller;
mod renewal;
mod sender;
mod signal;
mod streams;
mod uninterrupted;

pub use backlog::Backlog;
pub use poller::Poller;
pub use renewal::{Course, Renewal};
pub use sender::{Sender, SentBytes};
pub use signal::EndSignal;
pub use streams::{Incoming, Outgoing};
pub use uninterrupted::Uninterrupted;
