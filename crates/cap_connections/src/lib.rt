//! Connections of a daemon, each served from epoch to epoch, and the places where they wait for their threads.
#![tactic(auto)]

mod connection;
mod places;

pub use connection::{ClientConnection, Refused};
pub use places::{Given, Place, Places};
