//! The operator's settings: property lines of the Capacity Scheduler, read whole or refused at the first fault.
#![tactic(auto)]

mod allocation;
mod config;
mod detail;
mod entry;
mod first_pass;
mod guarantees;
mod index;
mod key;
pub mod laws;
mod line_keys;
mod names;
mod queues;
mod reading;
mod second_pass;
mod seen;
mod setting;
mod value;

pub use cap_base::properties::{ConfigFault, ConfigFaultKind, Setting};
pub use cap_base::{Config, QueueRow};
pub use detail::{Detail, DetailedFault, Limit};
pub use line_keys::line_key;
pub use reading::{read_config, read_detailed};
