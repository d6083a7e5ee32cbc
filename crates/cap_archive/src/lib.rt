//! Closed epochs written as the lines of an audit file (`write_settings`, `write_epoch`).
#![tactic(auto)]

mod archive;

pub use crate::archive::{ArchiveFault, write_epoch, write_settings};
