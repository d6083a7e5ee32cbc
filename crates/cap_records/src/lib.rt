//! What becomes of the closed epochs of a daemon: they are written to its audit file (`AuditFile`, `AuditTrail`), and counted (`Stats`).
#![tactic(auto)]

mod audit_file;
mod stats;
mod trail;

pub use audit_file::AuditFile;
pub use stats::Stats;
pub use trail::AuditTrail;
