//! The commands that read standard input, print, and need no thread: `replay`, `check`, `explain` and `audit`. Words in, exit status
//! out (`run`).
#![tactic(auto)]

mod commands;
mod input;
mod streams;
mod texts;

pub use cap_replay::replay;
pub use cap_session::Counted;
pub use commands::{command_line, explain_failure, perform, report, run};
pub use texts::{complain, no_memory, print};
