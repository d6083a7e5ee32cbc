//! The program's words with the daemon among them: the command line and the streams in, the exit status out (`run`).
//! `replay` plays a script, `serve_on` is the daemon on a listener.
#![tactic(auto)]

mod serve;
mod with_serve;

pub use cap_commands::{Counted, replay};
pub use cap_server::{Opened, Sizes, serve_on};
pub use with_serve::run;
