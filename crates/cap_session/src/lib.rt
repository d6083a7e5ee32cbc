//! One connection: bytes in, requests out, replies in, bytes out. It knows frames and messages, and no cluster.
#![tactic(auto)]

mod ahead;
mod asked;
mod counted;
mod find;
mod session;

pub use cap_model::{NoMemory, OwnedReply, Request};
pub use counted::{Counted, Got, Put, Sent, StreamFailed, log_bytes, write_out};
pub use session::{Fed, Next, Session, SessionCause};
