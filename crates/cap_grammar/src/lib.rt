//! The grammar of messages: requests and replies read from bytes and written as bytes, each with exactly one spelling in each version.
//! Numbers are big-endian and of fixed width.
#![tactic(auto)]

mod answers;
mod fault;
mod fields;
mod head;
mod laws;
mod lists;
mod news;
mod output;
mod replies;
mod reports;
mod requests;
mod spellable;
mod texts;
mod writing;

pub use crate::answers::{Answer, read_reply};
pub use crate::fault::MessageFault;
pub use crate::head::Head;
pub use crate::laws::{replies_have_one_spelling, requests_have_one_spelling};
pub use crate::output::{FAULT_ROOM, Out, REPLY_ROOM, REQUEST_ROOM};
pub use crate::replies::{BAD_LENGTH, BAD_MESSAGE, reply_room, write_fault, write_reply};
pub use crate::requests::{kind, read_request};
pub use crate::spellable::has_spelling;
pub use crate::writing::write_request;
pub use cap_model::{Reply, Request};
