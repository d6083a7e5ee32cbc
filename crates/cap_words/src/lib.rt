//! Words for operators about settings: the first fault of property lines, or the table of their queues.
#![tactic(auto)]

mod amounts;
mod fault;
mod table;
mod text;

pub use fault::describe;
pub use table::queue_table;
