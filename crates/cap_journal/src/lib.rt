//! The lines of an audit file: property lines, epochs, and the events of a cluster, each written in its one spelling.
#![tactic(auto)]

mod fault;
mod kinds;
mod lines;
mod words;

pub use crate::fault::LineFault;
pub use crate::lines::{
    HEAD, put_call, put_closed, put_epoch, put_event, put_grant, put_property, put_reserve,
};
pub use cap_grammar::Out;
