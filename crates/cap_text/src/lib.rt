//! Pieces of a text in bytes: cut at a byte, its lines, without spaces round it, and as a decimal number.
#![tactic(auto)]

mod cut;
mod lines;
mod number;
mod trim;

pub use cut::split_once;
pub use lines::{split_line, without_return};
pub use number::number_of;
pub use trim::trimmed;
