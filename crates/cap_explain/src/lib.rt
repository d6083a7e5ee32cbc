//! What the frames of a script of `capsched replay`, and of what it prints, say in words.
#![tactic(auto)]

mod explainer;
mod line;
mod messages;
mod names;
mod parts;
mod text;

pub use text::explain;
