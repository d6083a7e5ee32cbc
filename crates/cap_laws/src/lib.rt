//! Laws of the model over steps and runs.
//! There is no code here: a function does nothing, and its contract is a law, which stands in `specs/`.
#![tactic(auto)]

pub mod laws;
