//! Worked examples of the model's definitions.
//! There is no code here: a function does nothing, and its contract is an example, which stands in `specs/`.
#![tactic(auto)]

pub mod examples;
