//! What connections are answered where nobody speaks of the third resource: what they would be with two.
//! There is no code here: a function does nothing, and its contract is a law, which stands in `specs/`.
#![tactic(auto)]

pub mod laws;
