//! What a cluster has to do with the same cluster without its last resource, where nothing there has any of that resource.
//! There is no code here: a function does nothing, and its contract is a law, which stands in `specs/`.
#![tactic(auto)]

pub mod laws;
