//! Tests of proposals on a live cluster.
#![tactic(auto)]

#[cfg(test)]
mod impossible;
#[cfg(test)]
mod passed_over;
#[cfg(test)]
mod proposals;
#[cfg(test)]
mod random;
#[cfg(test)]
mod steps;
