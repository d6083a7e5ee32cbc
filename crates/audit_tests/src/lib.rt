//! Tests of an epoch that is written as a file and audited.
#![tactic(auto)]

#[cfg(test)]
mod files;
