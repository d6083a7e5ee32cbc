//! Tests of the daemon, with clients over sockets of the loopback in the same process, and of replays in memory.
#![tactic(auto)]

#[cfg(test)]
mod beside;
#[cfg(test)]
mod client;
#[cfg(test)]
mod gates;
#[cfg(test)]
mod hostile;
#[cfg(test)]
mod interrupted;
#[cfg(test)]
mod program;
#[cfg(test)]
mod refusals;
#[cfg(test)]
mod replays;
#[cfg(test)]
mod scheduling;
#[cfg(test)]
mod serving;
#[cfg(test)]
mod side;
