//! Tests of workers that follow the journal on clusters of their own.
#![tactic(auto)]

#[cfg(test)]
mod calling;
#[cfg(test)]
mod clients;
#[cfg(test)]
mod committing;
#[cfg(test)]
mod copies;
#[cfg(test)]
mod epochs;
#[cfg(test)]
mod following;
#[cfg(test)]
mod giving_way;
#[cfg(test)]
mod in_step;
#[cfg(test)]
mod picture;
#[cfg(test)]
mod refreshing;
#[cfg(test)]
mod refused;
#[cfg(test)]
mod resting;
