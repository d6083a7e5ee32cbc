//! Tests of the engine, of what neither a script nor property lines show.
//! They are of amounts, texts and their pieces, the words for any fault, queues, what waits at them, proposals that no worker makes,
//! snapshots in an arena, frames, requests read ahead, sessions and steps of a world; of what threads share: the lanes of workers, a
//! cluster with its journal, and workers and sessions over it; and of what comes of each where memory is refused.
#![tactic(auto)]

#[cfg(test)]
mod amounts;
#[cfg(test)]
mod arenas;
#[cfg(test)]
mod batches;
#[cfg(test)]
mod commits;
#[cfg(test)]
mod frames;
#[cfg(test)]
mod lanes;
#[cfg(test)]
mod messages;
#[cfg(test)]
mod pieces;
#[cfg(test)]
mod refusals;
#[cfg(test)]
mod sessions;
#[cfg(test)]
mod shared;
#[cfg(test)]
mod steps;
#[cfg(test)]
mod texts;
#[cfg(test)]
mod tree;
#[cfg(test)]
mod walks;
#[cfg(test)]
mod words;
#[cfg(test)]
mod workers;
